// Adding a message: 0, or the refusal's number, which is 4, 5, 6, 7 or 8.
ghost use Rattle.std.specs.Prelude.{◌≡◌};
ghost use Rattle.queue_streams.specs.Answers.{call_number};
ghost use Rattle.queue_messages.specs.Add.{add};
ghost use Rattle.queue_state.specs.Good.{Good};
ghost use Rattle.owned_adding.specs.Add.{call_of};
ghost use Rattle.host_numbers.specs.Numbers.{message_of_words};
ghost use Rattle.host_numbers.specs.Given.{GivesStore};

use host_numbers::message_of;
use owned_adding::Refusal;
use queue_words::QUEUE_WORDS;

fn added_number(a: Result<(), Refusal>) -> u32
    ensures { result ≡ call_number (call_of a) }
{
    match a {
        Ok(()) => 0,
        Err(own) => u8::from(types::Refusal::from(own)) as u32,
    }
}

#[unsafe(no_mangle)]
pub extern "C" fn dsq_owned_add(
    queue: &mut [u64; QUEUE_WORDS],
    store: &mut [u8],
    payload: &[u8],
    time: u64,
    stream_id: u16,
    ppid: u32,
    unordered: u8,
    has_lifetime: u8,
    lifetime: u64,
    has_retransmissions: u8,
    max_retransmissions: u16,
    lifecycle_id: u64,
) -> u32
    requires { Good queue.old store.old }
    ensures { GivesStore (add queue.old store.old time (message_of_words stream_id ppid unordered has_lifetime lifetime has_retransmissions max_retransmissions lifecycle_id) payload.now) result queue.new store.new }
{
    let m = message_of(
        stream_id,
        ppid,
        unordered,
        has_lifetime,
        lifetime,
        has_retransmissions,
        max_retransmissions,
        lifecycle_id,
    );
    let a = owned_adding::add(queue, store, time, m, payload);
    added_number(a)
}
