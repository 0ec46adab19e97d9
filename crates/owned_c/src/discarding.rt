// Discarding a message: 0, or 3.
ghost use Rattle.std.specs.Prelude.{◌≡◌};
ghost use Rattle.queue_streams.specs.Answers.{as_call};
ghost use Rattle.queue_messages.specs.Discard.{discard};
ghost use Rattle.owned_streams.specs.Own.{OwnWords};
ghost use Rattle.owned_closing.specs.Own.{discarded_as};
ghost use Rattle.host_numbers.specs.Given.{GivesEvents};

use host_numbers::tell_call;
use out_array::OUT_WORDS;
use owned_closing::EventListShort;
use queue_words::QUEUE_WORDS;
use types::Refusal;

// As the checked call says it.
fn discarded_as(a: Result<usize, EventListShort>) -> Result<usize, Refusal>
    ensures { as_call result ≡ discarded_as a }
{
    Ok(a?)
}

#[unsafe(no_mangle)]
pub extern "C" fn dsq_owned_discard(
    queue: &mut [u64; QUEUE_WORDS],
    events: &mut [u64],
    out: &mut [u64; OUT_WORDS],
    stream_id: u16,
    message_id: u32,
) -> u32
    requires { OwnWords queue.old }
    ensures { GivesEvents (discard queue.old events.old stream_id message_id) out.old result queue.new events.new out.new }
{
    let a = owned_closing::discard(queue, events, stream_id, message_id);
    let c = discarded_as(a);
    tell_call(out, c)
}
