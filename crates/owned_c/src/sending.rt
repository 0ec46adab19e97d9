// The next fragment: 0, or the refusal's number, which is 3, 4, 9 or 10.
ghost use Rattle.std.specs.Prelude.{◌≡◌};
ghost use Rattle.queue_sending.specs.Data.{produced_number};
ghost use Rattle.queue_sending.specs.Produce.{produce_next};
ghost use Rattle.queue_state.specs.Good.{Good};
ghost use Rattle.owned_sending.specs.Produce.{produced_of};
ghost use Rattle.host_numbers.specs.Numbers.{produced_out};
ghost use Rattle.host_numbers.specs.Given.{GivesFragment};

use host_numbers::tell_produced;
use out_array::OUT_WORDS;
use owned_sending::{ProduceRefusal, Produced};
use queue_words::QUEUE_WORDS;
use types::Refusal;

// As the checked call tells it; what is made is passed on as it is.
fn tell_own(out: &mut [u64; OUT_WORDS], p: Result<Produced, ProduceRefusal>) -> u32
    ensures { (result ≡ produced_number (produced_of p)) × (out.new ≡ produced_out out.old (produced_of p)) }
{
    match p {
        Ok(made) => tell_produced(out, Ok(made)),
        Err(own) => u8::from(Refusal::from(own)) as u32,
    }
}

#[unsafe(no_mangle)]
pub extern "C" fn dsq_owned_produce(
    queue: &mut [u64; QUEUE_WORDS],
    store: &[u8],
    events: &mut [u64],
    buffer: &mut [u8],
    out: &mut [u64; OUT_WORDS],
    time: u64,
    size: u64,
) -> u32
    requires { Good queue.old store.now }
    ensures { GivesFragment (produce_next queue.old store.now events.old buffer.old time size) out.old result queue.new events.new buffer.new out.new }
{
    let p = owned_sending::produce(queue, store, events, buffer, time, size);
    tell_own(out, p)
}
