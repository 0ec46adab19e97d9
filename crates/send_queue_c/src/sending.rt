// The next fragment.
ghost use Rattle.queue_sending.specs.Produce.{produce_next};
ghost use Rattle.send_queue_c.specs.Given.{GivesFragment};

use host_numbers::tell_produced;
use out_array::OUT_WORDS;
use send_queue::{QUEUE_WORDS, produce};

#[unsafe(no_mangle)]
pub extern "C" fn dsq_produce(
    queue: &mut [u64; QUEUE_WORDS],
    store: &[u8],
    events: &mut [u64],
    buffer: &mut [u8],
    out: &mut [u64; OUT_WORDS],
    time: u64,
    size: u64,
) -> u32
    ensures { GivesFragment (produce_next queue.old store.now events.old buffer.old time size) out.old result queue.new events.new buffer.new out.new }
{
    let p = produce(queue, store, events, buffer, time, size);
    tell_produced(out, p)
}
