// Filling a packet with both promises: what the call leaves on the words, for every input, and that on the words of a queue this is
// the model's step.
#![tactic(auto)]

ghost use Rattle.packets.specs.Answers.{as_filled};
ghost use Rattle.linked_packets.specs.Meaning.{FillMeets};

use packets::{Filled, Packet};
use queue_words::QUEUE_WORDS;
use types::Refusal;

pub fn fill_packet(
    queue: &mut [u64; QUEUE_WORDS],
    store: &[u8],
    events: &mut [u64],
    packet: &mut [u8],
    time: u64,
    p: Packet,
) -> Result<Filled, Refusal>
    ensures { FillMeets queue.old store.now events.old packet.old time p (as_filled result) queue.new events.new packet.new }
{
    packets::fill_packet(queue, store, events, packet, time, p)
}
