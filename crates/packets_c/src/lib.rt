// Filling a packet, for a host in C or Rust (header: c/send_queue.h): a library of its own, so that the next fragment has one caller in its library
// (send_queue_c) and is compiled into dsq_produce.
#![tactic(auto)]

ghost use Rattle.packets.specs.Filling.{fill_packet};
ghost use Rattle.packet_numbers.specs.Packets.{packet_with, GivesPacket};

use linked_packets::fill_packet;
use out_array::OUT_WORDS;
use packet_numbers::{packet_of, tell_filled};
use queue_words::QUEUE_WORDS;

#[unsafe(no_mangle)]
pub extern "C" fn dsq_fill_packet(
    queue: &mut [u64; QUEUE_WORDS],
    store: &[u8],
    events: &mut [u64],
    packet: &mut [u8],
    out: &mut [u64; OUT_WORDS],
    time: u64,
    limit: u64,
    source_port: u16,
    destination_port: u16,
    verification_tag: u32,
    tsn: u32,
) -> u32
    ensures { GivesPacket (fill_packet queue.old store.now events.old packet.old time (packet_with limit source_port destination_port verification_tag tsn)) out.old result queue.new events.new packet.new out.new }
{
    let p = packet_of(limit, source_port, destination_port, verification_tag, tsn);
    let a = fill_packet(queue, store, events, packet, time, p);
    tell_filled(out, a)
}
