// Filling a packet from an owned queue, for the Rust crate, which alone calls it (as owned_c): a library of its own, so that the next
// fragment has one caller in its library (owned_c) and is compiled into dsq_owned_produce. No part of c/send_queue.h.
#![tactic(auto)]

ghost use Rattle.std.specs.Prelude.{◌≡◌};
ghost use Rattle.queue_state.specs.Good.{Good};
ghost use Rattle.packets.specs.Answers.{as_filled};
ghost use Rattle.packets.specs.Filling.{fill_packet};
ghost use Rattle.owned_packets.specs.Filling.{filled_as};
ghost use Rattle.packet_numbers.specs.Packets.{packet_with, GivesPacket};

use out_array::OUT_WORDS;
use owned_packets::{FillRefusal, Filled, fill_packet};
use packet_numbers::{packet_of, tell_filled};
use queue_words::QUEUE_WORDS;
use types::Refusal;

pub mod layout;

// As the checked call says it.
fn filled_as(a: Result<Filled, FillRefusal>) -> Result<Filled, Refusal>
    ensures { as_filled result ≡ filled_as a }
{
    Ok(a?)
}

// 0, or the refusal's number, which is 20, 21, 3 or 4.
#[unsafe(no_mangle)]
pub extern "C" fn dsq_owned_fill_packet(
    queue: &mut [u64; QUEUE_WORDS],
    store: &[u8],
    events: &mut [u64],
    packet: &mut [u8],
    out: &mut [u64; OUT_WORDS],
    time: u64,
    limit: u64,
    source_port: u16,
    destination_port: u16,
    verification_tag: u32,
    tsn: u32,
) -> u32
    requires { Good queue.old store.now }
    ensures { GivesPacket (fill_packet queue.old store.now events.old packet.old time (packet_with limit source_port destination_port verification_tag tsn)) out.old result queue.new events.new packet.new out.new }
{
    let p = packet_of(limit, source_port, destination_port, verification_tag, tsn);
    let a = fill_packet(queue, store, events, packet, time, p);
    let told = filled_as(a);
    tell_filled(out, told)
}
