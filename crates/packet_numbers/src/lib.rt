// What the libraries that fill packets share: a packet by its numbers, and what is told of a filled one in named places of an array.
#![tactic(auto)]

ghost use Rattle.std.specs.Prelude.{◌≡◌};
ghost use Rattle.packets.specs.Answers.{as_filled};
ghost use Rattle.packets.specs.Filling.{filled_number};
ghost use Rattle.packet_numbers.specs.Packets.{packet_with, told_packet, filled_out};

use out_array::{EVENTS, LENGTH, OUT_WORDS, VALUE};
use packets::{Filled, Packet};
use types::Refusal;

pub fn packet_of(
    limit: u64,
    source_port: u16,
    destination_port: u16,
    verification_tag: u32,
    tsn: u32,
) -> Packet
    ensures { result ≡ packet_with limit source_port destination_port verification_tag tsn }
{
    Packet {
        limit: limit as usize,
        source_port: source_port,
        destination_port: destination_port,
        verification_tag: verification_tag,
        tsn: tsn,
    }
}

// The value is the number of chunks, the length that of the packet; both are 0 without a fragment.
pub fn tell_packet(out: &mut [u64; OUT_WORDS], k: usize, bytes: usize, chunks: usize)
    ensures { out.new ≡ told_packet out.old k bytes chunks }
{
    out[VALUE] = chunks as u64;
    out[EVENTS] = k as u64;
    out[LENGTH] = bytes as u64;
}

// 0, or the refusal's number.
pub fn tell_filled(out: &mut [u64; OUT_WORDS], a: Result<Filled, Refusal>) -> u32
    ensures { (result ≡ filled_number (as_filled a)) × (out.new ≡ filled_out out.old (as_filled a)) }
{
    match a {
        Ok(f) => {
            tell_packet(out, f.events, f.bytes, f.chunks);
            0
        }
        Err(refusal) => u8::from(refusal) as u32,
    }
}
