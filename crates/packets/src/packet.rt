// What the call takes and answers, and the numbers of a packet.
ghost use Rattle.std.specs.Prelude.{◌≡◌, ◌≤◌, length};
ghost use Rattle.big_endian.specs.Numbers.{wrote};
ghost use Rattle.queue_model.specs.Fill.{common_header, common_header_length};
ghost use Rattle.packets.specs.Filling.{packet_of};

use big_endian::{put_u16, put_u32};

// "the 12-byte common header".
pub const COMMON_HEADER: usize = 12;

// "20 when the packet limit is outside 36 to 65,535".
pub const LEAST_LIMIT: usize = 36;

pub const MOST_LIMIT: usize = 65535;

// A packet as it is asked for: its limit in bytes, "two ports, verification tag", and the TSN of its first chunk.
#[derive(Clone, Copy, Debug, PartialEq, Eq)]
pub struct Packet {
    pub limit: usize,
    pub source_port: u16,
    pub destination_port: u16,
    pub verification_tag: u32,
    pub tsn: u32,
}

// How many events are written, "the bytes and chunks written".
#[derive(Clone, Copy, Debug, PartialEq, Eq)]
pub struct Filled {
    pub events: usize,
    pub bytes: usize,
    pub chunks: usize,
}

// "the 12-byte common header (two ports, verification tag, checksum 0 as RFC 9653 permits)".
pub fn put_common_header(packet: &mut [u8], p: Packet)
    requires { common_header_length ≤ length packet.old }
    ensures { packet.new ≡ wrote packet.old 0 (common_header (packet_of p)) }
{
    put_u16(packet, 0, p.source_port);
    put_u16(packet, 2, p.destination_port);
    put_u32(packet, 4, p.verification_tag);
    put_u32(packet, 8, 0);
}
