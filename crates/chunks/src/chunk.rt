// What the chunk calls take, what is read, and the numbers of a chunk.
ghost use Rattle.std.specs.Prelude.{◌≡◌, ◌≤◌};
ghost use Rattle.std.specs.Prelude.{if◌then◌else◌};
ghost use Rattle.queue_model.specs.Chunks.{padded};
ghost use Rattle.chunks.specs.Layout.{header_size};

use queue_sending::DataToSend;

// "DATA (RFC 9260) has type 0; I-DATA (RFC 8260) has type 64."
pub const DATA_TYPE: u8 = 0;

pub const I_DATA_TYPE: u8 = 64;

// "flags (4 unordered, 2 first, 1 last)".
pub const UNORDERED: u8 = 4;

pub const FIRST: u8 = 2;

pub const LAST: u8 = 1;

// The bytes before the payload.
pub const DATA_HEADER: usize = 16;

pub const I_DATA_HEADER: usize = 20;

#[derive(Clone, Copy, Debug, PartialEq, Eq)]
pub enum ChunkKind {
    Data,
    IData,
}

// A chunk read: the payload is the fragment.data.length bytes from payload_at on.
#[derive(Clone, Copy, Debug, PartialEq, Eq)]
pub struct Chunk {
    pub kind: ChunkKind,
    pub tsn: u32,
    pub fragment: DataToSend,
    pub payload_at: usize,
}

pub fn header_size(kind: ChunkKind) -> usize
    ensures { result ≡ header_size kind }
{
    match kind {
        ChunkKind::Data => DATA_HEADER,
        ChunkKind::IData => I_DATA_HEADER,
    }
}

// "Zeros pad to a multiple of 4."
pub fn padded(length: usize) -> usize
    requires { length ≤ 65535 }
    ensures { result ≡ padded length }
{
    length + (4 - length % 4) % 4
}

// a if the test holds, else b.
pub fn choose(test: bool, a: u32, b: u32) -> u32
    ensures { result ≡ if◌then◌else◌ test a b }
{
    if test {
        return a;
    }
    b
}
