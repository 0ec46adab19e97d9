// Chunks on the wire.
ghost use Rattle.std.specs.Prelude.{◌≡◌, length};
ghost use Rattle.chunks.specs.Answers.{as_read, as_written};
ghost use Rattle.chunks.specs.Writing.{write_chunk};
ghost use Rattle.chunks.specs.Reading.{read_chunk};
ghost use Rattle.send_queue_c.specs.Numbers.{is_yes};
ghost use Rattle.send_queue_c.specs.Chunks.{kind_of, kind_number, fragment_of, written_number, written_out, read_number, read_out, places_of, read_places};
ghost use Rattle.send_queue_c.specs.Given.{GivesWritten, GivesRead};

use host_numbers::{is_yes, show};
use out_array::{OUT_WORDS, VALUE};
use send_queue::{
    Chunk, ChunkKind, Data, DataToSend, Fsn, Mid, OutgoingMessageId, Refusal, Ssn, StreamId,
    StreamKey, read_chunk, write_chunk,
};

// The places of a chunk-array, and how many.
pub const CHUNK_WORDS: usize = 3;

pub const KIND: usize = 0;

pub const TSN: usize = 1;
// Where the payload begins.
pub const PAYLOAD_AT: usize = 2;

fn kind_of(i_data: bool) -> ChunkKind
    ensures { result ≡ kind_of i_data }
{
    if i_data {
        return ChunkKind::IData;
    }
    ChunkKind::Data
}

fn kind_number(kind: ChunkKind) -> u64
    ensures { result ≡ kind_number kind }
{
    match kind {
        ChunkKind::Data => 0,
        ChunkKind::IData => 1,
    }
}

// A fragment by its numbers. What no chunk carries is 0.
fn fragment_of(
    stream_id: u16,
    unordered: u8,
    ssn: u16,
    mid: u32,
    fsn: u32,
    ppid: u32,
    first: u8,
    last: u8,
    n: u64,
) -> DataToSend
    ensures { result ≡ fragment_of stream_id unordered ssn mid fsn ppid first last n }
{
    let is_unordered = is_yes(unordered);
    let stream_key = StreamKey::new(is_unordered, StreamId(stream_id));
    let data = Data {
        stream_key: stream_key,
        ssn: Ssn(ssn),
        mid: Mid(mid),
        fsn: Fsn(fsn),
        ppid: ppid,
        is_beginning: is_yes(first),
        is_end: is_yes(last),
        length: n,
    };
    DataToSend {
        message_id: OutgoingMessageId(0),
        data: data,
        max_retransmissions: 0,
        expires_at: Some(0),
        lifecycle_id: 0,
    }
}

fn tell_written(out: &mut [u64; OUT_WORDS], a: Result<usize, Refusal>) -> u32
    ensures { (result ≡ written_number (as_written a)) × (out.new ≡ written_out out.old (as_written a)) }
{
    match a {
        Ok(n) => {
            out[VALUE] = n as u64;
            0
        }
        Err(refusal) => u8::from(refusal) as u32,
    }
}

#[unsafe(no_mangle)]
pub extern "C" fn dsq_write_chunk(
    output: &mut [u8],
    payload: &[u8],
    out: &mut [u64; OUT_WORDS],
    kind: u8,
    tsn: u32,
    stream_id: u16,
    unordered: u8,
    ssn: u16,
    mid: u32,
    fsn: u32,
    ppid: u32,
    first: u8,
    last: u8,
) -> u32
    ensures { GivesWritten (write_chunk output.old (kind_of (is_yes kind)) tsn (fragment_of stream_id unordered ssn mid fsn ppid first last (length payload.now)) payload.now) out.old result output.new out.new }
{
    let i_data = is_yes(kind);
    let chunk_kind = kind_of(i_data);
    let n = payload.len() as u64;
    let fragment = fragment_of(stream_id, unordered, ssn, mid, fsn, ppid, first, last, n);
    let a = write_chunk(output, chunk_kind, tsn, fragment, payload);
    tell_written(out, a)
}

// Kind, TSN and the payload's place.
fn tell_places(chunk: &mut [u64; CHUNK_WORDS], kind: ChunkKind, tsn: u32, at: usize)
    ensures { chunk.new ≡ places_of chunk.old kind tsn at }
{
    let number = kind_number(kind);
    chunk[KIND] = number;
    chunk[TSN] = tsn as u64;
    chunk[PAYLOAD_AT] = at as u64;
}

fn tell_read(
    out: &mut [u64; OUT_WORDS],
    chunk: &mut [u64; CHUNK_WORDS],
    a: Result<Chunk, Refusal>,
) -> u32
    ensures { (result ≡ read_number (as_read a)) × (out.new ≡ read_out out.old (as_read a)) × (chunk.new ≡ read_places chunk.old (as_read a)) }
{
    match a {
        Ok(c) => {
            let kind = c.kind;
            let fragment = c.fragment;
            show(out, 0, fragment);
            tell_places(chunk, kind, c.tsn, c.payload_at);
            0
        }
        Err(refusal) => u8::from(refusal) as u32,
    }
}

#[unsafe(no_mangle)]
pub extern "C" fn dsq_read_chunk(
    bytes: &[u8],
    out: &mut [u64; OUT_WORDS],
    chunk: &mut [u64; CHUNK_WORDS],
) -> u32
    ensures { GivesRead (read_chunk bytes.now) out.old chunk.old result out.new chunk.new }
{
    let a = read_chunk(bytes);
    tell_read(out, chunk, a)
}
