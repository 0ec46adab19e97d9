// Writing a chunk into a lent buffer.
ghost use Rattle.std.specs.Prelude.{◌≡◌, ◌+◌, ◌≤◌, length, replicate};
ghost use Rattle.std.specs.Prelude.{if◌then◌else◌};
ghost use Rattle.queue_model.specs.Bytes.{row_bytes};
ghost use Rattle.big_endian.specs.Numbers.{wrote};
ghost use Rattle.queue_model.specs.Chunks.{padded, last_word};
ghost use Rattle.chunks.specs.Answers.{as_written};
ghost use Rattle.chunks.specs.Layout.{fields_of, header_size, header_widths, flags_of, header_row, chunk_bytes};
ghost use Rattle.chunks.specs.Promise.{WriteMeets};

use crate::chunk::{
    ChunkKind, DATA_TYPE, FIRST, I_DATA_TYPE, LAST, UNORDERED, choose, header_size, padded,
};
use big_endian::{put_u8, put_u16, put_u32};
use payload_store::copying::copy;
use queue_sending::{Data, DataToSend};
use types::Refusal;

// The most payload bytes that are written into a chunk, of either kind.
const MAX_WRITTEN: usize = 65515;

fn mark(set: bool, value: u8) -> u8
    ensures is { result ≡ if◌then◌else◌ set value 0 }
    ensures most { result ≤ value }
{
    if set {
        return value;
    }
    0
}

// "flags (4 unordered, 2 first, 1 last)".
fn flags_of(d: Data) -> u8
    ensures { result ≡ flags_of d }
{
    let key = d.stream_key;
    let unordered = key.is_unordered();
    mark(unordered, UNORDERED) + mark(d.is_beginning, FIRST) + mark(d.is_end, LAST)
}

// "the protocol id on a first fragment or the FSN on others".
fn last_word(d: Data) -> u32
    ensures { result ≡ last_word (fields_of 0 d) }
{
    choose(d.is_beginning, d.ppid, d.fsn.0)
}

fn put_data_header(output: &mut [u8], tsn: u32, d: Data, len: u16)
    requires { 16 ≤ length output.old }
    ensures { output.new ≡ wrote output.old 0 (row_bytes (header_widths ChunkKind.Data) (header_row ChunkKind.Data (flags_of d) 0 tsn d len)) }
{
    let flags = flags_of(d);
    let key = d.stream_key;
    let id = key.id();
    let ssn = d.ssn;
    put_u8(output, 0, DATA_TYPE);
    put_u8(output, 1, flags);
    put_u16(output, 2, len);
    put_u32(output, 4, tsn);
    put_u16(output, 8, id.0);
    put_u16(output, 10, ssn.0);
    put_u32(output, 12, d.ppid);
}

fn put_i_data_header(output: &mut [u8], tsn: u32, d: Data, len: u16)
    requires { 20 ≤ length output.old }
    ensures { output.new ≡ wrote output.old 0 (row_bytes (header_widths ChunkKind.IData) (header_row ChunkKind.IData (flags_of d) 0 tsn d len)) }
{
    let flags = flags_of(d);
    let key = d.stream_key;
    let id = key.id();
    let mid = d.mid;
    let word = last_word(d);
    put_u8(output, 0, I_DATA_TYPE);
    put_u8(output, 1, flags);
    put_u16(output, 2, len);
    put_u32(output, 4, tsn);
    put_u16(output, 8, id.0);
    put_u16(output, 10, 0);
    put_u32(output, 12, mid.0);
    put_u32(output, 16, word);
}

// All of a chunk before the payload; len counts the header and the payload.
pub fn put_header(output: &mut [u8], kind: ChunkKind, tsn: u32, d: Data, len: u16)
    requires { header_size kind ≤ length output.old }
    ensures { output.new ≡ wrote output.old 0 (row_bytes (header_widths kind) (header_row kind (flags_of d) 0 tsn d len)) }
{
    match kind {
        ChunkKind::Data => put_data_header(output, tsn, d, len),
        ChunkKind::IData => put_i_data_header(output, tsn, d, len),
    }
}

fn put_bytes(output: &mut [u8], at: usize, src: &[u8])
    requires { at + length src.now ≤ length output.old }
    ensures { output.new ≡ wrote output.old at src.now }
{
    let end = at + src.len();
    copy(src, &mut output[at..end]);
}

// "Zeros pad to a multiple of 4": up to three.
pub fn put_zeros(output: &mut [u8], at: usize, n: usize)
    requires { (n ≤ 3) × (at + n ≤ length output.old) }
    ensures { output.new ≡ wrote output.old at (replicate n 0) }
{
    let zeros = [0u8; 3];
    put_bytes(output, at, &zeros[0..n]);
}

// The whole chunk, at the output's start.
pub fn put_chunk(output: &mut [u8], kind: ChunkKind, tsn: u32, d: Data, payload: &[u8])
    requires { (length payload.now ≤ 65515) × (padded (header_size kind + length payload.now) ≤ length output.old) }
    ensures { output.new ≡ wrote output.old 0 (chunk_bytes kind tsn d payload.now) }
{
    let size = header_size(kind);
    let len = size + payload.len();
    let end = padded(len);
    put_header(output, kind, tsn, d, len as u16);
    put_bytes(output, size, payload);
    put_zeros(output, len, end - len);
}

// "17 when a payload to write is empty or above 65,515 bytes, 18 when the output is shorter than the padded chunk"; "lent output
// past what is written stays unchanged". Refused, nothing is written.
pub fn write_chunk(
    output: &mut [u8],
    kind: ChunkKind,
    tsn: u32,
    fragment: DataToSend,
    payload: &[u8],
) -> Result<usize, Refusal>
    ensures { WriteMeets output.old kind tsn fragment payload.now (as_written result) output.new }
{
    let n = payload.len();
    if n == 0 {
        return Err(Refusal::ChunkPayloadWrong);
    }
    if n > MAX_WRITTEN {
        return Err(Refusal::ChunkPayloadWrong);
    }
    let size = header_size(kind);
    let end = padded(size + n);
    if output.len() < end {
        return Err(Refusal::ChunkOutputShort);
    }
    let d = fragment.data;
    put_chunk(output, kind, tsn, d, payload);
    Ok(end)
}
