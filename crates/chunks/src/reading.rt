// Reading a chunk from lent bytes.
ghost use Rattle.std.specs.Prelude.{◌≡◌, ◌≤◌, ◌<◌, length};
ghost use Rattle.chunks.specs.Answers.{as_read};
ghost use Rattle.chunks.specs.Reading.{is_set, fragment_of, chunk_at};
ghost use Rattle.chunks.specs.Promise.{ReadMeets};

use crate::chunk::{
    Chunk, ChunkKind, DATA_HEADER, DATA_TYPE, FIRST, I_DATA_HEADER, I_DATA_TYPE, LAST, UNORDERED,
    choose, padded,
};
use big_endian::{read_u8, read_u16, read_u32};
use queue_sending::{Data, DataToSend};
use types::{Fsn, Mid, OutgoingMessageId, Refusal, Ssn, StreamId, StreamKey};

fn is_set(flags: u8, mark: u8) -> bool
    requires { 0 < mark }
    ensures { result ≡ is_set flags mark }
{
    flags / mark % 2 == 1
}

// What any chunk leaves out is 0: "It reports 0 for a field its chunk does not carry (an expiry as time 0)".
fn fragment_of(flags: u8, id: u16, ssn: u16, mid: u32, fsn: u32, ppid: u32, n: u64) -> DataToSend
    ensures { result ≡ fragment_of flags id ssn mid fsn ppid n }
{
    let unordered = is_set(flags, UNORDERED);
    let stream_key = StreamKey::new(unordered, StreamId(id));
    let data = Data {
        stream_key: stream_key,
        ssn: Ssn(ssn),
        mid: Mid(mid),
        fsn: Fsn(fsn),
        ppid: ppid,
        is_beginning: is_set(flags, FIRST),
        is_end: is_set(flags, LAST),
        length: n,
    };
    DataToSend {
        message_id: OutgoingMessageId(0),
        data: data,
        max_retransmissions: 0,
        expires_at: Some(0),
        lifecycle_id: 0,
    }
}

fn read_data(bytes: &[u8], len: u16) -> Chunk
    requires { (16 ≤ length bytes.now) × (16 ≤ len) }
    ensures { result ≡ chunk_at ChunkKind.Data bytes.now len }
{
    let flags = read_u8(bytes, 1);
    let tsn = read_u32(bytes, 4);
    let id = read_u16(bytes, 8);
    let ssn = read_u16(bytes, 10);
    let ppid = read_u32(bytes, 12);
    let fragment = fragment_of(flags, id, ssn, 0, 0, ppid, (len - 16) as u64);
    Chunk {
        kind: ChunkKind::Data,
        tsn: tsn,
        fragment: fragment,
        payload_at: DATA_HEADER,
    }
}

fn read_i_data(bytes: &[u8], len: u16) -> Chunk
    requires { (20 ≤ length bytes.now) × (20 ≤ len) }
    ensures { result ≡ chunk_at ChunkKind.IData bytes.now len }
{
    let flags = read_u8(bytes, 1);
    let tsn = read_u32(bytes, 4);
    let id = read_u16(bytes, 8);
    let mid = read_u32(bytes, 12);
    let word = read_u32(bytes, 16);
    let first = is_set(flags, FIRST);
    let fsn = choose(first, 0, word);
    let ppid = choose(first, word, 0);
    let fragment = fragment_of(flags, id, 0, mid, fsn, ppid, (len - 20) as u64);
    Chunk {
        kind: ChunkKind::IData,
        tsn: tsn,
        fragment: fragment,
        payload_at: I_DATA_HEADER,
    }
}

// "19 when bytes read are not one such chunk with payload".
pub fn read_chunk(bytes: &[u8]) -> Result<Chunk, Refusal>
    ensures { ReadMeets bytes.now (as_read result) }
{
    let n = bytes.len();
    if n < DATA_HEADER {
        return Err(Refusal::ChunkWrong);
    }
    let kind = read_u8(bytes, 0);
    let len = read_u16(bytes, 2);
    if padded(len as usize) != n {
        return Err(Refusal::ChunkWrong);
    }
    if kind == DATA_TYPE {
        if len <= 16 {
            return Err(Refusal::ChunkWrong);
        }
        return Ok(read_data(bytes, len));
    }
    if kind == I_DATA_TYPE {
        if len <= 20 {
            return Err(Refusal::ChunkWrong);
        }
        return Ok(read_i_data(bytes, len));
    }
    Err(Refusal::ChunkWrong)
}
