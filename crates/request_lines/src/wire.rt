// Chunks on the wire: the lines `W kind buffer tsn stream unordered ssn mid fsn ppid first last length seed` and `R bytes`.
use lent_calls::LentError;
use send_queue::{
    Chunk, ChunkKind, Data, DataToSend, Fsn, Mid, OutgoingMessageId, Ssn, StreamId, StreamKey,
    read_chunk, write_chunk,
};
use trace_answers::fragments::put_fields;
use trace_answers::marks::{BEFORE, OUTPUT, SHOWN, as_before};
use trace_text::hex::put_part;
use trace_text::output::{Answers, put_answer, put_broken, put_byte, put_number, put_text};
use trace_text::payload::{fill, sum, sum_of};
use trace_text::state::{PAYLOAD, STATE, low16, low32};

fn kind_of(number: u64) -> ChunkKind {
    if number == 0 {
        return ChunkKind::Data;
    }
    ChunkKind::IData
}

fn kind_number(kind: ChunkKind) -> u64 {
    match kind {
        ChunkKind::Data => 0,
        ChunkKind::IData => 1,
    }
}

// The fragment of the line `W`. The writer looks at nothing else of it.
fn fragment_of(state: &[u64; STATE]) -> DataToSend {
    let stream_key = StreamKey::new(state[4] == 1, StreamId(low16(state[3])));
    let data = Data {
        stream_key: stream_key,
        ssn: Ssn(low16(state[5])),
        mid: Mid(low32(state[6])),
        fsn: Fsn(low32(state[7])),
        ppid: low32(state[8]),
        is_beginning: state[9] == 1,
        is_end: state[10] == 1,
        length: state[11],
    };
    DataToSend {
        message_id: OutgoingMessageId(0),
        data: data,
        max_retransmissions: 0,
        expires_at: None,
        lifecycle_id: 0,
    }
}

fn lent_write(
    chunk: &mut [u8],
    payload: &mut [u8],
    state: &[u64; STATE],
) -> Result<usize, LentError> {
    let room = state[1] as usize;
    if room > chunk.len() {
        return Err(LentError::TooShort);
    }
    let n = state[11] as usize;
    if n > payload.len() {
        return Err(LentError::TooShort);
    }
    fill(&mut payload[0..n], state[12]);
    let kind = kind_of(state[0]);
    let fragment = fragment_of(state);
    let written = write_chunk(
        &mut chunk[0..room],
        kind,
        low32(state[2]),
        fragment,
        &payload[0..n],
    )?;
    Ok(written)
}

fn put_chunk(chunk: &[u8], n: usize, output: &mut Answers, room: usize) {
    let total = sum_of(chunk, room);
    put_text(output, b"W 0");
    put_number(output, n as u64);
    put_number(output, total);
    if n <= SHOWN {
        put_part(chunk, 0, n, output);
    }
    put_byte(output, b'\n');
}

// The answer's line, and how many bytes are written.
fn put_written(
    chunk: &[u8],
    w: Result<usize, LentError>,
    output: &mut Answers,
    room: usize,
) -> usize {
    match w {
        Ok(n) => {
            put_chunk(chunk, n, output, room);
            n
        }
        Err(e) => {
            put_answer(output, b'W', e.number());
            0
        }
    }
}

fn write_into(chunk: &mut [u8], payload: &mut [u8], output: &mut Answers, state: &[u64; STATE]) {
    let w = lent_write(chunk, payload, state);
    let n = put_written(&*chunk, w, output, state[1] as usize);
    let stays = as_before(&*chunk, n);
    if stays == false {
        put_broken(output, b"output");
    }
}

pub fn answer_write(payload: &mut [u8; PAYLOAD], output: &mut Answers, state: &[u64; STATE]) {
    let mut chunk = [BEFORE; OUTPUT];
    write_into(&mut chunk, payload, output, state);
}

// The sum of the payload of a chunk read; of nothing, if it lies outside the bytes, which the proof of `read_chunk` rules out.
fn sum_at(bytes: &[u8], at: usize, n: u64) -> u64 {
    if at > bytes.len() {
        return 0;
    }
    if n > (bytes.len() - at) as u64 {
        return 0;
    }
    let end = at + n as usize;
    sum(&bytes[at..end])
}

fn put_read(bytes: &[u8], c: Chunk, output: &mut Answers) {
    let kind = c.kind;
    let fragment = c.fragment;
    let data = fragment.data;
    let total = sum_at(bytes, c.payload_at, data.length);
    put_text(output, b"R 0");
    put_number(output, kind_number(kind));
    put_number(output, c.tsn as u64);
    put_fields(output, fragment, total);
}

fn read_from(bytes: &[u8], output: &mut Answers) {
    match read_chunk(bytes) {
        Ok(c) => put_read(bytes, c, output),
        Err(refusal) => put_answer(output, b'R', u8::from(refusal) as u64),
    }
}

fn read_first(payload: &[u8], output: &mut Answers, state: &[u64; STATE]) {
    let n = state[0] as usize;
    if n <= payload.len() {
        read_from(&payload[0..n], output);
    }
}

pub fn answer_read(payload: &[u8; PAYLOAD], output: &mut Answers, state: &[u64; STATE]) {
    read_first(payload, output, state);
}
