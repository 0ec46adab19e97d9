// Filling a packet: the line `F now limit buffer source destination tag tsn`.
use lent_calls::LentError;
use send_queue::{Filled, Packet, QUEUE_WORDS, fill_packet};
use trace_answers::marks::{BEFORE, EVENT_BUFFER, OUTPUT, SHOWN, as_before, event_words};
use trace_answers::settle::{settle_events, settle_words};
use trace_text::hex::put_part;
use trace_text::output::{Answers, put_answer, put_broken, put_byte, put_number, put_text};
use trace_text::payload::sum_of;
use trace_text::state::{LENT_EVENTS, LENT_STORE, STATE, STORE, low16, low32};

fn packet_of(state: &[u64; STATE]) -> Packet {
    Packet {
        limit: state[1] as usize,
        source_port: low16(state[3]),
        destination_port: low16(state[4]),
        verification_tag: low32(state[5]),
        tsn: low32(state[6]),
    }
}

fn fill_part(
    queue: &mut [u64; QUEUE_WORDS],
    store: &[u8],
    events: &mut [u64],
    packet: &mut [u8],
    state: &[u64; STATE],
) -> Result<Filled, LentError> {
    let room = state[2] as usize;
    if room > packet.len() {
        return Err(LentError::TooShort);
    }
    let p = packet_of(state);
    Ok(fill_packet(queue, store, events, &mut packet[0..room], state[0], p)?)
}

fn fill_events(
    queue: &mut [u64; QUEUE_WORDS],
    store: &[u8],
    events: &mut [u64],
    packet: &mut [u8],
    state: &[u64; STATE],
) -> Result<Filled, LentError> {
    let words = event_words(state[LENT_EVENTS]);
    if words > events.len() {
        return Err(LentError::TooShort);
    }
    fill_part(queue, store, &mut events[0..words], packet, state)
}

// The store, the event list and the output, each with the length lent.
fn lent_fill(
    queue: &mut [u64; QUEUE_WORDS],
    store: &[u8],
    events: &mut [u64],
    packet: &mut [u8],
    state: &[u64; STATE],
) -> Result<Filled, LentError> {
    let n = state[LENT_STORE] as usize;
    if n > store.len() {
        return Err(LentError::TooShort);
    }
    fill_events(queue, &store[0..n], events, packet, state)
}

fn put_packet(packet: &[u8], bytes: usize, chunks: usize, output: &mut Answers, room: usize) {
    let total = sum_of(packet, room);
    put_text(output, b"F 0");
    put_number(output, bytes as u64);
    put_number(output, chunks as u64);
    put_number(output, total);
    if bytes > 0 {
        if bytes <= SHOWN {
            put_part(packet, 0, bytes, output);
        }
    }
    put_byte(output, b'\n');
}

// What a filling wrote.
#[derive(Clone, Copy)]
struct Wrote {
    refusal: u64,
    events: usize,
    bytes: usize,
}

fn put_filled(
    packet: &[u8],
    a: Result<Filled, LentError>,
    output: &mut Answers,
    room: usize,
) -> Wrote {
    match a {
        Ok(f) => {
            put_packet(packet, f.bytes, f.chunks, output, room);
            Wrote {
                refusal: 0,
                events: f.events,
                bytes: f.bytes,
            }
        }
        Err(e) => {
            let refusal = e.number();
            put_answer(output, b'F', refusal);
            Wrote {
                refusal: refusal,
                events: 0,
                bytes: 0,
            }
        }
    }
}

fn fill_into(
    packet: &mut [u8],
    queue: &mut [u64; QUEUE_WORDS],
    kept: &mut [u64; QUEUE_WORDS],
    store: &[u8; STORE],
    events: &mut [u64; EVENT_BUFFER],
    output: &mut Answers,
    state: &[u64; STATE],
) {
    let a = lent_fill(queue, store, events, packet, state);
    let w = put_filled(&*packet, a, output, state[2] as usize);
    settle_events(events, w.events, output);
    let stays = as_before(&*packet, w.bytes);
    if stays == false {
        put_broken(output, b"packet");
    }
    settle_words(&*queue, kept, w.refusal, output);
}

pub fn answer_fill(
    queue: &mut [u64; QUEUE_WORDS],
    kept: &mut [u64; QUEUE_WORDS],
    store: &[u8; STORE],
    events: &mut [u64; EVENT_BUFFER],
    output: &mut Answers,
    state: &[u64; STATE],
) {
    let mut packet = [BEFORE; OUTPUT];
    fill_into(&mut packet, queue, kept, store, events, output, state);
}
