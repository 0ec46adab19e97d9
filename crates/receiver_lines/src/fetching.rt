// A message is fetched from the receiving head.
use crate::lent::{last, put_all};
use crate::state::{LENT_HEAD, settle_room};
use crate::words::settle_head;
use receiver_calls::{Delivery, fetch};
use receiver_words::RECEIVER_WORDS;
use trace_answers::marks::{BEFORE, SHOWN, as_before, keep_store};
use trace_text::hex::put_part;
use trace_text::output::{Answers, put_answer, put_broken, put_byte, put_number, put_text};
use trace_text::payload::sum;
use trace_text::state::{STATE, STORE, bit};
use types::Refusal;

fn fetch_at(
    head: &mut [u64; RECEIVER_WORDS],
    store: &[u8],
    buffer: &mut [u8],
    n: u64,
) -> Result<Option<Delivery>, Refusal> {
    let from = last(store.len(), n);
    fetch(head, &store[from..], buffer)
}

// stream unordered ppid length, the sum over the whole buffer, and the message if it is short.
fn put_message(buffer: &[u8], d: Delivery, output: &mut Answers) {
    let stream = d.stream;
    put_text(output, b"G 0 1");
    put_number(output, stream.0 as u64);
    put_number(output, bit(d.unordered));
    put_number(output, d.ppid as u64);
    put_number(output, d.length);
    put_number(output, sum(buffer));
    if d.length <= SHOWN as u64 {
        put_part(buffer, 0, d.length as usize, output);
    }
    put_byte(output, b'\n');
}

// What a fetch wrote, and 0 where it may change something.
#[derive(Clone, Copy)]
struct Wrote {
    bytes: u64,
    quiet: u64,
}

fn put_fetched(buffer: &[u8], f: Result<Option<Delivery>, Refusal>, output: &mut Answers) -> Wrote {
    match f {
        Err(r) => {
            put_answer(output, b'G', u8::from(r) as u64);
            Wrote { bytes: 0, quiet: 1 }
        }
        Ok(None) => {
            put_text(output, b"G 0 0\n");
            Wrote { bytes: 0, quiet: 1 }
        }
        Ok(Some(d)) => {
            put_message(buffer, d, output);
            Wrote {
                bytes: d.length,
                quiet: 0,
            }
        }
    }
}

// Fetches into a lent buffer. Answers 0 where the call may change something.
fn fetch_into(
    head: &mut [u64; RECEIVER_WORDS],
    store: &[u8],
    buffer: &mut [u8],
    n: u64,
    output: &mut Answers,
) -> u64 {
    put_all(buffer, BEFORE);
    let f = fetch_at(head, store, buffer, n);
    let w = put_fetched(&*buffer, f, output);
    let stays = as_before(&*buffer, w.bytes as usize);
    if stays == false {
        put_broken(output, b"output");
    }
    w.quiet
}

fn lent_fetch(
    head: &mut [u64; RECEIVER_WORDS],
    store: &[u8],
    buffer: &mut [u8],
    room: usize,
    n: u64,
    output: &mut Answers,
) -> u64 {
    if room > buffer.len() {
        return 1;
    }
    fetch_into(head, store, &mut buffer[0..room], n, output)
}

// Fetching only reads the store. So the buffer lies where the store's copy was, which is then made again.
pub(crate) fn answer_fetch(
    head: &mut [u64; RECEIVER_WORDS],
    store: &[u8; STORE],
    buffer: &mut [u8; STORE],
    output: &mut Answers,
    state: &mut [u64; STATE],
) {
    let room = state[0] as usize;
    let quiet = lent_fetch(head, store, buffer, room, state[LENT_HEAD], output);
    settle_room(output, &*state);
    settle_head(&*head, quiet, output, state);
    keep_store(store, buffer, room);
}
