// A chunk is given to the receiving head.
use crate::lent::last;
use crate::state::{LENT_HEAD, settle_room};
use crate::words::settle_head;
use lent_calls::LentError;
use receiver_calls::{Received, receive};
use receiver_words::RECEIVER_WORDS;
use trace_answers::settle::settle_store;
use trace_text::output::{Answers, put_answer, put_text};
use trace_text::state::{PAYLOAD, STATE, STORE};
use types::Refusal;

fn receive_at(
    head: &mut [u64; RECEIVER_WORDS],
    store: &mut [u8],
    bytes: &[u8],
    n: u64,
) -> Result<Received, Refusal> {
    let from = last(store.len(), n);
    receive(head, &mut store[from..], bytes)
}

fn lent_receive(
    head: &mut [u64; RECEIVER_WORDS],
    store: &mut [u8],
    payload: &[u8],
    length: usize,
    n: u64,
) -> Result<Received, LentError> {
    if length > payload.len() {
        return Err(LentError::TooShort);
    }
    let r = receive_at(head, store, &payload[0..length], n)?;
    Ok(r)
}

// The answer's line, and 0 where the call may change something.
fn put_received(r: Result<Received, LentError>, output: &mut Answers) -> u64 {
    match r {
        Err(e) => {
            put_answer(output, b'D', e.number());
            1
        }
        Ok(Received::Repeated) => {
            put_text(output, b"D 0 0\n");
            1
        }
        Ok(Received::Accepted) => {
            put_text(output, b"D 0 1\n");
            0
        }
    }
}

// The whole array of both stores is settled: a chunk changes nothing of the queue's.
pub(crate) fn answer_receive(
    head: &mut [u64; RECEIVER_WORDS],
    store: &mut [u8; STORE],
    kept_store: &mut [u8; STORE],
    payload: &[u8; PAYLOAD],
    output: &mut Answers,
    state: &mut [u64; STATE],
) {
    let r = lent_receive(head, store, payload, state[0] as usize, state[LENT_HEAD]);
    let quiet = put_received(r, output);
    settle_room(output, &*state);
    settle_head(&*head, quiet, output, state);
    settle_store(&*store, kept_store, 2100000, quiet, output);
}
