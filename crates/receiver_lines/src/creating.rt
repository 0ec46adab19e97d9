// A receiving head is created; the length of the store that is lent from now on.
use crate::lent::{clear_last, last};
use crate::state::{HEAD_STORE, HEADS, LENT_HEAD, settle_room};
use crate::words::settle_head;
use receiver_calls::create;
use receiver_words::RECEIVER_WORDS;
use trace_text::output::{Answers, put_answer, put_text};
use trace_text::state::{STATE, STORE, bit, low32, wide};
use types::Refusal;

fn lent_create(
    head: &mut [u64; RECEIVER_WORDS],
    store: &[u8],
    i_data: bool,
    tsn: u32,
    n: u64,
) -> Result<(), Refusal> {
    let from = last(store.len(), n);
    create(head, &store[from..], i_data, tsn)
}

// The refusal's number, 0 for none.
fn head_line(head: &mut [u64; RECEIVER_WORDS], store: &[u8; STORE], state: &[u64; STATE]) -> u64 {
    match lent_create(head, store, state[0] == 1, low32(state[1]), state[2]) {
        Ok(()) => 0,
        Err(r) => wide(u8::from(r)),
    }
}

// "with its starting TSN and a store of zero bytes"
fn put_zeros(store: &mut [u8; STORE], kept_store: &mut [u8; STORE], n: u64) {
    clear_last(store, n);
    clear_last(kept_store, n);
}

// "if refused there is no current one"
fn keep_head(state: &mut [u64; STATE], refusal: u64) {
    state[HEADS] = bit(refusal == 0);
    state[HEAD_STORE] = state[2];
    state[LENT_HEAD] = state[2];
}

pub(crate) fn answer_head(
    head: &mut [u64; RECEIVER_WORDS],
    store: &mut [u8; STORE],
    kept_store: &mut [u8; STORE],
    output: &mut Answers,
    state: &mut [u64; STATE],
) {
    let refusal = head_line(head, &*store, &*state);
    keep_head(state, refusal);
    if refusal == 0 {
        put_zeros(store, kept_store, state[2]);
    }
    put_answer(output, b'H', refusal);
    settle_room(output, &*state);
    settle_head(&*head, refusal, output, state);
}

pub(crate) fn answer_lent_head(output: &mut Answers, state: &mut [u64; STATE]) {
    state[LENT_HEAD] = state[0];
    put_text(output, b"V\n");
}
