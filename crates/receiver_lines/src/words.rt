// The receiving head's words have no copy, for which there would be no room: the sum of them is kept. Any change of one word changes
// it, since every step of the mix can be undone; changes of several words escape once in 2^64.
use crate::state::HEAD_SUM;
use receiver_words::RECEIVER_WORDS;
use trace_text::output::{Answers, put_broken};
use trace_text::state::STATE;

// A seed, other than 0.
const FIRST: u64 = 88172645463325252;

// Marsaglia's generator of 64 bits (xorshift64), with a word mixed in.
fn mix(s: u64, word: u64) -> u64 {
    let x = s ^ word;
    let a = x ^ (x << 13);
    let b = a ^ (a >> 7);
    b ^ (b << 17)
}

fn sum_words(head: &[u64; RECEIVER_WORDS]) -> u64 {
    let mut s = FIRST;
    for word in head {
        s = mix(s, *word);
    }
    s
}

// Before the first call.
pub fn keep_sum(head: &[u64; RECEIVER_WORDS], state: &mut [u64; STATE]) {
    state[HEAD_SUM] = sum_words(head);
}

// The words: their sum is kept, and compared where the call was to change nothing.
pub(crate) fn settle_head(
    head: &[u64; RECEIVER_WORDS],
    quiet: u64,
    output: &mut Answers,
    state: &mut [u64; STATE],
) {
    let sum = sum_words(head);
    let before = state[HEAD_SUM];
    state[HEAD_SUM] = sum;
    if quiet == 0 {
        return;
    }
    if sum != before {
        put_broken(
            output,
            b"words of the head changed where nothing is to change",
        );
    }
}
