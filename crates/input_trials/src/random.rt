// Random numbers, words and arguments.
ghost use Rattle.std.specs.Prelude.{◌<◌};

use crate::state::{
    BELOW, CREATED, EVENT_LIST, FILL_CALLS, FILLING, FRAGMENT_BYTES, INTERLEAVE, LETTER, LIFETIME,
    LIMIT, MESSAGE_ID, NO_LIFETIME, PAYLOAD_BYTES, PRIORITY, REPLACED, SEED, SIZE, STATE,
    STORE_BYTES, STREAM, STRICT, THRESHOLD, TIME, TURN, wide,
};
use queue_streams::EVENT_WORDS;
use queue_words::QUEUE_WORDS;

const OVER_TIME: u64 = 4611686018427387904;

// Marsaglia's generator of 64 bits (xorshift64).
fn next(x: u64) -> u64 {
    let a = x ^ (x << 13);
    let b = a ^ (a >> 7);
    b ^ (b << 17)
}

// A number below n; of 64 bits where n is 0.
fn draw(state: &mut [u64; STATE], n: u64) -> u64 {
    let x = next(state[SEED]);
    state[SEED] = x;
    if n == 0 {
        return x;
    }
    x % n
}

// Seldom the odd number, else the usual one.
fn seldom(state: &mut [u64; STATE], usual: u64, odd: u64) -> u64 {
    let k = draw(state, 16);
    if k == 0 {
        return odd;
    }
    usual
}

fn less(n: u64) -> u64 {
    if n == 0 {
        return 0;
    }
    n - 1
}

// The lengths lent: seldom too short.
fn draw_lengths(state: &mut [u64; STATE]) {
    let created = state[CREATED];
    state[STORE_BYTES] = seldom(state, created, less(created));
    state[EVENT_LIST] = seldom(state, EVENT_WORDS as u64, EVENT_WORDS as u64 - 1);
    let n = draw(state, 2000);
    state[SIZE] = seldom(state, n, 262145);
    state[FRAGMENT_BYTES] = seldom(state, 262144, less(n));
}

// The stream of half of the messages that a discard is asked for is that of its id.
fn draw_message(state: &mut [u64; STATE]) {
    let s = draw(state, 260);
    let i = draw(state, 2000);
    state[STREAM] = s;
    state[MESSAGE_ID] = i;
    if i > 999 {
        state[MESSAGE_ID] = s;
    }
}

fn draw_times(state: &mut [u64; STATE]) {
    let t = draw(state, 2) % 2 * 1000000;
    state[TIME] = seldom(state, t, OVER_TIME);
    let l = seldom(state, 0, OVER_TIME);
    state[LIFETIME] = seldom(state, NO_LIFETIME, l);
}

// The arguments of any call.
fn draw_arguments(state: &mut [u64; STATE]) {
    draw_lengths(state);
    draw_message(state);
    draw_times(state);
    let n = draw(state, 40);
    state[PAYLOAD_BYTES] = seldom(state, n, 262145);
    state[PRIORITY] = draw(state, 65536);
    state[THRESHOLD] = draw(state, 200);
    state[INTERLEAVE] = draw(state, 2);
    state[LIMIT] = draw(state, 70000);
    state[STRICT] = draw(state, 2);
}

// A random word.
fn word(state: &mut [u64; STATE]) -> u64 {
    let n = state[BELOW];
    draw(state, n)
}

// The place of a word to replace: every third time one of the 20 that the header uses.
fn place(state: &mut [u64; STATE]) -> usize
    ensures { result < 20768 }
{
    let k = draw(state, 3);
    let x = draw(state, 0);
    if k == 0 {
        return (x % 20) as usize;
    }
    (x % 20768) as usize
}

// All words random. Three times of four the store's length is right, without which most calls are refused at once.
fn fill_all(queue: &mut [u64; QUEUE_WORDS], state: &mut [u64; STATE]) {
    for w in queue.iter_mut() {
        *w = word(state);
    }
    let k = draw(state, 4);
    if k > 0 {
        queue[3] = state[CREATED];
    }
}

// Replaces up to 16 words.
fn replace(queue: &mut [u64; QUEUE_WORDS], state: &mut [u64; STATE]) {
    let n = state[REPLACED];
    for _ in 0..n.min(16) {
        let at = place(state);
        queue[at] = word(state);
    }
}

// Random words, or a good queue's with some replaced.
fn fill(queue: &mut [u64; QUEUE_WORDS], good: &[u64; QUEUE_WORDS], state: &mut [u64; STATE]) {
    if state[REPLACED] == 0 {
        fill_all(queue, state);
        return;
    }
    *queue = *good;
    replace(queue, state);
}

// The letter of the next call of a fill; 0 after the last.
fn letter_at(letters: &[u8], i: u64) -> u64 {
    if i < letters.len() as u64 {
        return wide(letters[i as usize]);
    }
    0
}

// Before a call, while words are filled: its letter, its arguments, and new words after the last call of a fill.
pub fn prepare(
    queue: &mut [u64; QUEUE_WORDS],
    kept: &mut [u64; QUEUE_WORDS],
    good: &[u64; QUEUE_WORDS],
    state: &mut [u64; STATE],
) {
    if state[FILLING] == 0 {
        return;
    }
    let turn = state[TURN] % FILL_CALLS;
    if turn == 0 {
        fill(queue, good, state);
        *kept = *queue;
    }
    draw_arguments(state);
    state[LETTER] = letter_at(b"123456789PADCTYIGKBRN", turn);
    state[TURN] = turn + 1;
}
