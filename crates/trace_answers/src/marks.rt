// Marks, by which a change of a lent place shows; and copies, by which a change of the words or the store does.
ghost use Rattle.std.specs.Prelude.{true, ◌≡◌, ℕ, ◌≤◌, ◌<◌, length, get_or};
ghost use Rattle.trace_answers.specs.Marks.{event_buffer, event_mark, byte_mark};

use send_queue::{PLACE_WORDS, QUEUE_WORDS};
use trace_text::state::{MOST_PLACES, STORE};

// The words of the event list's array.
pub const EVENT_BUFFER: usize = MOST_PLACES * PLACE_WORDS;

// The longest output that a trace can lend to a call. "Before the call every byte of it is 165."
pub const OUTPUT: usize = 70000;

pub const BEFORE: u8 = 165;

// So many bytes written to one are shown.
pub const SHOWN: usize = 128;

// The words of so many places of the event list.
pub fn event_words(places: u64) -> usize {
    if places > MOST_PLACES as u64 {
        return EVENT_BUFFER;
    }
    places as usize * PLACE_WORDS
}

fn event_mark(i: usize) -> u64
    ensures { result ≡ event_mark i }
{
    (i % EVENT_BUFFER) as u64 + 7000000000000000000
}

fn byte_mark(i: usize) -> u8
    ensures { result ≡ byte_mark i }
{
    (i % 256) as u8
}

// Puts marks on the first n words.
pub fn mark_events(events: &mut [u64; EVENT_BUFFER], n: usize) {
    for i in 0..n.min(EVENT_BUFFER) {
        events[i] = event_mark(i);
    }
}

// Whether each word from a place on has its mark.
pub fn events_marked(events: &[u64; EVENT_BUFFER], from: usize) -> bool
    ensures { result ≡ true → (k : ℕ) → k < event_buffer → from ≤ k → get_or events.now k 0 ≡ event_mark k }
{
    for i in from..EVENT_BUFFER {
        if events[i] != event_mark(i) {
            return false;
        }
    }
    true
}

// The same for the fragment buffer and the image buffer. The check goes through all bytes, so that it can take many at a time.
pub fn mark_bytes(buffer: &mut [u8], n: usize) {
    for i in 0..n.min(buffer.len()) {
        buffer[i] = byte_mark(i);
    }
}

pub fn bytes_marked(buffer: &[u8], from: usize) -> bool
    ensures { result ≡ true → (k : ℕ) → k < length buffer.now → from ≤ k → get_or buffer.now k 0 ≡ byte_mark k }
{
    let mut strays: u8 = 0;
    for i in from..buffer.len() {
        if buffer[i] != byte_mark(i) {
            strays = 1;
        }
    }
    strays == 0
}

// A copy of the words.
pub fn keep_words(queue: &[u64; QUEUE_WORDS], kept: &mut [u64; QUEUE_WORDS])
    ensures { kept.new ≡ queue.now }
{
    kept.copy_from_slice(queue);
}

pub fn words_same(queue: &[u64; QUEUE_WORDS], kept: &[u64; QUEUE_WORDS]) -> bool
    ensures { result ≡ true → queue.now ≡ kept.now }
{
    queue == kept
}

// A copy of the store's first n bytes.
pub fn keep_store(store: &[u8; STORE], kept: &mut [u8; STORE], n: usize) {
    if n > 2100000 {
        return;
    }
    kept[..n].copy_from_slice(&store[..n]);
}

// Whether those are the same.
pub fn store_same(store: &[u8; STORE], kept: &[u8; STORE], n: usize) -> bool
    ensures { result ≡ true → (k : ℕ) → k < n → get_or store.now k 0 ≡ get_or kept.now k 0 }
{
    if n > 2100000 {
        return false;
    }
    store[..n] == kept[..n]
}

// Zeros in their place.
pub fn clear_store(store: &mut [u8; STORE], n: usize) {
    if n > 2100000 {
        return;
    }
    store[..n].fill(0);
}

// Whether all bytes of an output from a place on are as before the call.
pub fn as_before(output: &[u8], from: usize) -> bool {
    for i in from..output.len() {
        if output[i] != BEFORE {
            return false;
        }
    }
    true
}
