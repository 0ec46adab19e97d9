// What must hold after a call: "a refused call changes nothing", and "places past what a call writes stay unchanged".
use crate::state::{BYTES, EVENT_BUFFER, EVENTS, FRAGMENT, HALF, LETTER, STATE, STORE, both, low8};
use queue_streams::{EVENT_PLACES, PLACE_WORDS};
use queue_words::QUEUE_WORDS;

// The marks by which a write to a lent place shows.
const EVENT_MARK: u64 = 7000000000000000007;

const BYTE_MARK: u8 = 170;

pub fn mark_events(events: &mut [u64; EVENT_BUFFER]) {
    *events = [EVENT_MARK; EVENT_BUFFER];
}

pub fn mark_fragment(fragment: &mut [u8; FRAGMENT]) {
    *fragment = [BYTE_MARK; FRAGMENT];
}

// Whether each item from a place on is the mark. It goes through all of them, so that it can take many at a time.
fn all_marked<T: Copy + PartialEq>(items: &[T], from: usize, mark: T) -> bool {
    let mut strays: u8 = 0;
    for i in from..items.len() {
        if items[i] != mark {
            strays = 1;
        }
    }
    strays == 0
}

// The lent bytes of the store, and their copy.
fn store_same(store: &[u8; STORE]) -> bool {
    store[..HALF] == store[HALF..]
}

fn keep_store(store: &mut [u8; STORE]) {
    store.copy_within(..HALF, HALF);
}

// The event list after n events. The marks are put back.
fn settle_events(events: &mut [u64; EVENT_BUFFER], n: u64) -> bool {
    if n > EVENT_PLACES as u64 {
        return false;
    }
    let marked = all_marked(&*events, n as usize * PLACE_WORDS, EVENT_MARK);
    let whole = both(marked, n == 0);
    if whole {
        return true;
    }
    mark_events(events);
    marked
}

fn settle_fragment(fragment: &mut [u8; FRAGMENT], n: u64) -> bool {
    if n > 262144 {
        return false;
    }
    let marked = all_marked(&*fragment, n as usize, BYTE_MARK);
    let whole = both(marked, n == 0);
    if whole {
        return true;
    }
    mark_fragment(fragment);
    marked
}

// The words: kept where the call was accepted, else compared. A change is told once: what is there then is kept.
fn settle_words(queue: &[u64; QUEUE_WORDS], kept: &mut [u64; QUEUE_WORDS], refusal: u64) -> bool {
    if refusal > 0 {
        if *queue == *kept {
            return true;
        }
    }
    *kept = *queue;
    refusal == 0
}

// The store, the same way. Only adding is lent it for writing.
fn settle_store(store: &mut [u8; STORE], letter: u8, refusal: u64) -> bool {
    if letter != b'A' {
        return true;
    }
    if refusal > 0 {
        let same = store_same(&*store);
        if same {
            return true;
        }
    }
    keep_store(store);
    refusal == 0
}

// Whether all is as it must be after the call.
pub fn settle(
    queue: &[u64; QUEUE_WORDS],
    kept: &mut [u64; QUEUE_WORDS],
    store: &mut [u8; STORE],
    events: &mut [u64; EVENT_BUFFER],
    fragment: &mut [u8; FRAGMENT],
    state: &[u64; STATE],
    refusal: u64,
) -> bool {
    let words = settle_words(queue, kept, refusal);
    let bytes = settle_store(store, low8(state[LETTER]), refusal);
    let listed = settle_events(events, state[EVENTS]);
    let copied = settle_fragment(fragment, state[BYTES]);
    both(both(words, bytes), both(listed, copied))
}
