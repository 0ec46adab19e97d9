// What is settled after each call: "places past what a call writes stay unchanged", and "a refused call changes nothing".
use crate::marks::{
    EVENT_BUFFER, bytes_marked, events_marked, keep_store, keep_words, mark_events, store_same,
    words_same,
};
use lent_calls::LentError;
use send_queue::{PLACE_WORDS, QUEUE_WORDS};
use trace_text::output::{Answers, put_broken, put_byte, put_number};
use trace_text::state::{IMAGE, MOST_PLACES, PAYLOAD, STORE};

// The number of a refusal, 0 for accepted.
pub fn refusal_of<T: Copy>(c: Result<T, LentError>) -> u64 {
    match c {
        Ok(_) => 0,
        Err(e) => e.number(),
    }
}

// How many events a call reports; none where it is refused.
pub fn events_of(c: Result<usize, LentError>) -> usize {
    c.unwrap_or(0)
}

// The words: kept where the call was accepted, else compared.
pub fn settle_words(
    queue: &[u64; QUEUE_WORDS],
    kept: &mut [u64; QUEUE_WORDS],
    refusal: u64,
    output: &mut Answers,
) {
    if refusal == 0 {
        keep_words(queue, kept);
        return;
    }
    let same = words_same(queue, &*kept);
    if same {
        return;
    }
    put_broken(output, b"words changed at a refusal");
    keep_words(queue, kept);
}

// The first n bytes of the store, which were lent, the same way. A call has no other.
pub fn settle_store(
    store: &[u8; STORE],
    kept: &mut [u8; STORE],
    n: usize,
    refusal: u64,
    output: &mut Answers,
) {
    if refusal == 0 {
        keep_store(store, kept, n);
        return;
    }
    let same = store_same(store, &*kept, n);
    if same {
        return;
    }
    put_broken(output, b"store changed at a refusal");
    keep_store(store, kept, n);
}

// A call that is lent no event list reports no event.
pub fn settle_no_events(n: usize, output: &mut Answers) {
    if n == 0 {
        return;
    }
    put_broken(output, b"events without a list");
}

// A line for each event: kind, number and amount.
fn put_events(events: &[u64; EVENT_BUFFER], n: usize, output: &mut Answers) {
    if n > MOST_PLACES {
        return;
    }
    for i in 0..n {
        put_byte(output, b'!');
        put_number(output, events[i * PLACE_WORDS]);
        put_number(output, events[i * PLACE_WORDS + 1]);
        put_number(output, events[i * PLACE_WORDS + 2]);
        put_byte(output, b'\n');
    }
}

// The event list: n events, and then nothing but marks. The marks are put back.
pub fn settle_events(events: &mut [u64; EVENT_BUFFER], n: usize, output: &mut Answers) {
    if n > MOST_PLACES {
        put_broken(output, b"more events than places");
        mark_events(events, EVENT_BUFFER);
        return;
    }
    put_events(&*events, n, output);
    let marked = events_marked(&*events, n * PLACE_WORDS);
    if marked {
        mark_events(events, n * PLACE_WORDS);
        return;
    }
    put_broken(output, b"event list changed past its events");
    mark_events(events, EVENT_BUFFER);
}

// The fragment buffer: n bytes, and then nothing but marks.
pub fn settle_fragment(fragment: &[u8; PAYLOAD], n: u64, output: &mut Answers) {
    if n > 300000 {
        put_broken(output, b"fragment longer than its buffer");
        return;
    }
    let marked = bytes_marked(fragment, n as usize);
    if marked {
        return;
    }
    put_broken(output, b"fragment buffer changed past the fragment");
}

// The image buffer: n bytes, and then nothing but marks.
pub fn settle_image(buffer: &[u8; IMAGE], n: usize, output: &mut Answers) {
    let marked = bytes_marked(buffer, n);
    if marked {
        return;
    }
    put_broken(output, b"image buffer changed past the image");
}
