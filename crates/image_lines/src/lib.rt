// A part of the program `replay`: the lines of the changeover, saving, restoring, and those of the current image.
#![tactic(auto)]

mod current;

pub use current::{answer_change, answer_length, answer_show};
use lent_calls::{LentError, lent_restore, lent_save};
use send_queue::QUEUE_WORDS;
use trace_answers::marks::{keep_store, mark_bytes};
use trace_answers::settle::{
    events_of, refusal_of, settle_image, settle_no_events, settle_store, settle_words,
};
use trace_text::output::{Answers, put_answer, put_broken, put_byte, put_number, put_text};
use trace_text::payload::sum_of;
use trace_text::state::{IMAGE, IMAGE_LENGTH, LENT_IMAGE, LENT_STORE, LETTER, STATE, STORE, low8};

// The saved image becomes the current one. Answers how many bytes of the buffer the image may have changed.
fn take_image(
    buffer: &[u8; IMAGE],
    image: &mut [u8; IMAGE],
    n: usize,
    output: &mut Answers,
    state: &mut [u64; STATE],
) -> usize {
    put_text(output, b"s 0");
    put_number(output, n as u64);
    put_number(output, sum_of(buffer, n));
    put_byte(output, b'\n');
    if n as u64 > state[LENT_IMAGE] {
        put_broken(output, b"image longer than its buffer");
        return 0;
    }
    keep_store(buffer, image, n);
    state[IMAGE_LENGTH] = n as u64;
    n
}

fn refuse_save(e: LentError, output: &mut Answers) -> usize {
    put_answer(output, b's', e.number());
    0
}

fn put_saved(
    buffer: &[u8; IMAGE],
    image: &mut [u8; IMAGE],
    s: Result<usize, LentError>,
    output: &mut Answers,
    state: &mut [u64; STATE],
) -> usize {
    match s {
        Ok(n) => take_image(buffer, image, n, output, state),
        Err(e) => refuse_save(e, output),
    }
}

fn save_line(
    queue: &[u64; QUEUE_WORDS],
    store: &[u8; STORE],
    buffer: &mut [u8; IMAGE],
    state: &[u64; STATE],
) -> Result<usize, LentError> {
    lent_save(
        queue,
        store,
        buffer,
        state[LENT_STORE] as usize,
        state[LENT_IMAGE] as usize,
        state[0],
    )
}

// Saving only reads the words and the store. So the buffer lies where the store's copy was, which is then made again: a fourth
// array of this length would not find room.
pub fn answer_save(
    queue: &[u64; QUEUE_WORDS],
    store: &[u8; STORE],
    buffer: &mut [u8; IMAGE],
    image: &mut [u8; IMAGE],
    output: &mut Answers,
    state: &mut [u64; STATE],
) {
    mark_bytes(buffer, 2100000);
    let s = save_line(queue, store, buffer, &*state);
    let n = put_saved(&*buffer, image, s, output, state);
    settle_image(&*buffer, n, output);
    keep_store(store, buffer, 2100000);
}

fn restore_line(
    queue: &mut [u64; QUEUE_WORDS],
    store: &mut [u8; STORE],
    image: &[u8; IMAGE],
    state: &[u64; STATE],
) -> Result<usize, LentError> {
    lent_restore(
        queue,
        store,
        image,
        state[LENT_STORE] as usize,
        state[IMAGE_LENGTH] as usize,
        state[0],
    )
}

// Restores the current image.
pub fn answer_restore(
    queue: &mut [u64; QUEUE_WORDS],
    kept: &mut [u64; QUEUE_WORDS],
    store: &mut [u8; STORE],
    kept_store: &mut [u8; STORE],
    image: &[u8; IMAGE],
    output: &mut Answers,
    state: &[u64; STATE],
) {
    let c = restore_line(queue, store, image, state);
    let refusal = refusal_of(c);
    put_answer(output, low8(state[LETTER]), refusal);
    settle_no_events(events_of(c), output);
    settle_words(&*queue, kept, refusal, output);
    settle_store(
        &*store,
        kept_store,
        state[LENT_STORE] as usize,
        refusal,
        output,
    );
}
