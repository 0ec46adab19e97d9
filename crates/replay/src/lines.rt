// One line of the trace, by its letter.
use image_lines::{answer_change, answer_length, answer_restore, answer_save, answer_show};
use queue_lines::{
    answer_add, answer_create, answer_event_call, answer_lent, answer_plain, answer_produce,
    answer_questions, answer_ready, put_alike,
};
use receiver_lines::answer_receiver;
use receiver_words::RECEIVER_WORDS;
use request_lines::packet::answer_fill;
use request_lines::plan::answer_plan;
use request_lines::resets::{answer_request, answer_reset, answer_response, answer_start};
use request_lines::wire::{answer_read, answer_write};
use send_queue::QUEUE_WORDS;
use trace_answers::marks::EVENT_BUFFER;
use trace_text::output::Answers;
use trace_text::state::{IMAGE, LETTER, PAYLOAD, STATE, STORE, low8, low16};

// The lines that are lent nothing of a queue: chunks on the wire, a plan, a start of reset requests, the lengths lent.
fn answer_alone(
    payload: &mut [u8; PAYLOAD],
    output: &mut Answers,
    state: &mut [u64; STATE],
    letter: u8,
) {
    match letter {
        b'W' => answer_write(payload, output, &*state),
        b'R' => answer_read(&*payload, output, &*state),
        b'P' => answer_plan(output, &*state),
        b'S' => answer_start(output, state),
        _ => answer_lent(output, state),
    }
}

// The lines of the current image.
fn answer_image(
    image: &mut [u8; IMAGE],
    output: &mut Answers,
    state: &mut [u64; STATE],
    letter: u8,
) {
    match letter {
        b'h' => answer_show(&*image, output, &*state),
        b'x' => answer_change(image, output, &*state),
        _ => answer_length(image, output, state),
    }
}

// The lines that are lent the queue's words, and no store.
fn answer_words(
    queue: &mut [u64; QUEUE_WORDS],
    kept: &mut [u64; QUEUE_WORDS],
    payload: &[u8; PAYLOAD],
    output: &mut Answers,
    state: &mut [u64; STATE],
    letter: u8,
) {
    match letter {
        b'g' => answer_ready(queue, kept, output),
        b'q' => answer_questions(&*queue, output, low16(state[0])),
        b'Q' => answer_request(queue, kept, output, state),
        b'A' => answer_response(queue, kept, payload, output, state),
        b'Z' => answer_reset(queue, kept, output, state),
        _ => answer_plain(queue, kept, output, state),
    }
}

// The lines that are lent the event list.
fn answer_events(
    queue: &mut [u64; QUEUE_WORDS],
    kept: &mut [u64; QUEUE_WORDS],
    store: &[u8; STORE],
    events: &mut [u64; EVENT_BUFFER],
    fragment: &mut [u8; PAYLOAD],
    output: &mut Answers,
    state: &[u64; STATE],
    letter: u8,
) {
    match letter {
        b'p' => answer_produce(queue, kept, store, events, fragment, output, state),
        b'F' => answer_fill(queue, kept, store, events, output, state),
        _ => answer_event_call(queue, kept, events, output, state),
    }
}

// The current image, restored to a new queue alike.
fn answer_alike(
    queue: &mut [u64; QUEUE_WORDS],
    kept: &mut [u64; QUEUE_WORDS],
    store: &mut [u8; STORE],
    kept_store: &mut [u8; STORE],
    image: &[u8; IMAGE],
    output: &mut Answers,
    state: &mut [u64; STATE],
) {
    put_alike(queue, kept, store, kept_store, output, state);
    answer_restore(queue, kept, store, kept_store, image, output, &*state);
}

// The lines that are lent the store and its copy.
fn answer_store(
    queue: &mut [u64; QUEUE_WORDS],
    kept: &mut [u64; QUEUE_WORDS],
    store: &mut [u8; STORE],
    kept_store: &mut [u8; STORE],
    payload: &mut [u8; PAYLOAD],
    image: &mut [u8; IMAGE],
    output: &mut Answers,
    state: &mut [u64; STATE],
    letter: u8,
) {
    match letter {
        b'n' => answer_create(queue, kept, store, kept_store, output, state),
        b'a' => answer_add(queue, kept, store, kept_store, payload, output, &*state),
        b's' => answer_save(&*queue, &*store, kept_store, image, output, state),
        b'o' => answer_alike(queue, kept, store, kept_store, &*image, output, state),
        _ => answer_restore(queue, kept, store, kept_store, &*image, output, &*state),
    }
}

pub(crate) fn answer(
    queue: &mut [u64; QUEUE_WORDS],
    kept: &mut [u64; QUEUE_WORDS],
    store: &mut [u8; STORE],
    kept_store: &mut [u8; STORE],
    events: &mut [u64; EVENT_BUFFER],
    payload: &mut [u8; PAYLOAD],
    image: &mut [u8; IMAGE],
    head: &mut [u64; RECEIVER_WORDS],
    output: &mut Answers,
    state: &mut [u64; STATE],
) {
    let letter = low8(state[LETTER]);
    match letter {
        b'W' | b'R' | b'P' | b'S' | b'v' => answer_alone(payload, output, state, letter),
        b'H' | b'V' | b'D' | b'G' => {
            answer_receiver(head, store, kept_store, &*payload, output, state, letter)
        }
        b'h' | b'x' | b'l' => answer_image(image, output, state, letter),
        b'p' | b'F' | b'd' | b'c' | b't' => {
            answer_events(
                queue, kept, &*store, events, payload, output, &*state, letter,
            )
        }
        b'n' | b'a' | b's' | b'o' | b'w' => {
            answer_store(
                queue, kept, store, kept_store, payload, image, output, state, letter,
            )
        }
        _ => answer_words(queue, kept, &*payload, output, state, letter),
    }
}
