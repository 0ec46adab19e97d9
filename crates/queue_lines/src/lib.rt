// A part of the program `replay`: the lines of the queue's calls but for those of the changeover. Each has the call, its answer line, and
// what is settled after it.
#![tactic(auto)]

use lent_calls::{
    Creation, LentError, lent_add, lent_create, lent_event_call, lent_produce, lifetime_of,
    plain_call, retransmissions_of,
};
use send_queue::{
    Message, Produced, QUEUE_WORDS, ReadyStreams, Refusal, StreamId, buffered_amount,
    buffered_amount_low_threshold, count_streams_ready_to_reset, enable_message_interleaving,
    get_handover_readiness, get_priority, get_streams_ready_to_reset, has_data_to_send,
    has_streams_ready_to_be_reset, is_empty, total_buffered_amount,
};
use trace_answers::fragments::put_fields;
use trace_answers::marks::{EVENT_BUFFER, clear_store, event_words, keep_words, mark_bytes};
use trace_answers::settle::{
    events_of, refusal_of, settle_events, settle_fragment, settle_no_events, settle_store,
    settle_words,
};
use trace_text::output::{Answers, put_answer, put_broken, put_byte, put_number, put_text};
use trace_text::payload::{fill, sum_of};
use trace_text::state::{
    CHOICE, COUNT, CREATED_HANDOVER, CREATED_LIMIT, CREATED_PRIORITY, CREATED_RULE, CREATED_STORE,
    CREATED_THRESHOLD, CREATED_TOTAL, LENT_EVENTS, LENT_FRAGMENT, LENT_IMAGE, LENT_STORE, LETTER,
    NEW_WITH_RULE, PAYLOAD, QUEUES, STARTED, STATE, STORE, bit, low8, low16, low32, wide16,
};

// "At each `n` they are 2305, 262144, 2100000 and the creation length." Interleaving is off.
fn begin(state: &mut [u64; STATE]) {
    state[LENT_EVENTS] = 2305;
    state[LENT_FRAGMENT] = 262144;
    state[LENT_IMAGE] = 2100000;
    state[LENT_STORE] = state[1];
    state[CHOICE] = 0;
    state[STARTED] = 0;
}

// "The seventh number may be missing, which means 0": its place then has another line's.
fn rule_given(state: &[u64; STATE]) -> u64 {
    if state[COUNT] < NEW_WITH_RULE {
        return 0;
    }
    state[6]
}

// The arguments of creation, which a queue alike is created with.
fn keep_arguments(state: &mut [u64; STATE]) {
    state[CREATED_LIMIT] = state[0];
    state[CREATED_STORE] = state[1];
    state[CREATED_PRIORITY] = state[2];
    state[CREATED_THRESHOLD] = state[3];
    state[CREATED_TOTAL] = state[4];
    state[CREATED_HANDOVER] = state[5];
    state[CREATED_RULE] = rule_given(&*state);
}

// A queue with the arguments kept.
fn create_kept(
    queue: &mut [u64; QUEUE_WORDS],
    store: &[u8; STORE],
    state: &[u64; STATE],
) -> Result<usize, LentError> {
    let c = Creation {
        limit: state[CREATED_LIMIT],
        priority: low16(state[CREATED_PRIORITY]),
        threshold: state[CREATED_THRESHOLD],
        total_threshold: state[CREATED_TOTAL],
        handover: state[CREATED_HANDOVER] == 1,
        strict: state[CREATED_RULE] == 1,
    };
    lent_create(queue, store, state[CREATED_STORE] as usize, c)
}

pub fn answer_create(
    queue: &mut [u64; QUEUE_WORDS],
    kept: &mut [u64; QUEUE_WORDS],
    store: &mut [u8; STORE],
    kept_store: &mut [u8; STORE],
    output: &mut Answers,
    state: &mut [u64; STATE],
) {
    begin(state);
    keep_arguments(state);
    let n = state[CREATED_STORE] as usize;
    clear_store(store, n);
    clear_store(kept_store, n);
    let c = create_kept(queue, &*store, &*state);
    let refusal = refusal_of(c);
    state[QUEUES] = bit(refusal == 0);
    put_answer(output, b'n', refusal);
    settle_no_events(events_of(c), output);
    settle_words(&*queue, kept, refusal, output);
}

// The arguments of a queue that is there are right, so a queue alike is created, and the choice is never refused.
fn settle_alike(
    created: Result<usize, LentError>,
    chosen: Result<usize, Refusal>,
    output: &mut Answers,
) {
    if created.is_err() {
        put_broken(output, b"a queue alike is refused");
    }
    if chosen.is_err() {
        put_broken(output, b"the interleaving choice is refused");
    }
}

// "a new queue alike (same arguments, same interleaving choice set before restoring, a new zero store)"
pub fn put_alike(
    queue: &mut [u64; QUEUE_WORDS],
    kept: &mut [u64; QUEUE_WORDS],
    store: &mut [u8; STORE],
    kept_store: &mut [u8; STORE],
    output: &mut Answers,
    state: &mut [u64; STATE],
) {
    let n = state[CREATED_STORE] as usize;
    state[STARTED] = 0;
    clear_store(store, n);
    clear_store(kept_store, n);
    let created = create_kept(queue, &*store, &*state);
    let chosen = enable_message_interleaving(queue, state[CHOICE] == 1);
    keep_words(&*queue, kept);
    settle_alike(created, chosen, output);
}

pub fn answer_lent(output: &mut Answers, state: &mut [u64; STATE]) {
    state[LENT_EVENTS] = state[0];
    state[LENT_FRAGMENT] = state[1];
    state[LENT_IMAGE] = state[2];
    state[LENT_STORE] = state[3];
    put_text(output, b"v\n");
}

fn message_of(state: &[u64; STATE]) -> Message {
    let lifetime = lifetime_of(state[4] == 1, state[5]);
    let max_retransmissions = retransmissions_of(state[6] == 1, low16(state[7]));
    let stream_id = StreamId(low16(state[1]));
    Message {
        stream_id: stream_id,
        ppid: low32(state[2]),
        unordered: state[3] == 1,
        lifetime: lifetime,
        max_retransmissions: max_retransmissions,
        lifecycle_id: state[8],
    }
}

// The payload's first n bytes, from a seed.
fn fill_first(payload: &mut [u8], n: usize, seed: u64) {
    if n <= payload.len() {
        fill(&mut payload[0..n], seed);
    }
}

fn add_line(
    queue: &mut [u64; QUEUE_WORDS],
    store: &mut [u8; STORE],
    payload: &[u8; PAYLOAD],
    state: &[u64; STATE],
) -> Result<usize, LentError> {
    let m = message_of(state);
    lent_add(
        queue,
        store,
        payload,
        state[LENT_STORE] as usize,
        state[9] as usize,
        state[0],
        m,
    )
}

pub fn answer_add(
    queue: &mut [u64; QUEUE_WORDS],
    kept: &mut [u64; QUEUE_WORDS],
    store: &mut [u8; STORE],
    kept_store: &mut [u8; STORE],
    payload: &mut [u8; PAYLOAD],
    output: &mut Answers,
    state: &[u64; STATE],
) {
    fill_first(payload, state[9] as usize, state[10]);
    let c = add_line(queue, store, &*payload, state);
    let refusal = refusal_of(c);
    put_answer(output, b'a', refusal);
    settle_no_events(events_of(c), output);
    settle_words(&*queue, kept, refusal, output);
    settle_store(
        &*store,
        kept_store,
        state[LENT_STORE] as usize,
        refusal,
        output,
    );
}

// What `produce` answered, for the settling.
#[derive(Clone, Copy)]
struct Wrote {
    refusal: u64,
    events: usize,
    bytes: u64,
}

fn put_produced(
    fragment: &[u8; PAYLOAD],
    output: &mut Answers,
    p: Result<Produced, LentError>,
) -> Wrote {
    match p {
        Ok(Produced::Nothing(n)) => {
            put_text(output, b"p 0 0\n");
            Wrote {
                refusal: 0,
                events: n,
                bytes: 0,
            }
        }
        Ok(Produced::Fragment(n, d)) => {
            let data = d.data;
            let bytes = data.length;
            let sum = sum_of(fragment, bytes as usize);
            put_text(output, b"p 0 1");
            put_fields(output, d, sum);
            Wrote {
                refusal: 0,
                events: n,
                bytes: bytes,
            }
        }
        Err(e) => {
            let refusal = e.number();
            put_answer(output, b'p', refusal);
            Wrote {
                refusal: refusal,
                events: 0,
                bytes: 0,
            }
        }
    }
}

fn produce_line(
    queue: &mut [u64; QUEUE_WORDS],
    store: &[u8; STORE],
    events: &mut [u64; EVENT_BUFFER],
    fragment: &mut [u8; PAYLOAD],
    state: &[u64; STATE],
) -> Result<Produced, LentError> {
    lent_produce(
        queue,
        store,
        events,
        fragment,
        state[LENT_STORE] as usize,
        event_words(state[LENT_EVENTS]),
        state[LENT_FRAGMENT] as usize,
        state[0],
        state[1],
    )
}

// The fragment buffer is the array of the payloads, which a line `a` fills anew: so it is marked before each call.
pub fn answer_produce(
    queue: &mut [u64; QUEUE_WORDS],
    kept: &mut [u64; QUEUE_WORDS],
    store: &[u8; STORE],
    events: &mut [u64; EVENT_BUFFER],
    fragment: &mut [u8; PAYLOAD],
    output: &mut Answers,
    state: &[u64; STATE],
) {
    mark_bytes(fragment, 300000);
    let p = produce_line(queue, store, events, fragment, state);
    let w = put_produced(&*fragment, output, p);
    settle_events(events, w.events, output);
    settle_fragment(&*fragment, w.bytes, output);
    settle_words(&*queue, kept, w.refusal, output);
}

fn event_line(
    queue: &mut [u64; QUEUE_WORDS],
    events: &mut [u64; EVENT_BUFFER],
    state: &[u64; STATE],
    letter: u8,
) -> Result<usize, LentError> {
    lent_event_call(
        queue,
        events,
        event_words(state[LENT_EVENTS]),
        letter,
        low16(state[0]),
        low32(state[1]),
        state[1],
    )
}

// Discard, close and setting a threshold.
pub fn answer_event_call(
    queue: &mut [u64; QUEUE_WORDS],
    kept: &mut [u64; QUEUE_WORDS],
    events: &mut [u64; EVENT_BUFFER],
    output: &mut Answers,
    state: &[u64; STATE],
) {
    let letter = low8(state[LETTER]);
    let c = event_line(queue, events, state, letter);
    let refusal = refusal_of(c);
    put_answer(output, letter, refusal);
    settle_events(events, events_of(c), output);
    settle_words(&*queue, kept, refusal, output);
}

// The choice is kept for a queue alike.
fn keep_choice(state: &mut [u64; STATE], letter: u8) {
    if letter == b'i' {
        state[CHOICE] = state[0];
    }
}

// The calls that are lent nothing but the queue.
pub fn answer_plain(
    queue: &mut [u64; QUEUE_WORDS],
    kept: &mut [u64; QUEUE_WORDS],
    output: &mut Answers,
    state: &mut [u64; STATE],
) {
    let letter = low8(state[LETTER]);
    keep_choice(state, letter);
    let c = plain_call(
        queue,
        letter,
        low16(state[0]),
        low16(state[1]),
        state[0] == 1,
    );
    let refusal = refusal_of(c);
    put_answer(output, letter, refusal);
    settle_no_events(events_of(c), output);
    settle_words(&*queue, kept, refusal, output);
}

fn put_ids(output: &mut Answers, ids: &[u16; 256], count: usize) {
    put_text(output, b"g 0");
    put_number(output, count as u64);
    for id in &ids[..count.min(256)] {
        put_number(output, wide16(*id));
    }
    put_byte(output, b'\n');
}

// The line of the ready ids, and what is told of them.
fn put_ready(output: &mut Answers, r: Result<ReadyStreams, Refusal>) -> Told {
    match r {
        Ok(ready) => {
            let ids = ready.ids;
            put_ids(output, &ids, ready.count);
            Told {
                refusal: 0,
                count: ready.count as u64,
            }
        }
        Err(refusal) => {
            let number = u8::from(refusal) as u64;
            put_answer(output, b'g', number);
            Told {
                refusal: number,
                count: 0,
            }
        }
    }
}

// A refusal's number, 0 for none, and how many ids are ready.
#[derive(Clone, Copy)]
struct Told {
    refusal: u64,
    count: u64,
}

// No line asks how many ids are ready: the question is asked before they are taken, and compared.
fn settle_count(asked: Result<u64, Refusal>, count: u64, output: &mut Answers) {
    match asked {
        Ok(n) => {
            if n != count {
                put_broken(output, b"another number of ready ids");
            }
        }
        Err(_) => put_broken(output, b"no number of ready ids"),
    }
}

pub fn answer_ready(
    queue: &mut [u64; QUEUE_WORDS],
    kept: &mut [u64; QUEUE_WORDS],
    output: &mut Answers,
) {
    let asked = count_streams_ready_to_reset(&*queue);
    let r = get_streams_ready_to_reset(queue);
    let told = put_ready(output, r);
    settle_count(asked, told.count, output);
    settle_words(&*queue, kept, told.refusal, output);
}

fn put_asked(output: &mut Answers, n: Result<u64, Refusal>) {
    match n {
        Ok(v) => put_number(output, v),
        Err(_) => put_text(output, b" BROKEN"),
    }
}

fn put_flag(output: &mut Answers, f: Result<bool, Refusal>) {
    match f {
        Ok(b) => put_number(output, bit(b)),
        Err(_) => put_text(output, b" BROKEN"),
    }
}

pub fn answer_questions(queue: &[u64; QUEUE_WORDS], output: &mut Answers, id: u16) {
    put_byte(output, b'q');
    put_asked(output, buffered_amount(queue, id));
    put_number(output, total_buffered_amount(queue));
    put_number(output, bit(is_empty(queue)));
    put_asked(output, buffered_amount_low_threshold(queue, id));
    put_asked(output, get_priority(queue, id));
    put_flag(output, has_streams_ready_to_be_reset(queue));
    put_flag(output, has_data_to_send(queue));
    put_number(output, get_handover_readiness(queue));
    put_byte(output, b'\n');
}
