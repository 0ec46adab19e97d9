// One call: its answer, as a number, and how much it wrote.
use input_trials::state::{
    BYTES, EVENT_BUFFER, EVENT_LIST, EVENTS, FRAGMENT, FRAGMENT_BYTES, INTERLEAVE, LETTER,
    LIFETIME, LIMIT, MESSAGE_ID, NO_LIFETIME, PAYLOAD, PAYLOAD_BYTES, PRIORITY, SIZE, STATE, STORE,
    STORE_BYTES, STREAM, STRICT, THRESHOLD, TIME, low8, low16, low32,
};
use lent_calls::{
    Creation, LentError, lent_add, lent_create, lent_event_call, lent_produce, lifetime_of,
    plain_call,
};
use send_queue::{
    DataToSend, Message, Produced, QUEUE_WORDS, Refusal, StreamId, buffered_amount,
    buffered_amount_low_threshold, count_streams_ready_to_reset, get_handover_readiness,
    get_priority, get_streams_ready_to_reset, has_data_to_send, has_streams_ready_to_be_reset,
    is_empty, total_buffered_amount,
};

// 0 for accepted.
pub(crate) fn answer_of(c: Result<usize, LentError>, state: &mut [u64; STATE]) -> u64 {
    match c {
        Ok(n) => {
            state[EVENTS] = n as u64;
            0
        }
        Err(e) => e.number(),
    }
}

fn bytes_of(d: DataToSend) -> u64 {
    let data = d.data;
    data.length
}

fn produced_of(p: Produced, state: &mut [u64; STATE]) -> usize {
    match p {
        Produced::Nothing(n) => n,
        Produced::Fragment(n, d) => {
            state[BYTES] = bytes_of(d);
            n
        }
    }
}

fn create_call(
    queue: &mut [u64; QUEUE_WORDS],
    store: &[u8; STORE],
    state: &[u64; STATE],
) -> Result<usize, LentError> {
    let c = Creation {
        limit: state[LIMIT],
        priority: low16(state[PRIORITY]),
        threshold: state[THRESHOLD],
        total_threshold: state[THRESHOLD],
        handover: false,
        strict: state[STRICT] == 1,
    };
    lent_create(queue, store, state[STORE_BYTES] as usize, c)
}

fn message_of(state: &[u64; STATE]) -> Message {
    let lifetime = lifetime_of(state[LIFETIME] != NO_LIFETIME, state[LIFETIME]);
    let stream_id = StreamId(low16(state[STREAM]));
    Message {
        stream_id: stream_id,
        ppid: 53,
        unordered: false,
        lifetime: lifetime,
        max_retransmissions: None,
        lifecycle_id: state[PRIORITY],
    }
}

fn add_call(
    queue: &mut [u64; QUEUE_WORDS],
    store: &mut [u8; STORE],
    state: &[u64; STATE],
) -> Result<usize, LentError> {
    let payload = [165u8; PAYLOAD];
    let m = message_of(state);
    lent_add(
        queue,
        store,
        &payload,
        state[STORE_BYTES] as usize,
        state[PAYLOAD_BYTES] as usize,
        state[TIME],
        m,
    )
}

fn produce_call(
    queue: &mut [u64; QUEUE_WORDS],
    store: &[u8; STORE],
    events: &mut [u64; EVENT_BUFFER],
    fragment: &mut [u8; FRAGMENT],
    state: &mut [u64; STATE],
) -> Result<usize, LentError> {
    let p = lent_produce(
        queue,
        store,
        events,
        fragment,
        state[STORE_BYTES] as usize,
        state[EVENT_LIST] as usize,
        state[FRAGMENT_BYTES] as usize,
        state[TIME],
        state[SIZE],
    )?;
    Ok(produced_of(p, state))
}

// The letter that a call has in a trace: the small one.
fn small(letter: u8) -> u8 {
    if letter < 128 {
        return letter + 32;
    }
    letter
}

fn event_call(
    queue: &mut [u64; QUEUE_WORDS],
    events: &mut [u64; EVENT_BUFFER],
    state: &[u64; STATE],
    letter: u8,
) -> Result<usize, LentError> {
    lent_event_call(
        queue,
        events,
        state[EVENT_LIST] as usize,
        small(letter),
        low16(state[STREAM]),
        low32(state[MESSAGE_ID]),
        state[THRESHOLD],
    )
}

fn words_call(
    queue: &mut [u64; QUEUE_WORDS],
    state: &[u64; STATE],
    letter: u8,
) -> Result<usize, LentError> {
    plain_call(
        queue,
        small(letter),
        low16(state[STREAM]),
        low16(state[PRIORITY]),
        state[INTERLEAVE] == 1,
    )
}

// What a question answers is not looked at, but whether it is refused.
fn asked<T: Copy>(answer: Result<T, Refusal>) -> Result<usize, LentError> {
    answer?;
    Ok(0)
}

// The questions have the letters 1 to 9. Those of 6 to 8 are never refused.
fn question(queue: &[u64; QUEUE_WORDS], letter: u8, id: u16) -> Result<usize, LentError> {
    match letter {
        b'1' => asked(buffered_amount(queue, id)),
        b'2' => asked(buffered_amount_low_threshold(queue, id)),
        b'3' => asked(get_priority(queue, id)),
        b'4' => asked(has_data_to_send(queue)),
        b'5' => asked(has_streams_ready_to_be_reset(queue)),
        b'9' => asked(count_streams_ready_to_reset(queue)),
        _ => plain_question(queue, letter),
    }
}

fn plain_question(queue: &[u64; QUEUE_WORDS], letter: u8) -> Result<usize, LentError> {
    match letter {
        b'6' => total_buffered_amount(queue),
        b'7' => get_handover_readiness(queue),
        _ => {
            is_empty(queue);
            0
        }
    };
    Ok(0)
}

fn ready_call(queue: &mut [u64; QUEUE_WORDS]) -> Result<usize, LentError> {
    asked(get_streams_ready_to_reset(queue))
}

// The call that the state's letter names.
pub(crate) fn call(
    queue: &mut [u64; QUEUE_WORDS],
    store: &mut [u8; STORE],
    events: &mut [u64; EVENT_BUFFER],
    fragment: &mut [u8; FRAGMENT],
    state: &mut [u64; STATE],
) -> Result<usize, LentError> {
    let letter = low8(state[LETTER]);
    match letter {
        b'N' => create_call(queue, &*store, &*state),
        b'A' => add_call(queue, store, &*state),
        b'P' => produce_call(queue, &*store, events, fragment, state),
        b'D' | b'C' | b'T' => event_call(queue, events, &*state, letter),
        b'G' => ready_call(queue),
        b'1'..=b'9' => question(&*queue, letter, low16(state[STREAM])),
        _ => words_call(queue, &*state, letter),
    }
}
