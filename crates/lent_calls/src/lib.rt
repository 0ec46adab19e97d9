// A part of the programs `replay` and `bad_input`: the queue's calls, each with the lengths that the caller says. A part of an array
// is lent, in a function of its own for each array.
#![tactic(auto)]

ghost use Rattle.std.specs.Prelude.{◌≡◌};
ghost use Rattle.lent_calls.specs.declared.LentError.TheVariants.{Refused};
ghost use Rattle.lent_calls.specs.Numbers.{lent_number};

use send_queue::{
    Message, Produced, QUEUE_WORDS, Refusal, RestartRule, add, commit_reset_streams, create,
    discard, enable_message_interleaving, prepare_reset_stream, produce, reset, restore,
    rollback_reset_streams, save, set_buffered_amount_low_threshold, set_priority,
};
use std::convert::From;

// What the program itself answers where an array is shorter than the length asked for. No document has this number.
pub const TOO_SHORT: u64 = 99;

// Why a lent call gives nothing: the program has no array so long, or the queue refuses it.
#[derive(Clone, Copy, Debug, PartialEq, Eq)]
pub enum LentError {
    TooShort,
    Refused(Refusal),
}

impl From<Refusal> for LentError {
    ghost from_gives = { λ r e. e ≡ Refused r };

    fn from(refusal: Refusal) -> LentError {
        LentError::Refused(refusal)
    }
}

impl LentError {
    pub fn number(self) -> u64
        ensures { result ≡ lent_number self }
    {
        match self {
            LentError::TooShort => TOO_SHORT,
            LentError::Refused(refusal) => u8::from(refusal) as u64,
        }
    }
}

// The arguments of creation but for the store.
#[derive(Clone, Copy)]
pub struct Creation {
    pub limit: u64,
    pub priority: u16,
    pub threshold: u64,
    pub total_threshold: u64,
    pub handover: bool,
    pub strict: bool,
}

fn rule_of(strict: bool) -> RestartRule {
    if strict {
        return RestartRule::Strict;
    }
    RestartRule::Dcsctp
}

pub fn lent_create(
    queue: &mut [u64; QUEUE_WORDS],
    store: &[u8],
    n: usize,
    c: Creation,
) -> Result<usize, LentError> {
    if n > store.len() {
        return Err(LentError::TooShort);
    }
    let rule = rule_of(c.strict);
    let events = create(
        queue,
        &store[0..n],
        c.limit,
        c.priority,
        c.threshold,
        c.total_threshold,
        c.handover,
        rule,
    )?;
    Ok(events)
}

pub fn lifetime_of(given: bool, lifetime: u64) -> Option<u64> {
    if given {
        return Some(lifetime);
    }
    None
}

pub fn retransmissions_of(given: bool, most: u16) -> Option<u16> {
    if given {
        return Some(most);
    }
    None
}

fn add_part(
    queue: &mut [u64; QUEUE_WORDS],
    store: &mut [u8],
    payload: &[u8],
    length: usize,
    time: u64,
    m: Message,
) -> Result<usize, LentError> {
    if length > payload.len() {
        return Err(LentError::TooShort);
    }
    Ok(add(queue, store, time, m, &payload[0..length])?)
}

// The first n bytes of the store, and so many of the payload.
pub fn lent_add(
    queue: &mut [u64; QUEUE_WORDS],
    store: &mut [u8],
    payload: &[u8],
    n: usize,
    length: usize,
    time: u64,
    m: Message,
) -> Result<usize, LentError> {
    if n > store.len() {
        return Err(LentError::TooShort);
    }
    add_part(queue, &mut store[0..n], payload, length, time, m)
}

fn produce_events(
    queue: &mut [u64; QUEUE_WORDS],
    store: &[u8],
    events: &mut [u64],
    fragment: &mut [u8],
    words: usize,
    time: u64,
    size: u64,
) -> Result<Produced, LentError> {
    if words > events.len() {
        return Err(LentError::TooShort);
    }
    Ok(produce(queue, store, &mut events[0..words], fragment, time, size)?)
}

fn produce_bytes(
    queue: &mut [u64; QUEUE_WORDS],
    store: &[u8],
    events: &mut [u64],
    fragment: &mut [u8],
    words: usize,
    bytes: usize,
    time: u64,
    size: u64,
) -> Result<Produced, LentError> {
    if bytes > fragment.len() {
        return Err(LentError::TooShort);
    }
    produce_events(
        queue,
        store,
        events,
        &mut fragment[0..bytes],
        words,
        time,
        size,
    )
}

// The first n bytes of the store, so many words of the event list, and so many bytes of the fragment buffer.
pub fn lent_produce(
    queue: &mut [u64; QUEUE_WORDS],
    store: &[u8],
    events: &mut [u64],
    fragment: &mut [u8],
    n: usize,
    words: usize,
    bytes: usize,
    time: u64,
    size: u64,
) -> Result<Produced, LentError> {
    if n > store.len() {
        return Err(LentError::TooShort);
    }
    produce_bytes(
        queue,
        &store[0..n],
        events,
        fragment,
        words,
        bytes,
        time,
        size,
    )
}

// Discard, close and setting a threshold, by their letters in a trace.
fn event_call(
    queue: &mut [u64; QUEUE_WORDS],
    events: &mut [u64],
    letter: u8,
    id: u16,
    message: u32,
    threshold: u64,
) -> Result<usize, LentError> {
    match letter {
        b'd' => Ok(discard(queue, events, id, message)?),
        b'c' => Ok(prepare_reset_stream(queue, events, id)?),
        _ => Ok(set_buffered_amount_low_threshold(queue, events, id, threshold)?),
    }
}

pub fn lent_event_call(
    queue: &mut [u64; QUEUE_WORDS],
    events: &mut [u64],
    words: usize,
    letter: u8,
    id: u16,
    message: u32,
    threshold: u64,
) -> Result<usize, LentError> {
    if words > events.len() {
        return Err(LentError::TooShort);
    }
    event_call(queue, &mut events[0..words], letter, id, message, threshold)
}

// The calls that are lent nothing but the queue, by their letters in a trace.
pub fn plain_call(
    queue: &mut [u64; QUEUE_WORDS],
    letter: u8,
    id: u16,
    priority: u16,
    interleave: bool,
) -> Result<usize, LentError> {
    match letter {
        b'y' => Ok(set_priority(queue, id, priority)?),
        b'k' => Ok(commit_reset_streams(queue)?),
        b'b' => Ok(rollback_reset_streams(queue)?),
        b'r' => Ok(reset(queue)?),
        b'i' => Ok(enable_message_interleaving(queue, interleave)?),
        _ => Err(LentError::TooShort),
    }
}

fn restore_part(
    queue: &mut [u64; QUEUE_WORDS],
    store: &mut [u8],
    image: &[u8],
    length: usize,
    time: u64,
) -> Result<usize, LentError> {
    if length > image.len() {
        return Err(LentError::TooShort);
    }
    Ok(restore(queue, store, time, &image[0..length])?)
}

// The first n bytes of the store, and so many of the image.
pub fn lent_restore(
    queue: &mut [u64; QUEUE_WORDS],
    store: &mut [u8],
    image: &[u8],
    n: usize,
    length: usize,
    time: u64,
) -> Result<usize, LentError> {
    if n > store.len() {
        return Err(LentError::TooShort);
    }
    restore_part(queue, &mut store[0..n], image, length, time)
}

fn save_part(
    queue: &[u64; QUEUE_WORDS],
    store: &[u8],
    buffer: &mut [u8],
    room: usize,
    time: u64,
) -> Result<usize, LentError> {
    if room > buffer.len() {
        return Err(LentError::TooShort);
    }
    Ok(save(queue, store, &mut buffer[0..room], time)?)
}

// The first n bytes of the store, and so many of the buffer.
pub fn lent_save(
    queue: &[u64; QUEUE_WORDS],
    store: &[u8],
    buffer: &mut [u8],
    n: usize,
    room: usize,
    time: u64,
) -> Result<usize, LentError> {
    if n > store.len() {
        return Err(LentError::TooShort);
    }
    save_part(queue, &store[0..n], buffer, room, time)
}
