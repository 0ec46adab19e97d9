// The questions: "the calls that only ask".
ghost use Rattle.std.specs.Prelude.{◌≡◌, ◌≤◌};
ghost use Rattle.queue_model.specs.Questions.{free_store, waiting_messages, known_streams};
ghost use Rattle.queue_streams.specs.Answers.{as_flag, as_number};
ghost use Rattle.queue_questions.specs.Questions.{as_looked, priority_of_words, amount_of_words, threshold_of, total_of, empty_of, data_of, ready_of, readiness_of, stream_or_new, ready_among, room_of};

use queue_streams::new_stream;
use queue_words::QUEUE_WORDS;
use queue_words::header::{load_options, load_totals};
use queue_words::known::{Found, find_stream, load_known};
use queue_words::limits::{LAST_STREAM, STREAMS};
use queue_words::streams::{OutgoingStream, load_stream};
use stream_scheduler::{Peeked, peek};
use types::Refusal;
use types::refusal::Broken;

// A stream as it is, or as it would begin.
fn stream_or_new(queue: &[u64; QUEUE_WORDS], id: u16) -> Result<OutgoingStream, Broken>
    ensures { as_looked result ≡ stream_or_new queue.now id }
{
    let found = find_stream(queue, id);
    match found {
        Found::At(_, row) => Ok(load_stream(queue, row)),
        Found::Gap(_) => {
            let o = load_options(queue);
            Ok(new_stream(o))
        }
        Found::Broken => Err(Broken),
    }
}

// "A call of its own answers the priority last set or restored, the default where there is none, and changes nothing."
pub fn get_priority(queue: &[u64; QUEUE_WORDS], id: u16) -> Result<u64, Refusal>
    ensures { as_number result ≡ priority_of_words queue.now id }
{
    let s = stream_or_new(queue, id)?;
    Ok(s.priority as u64)
}

// A stream's amount.
pub fn buffered_amount(queue: &[u64; QUEUE_WORDS], id: u16) -> Result<u64, Refusal>
    ensures { as_number result ≡ amount_of_words queue.now id }
{
    let s = stream_or_new(queue, id)?;
    Ok(s.buffered_amount)
}

// A stream's threshold.
pub fn buffered_amount_low_threshold(queue: &[u64; QUEUE_WORDS], id: u16) -> Result<u64, Refusal>
    ensures { as_number result ≡ threshold_of queue.now id }
{
    let s = stream_or_new(queue, id)?;
    Ok(s.low_threshold)
}

// The total.
pub fn total_buffered_amount(queue: &[u64; QUEUE_WORDS]) -> u64
    ensures { result ≡ total_of queue.now }
{
    let t = load_totals(queue);
    t.total
}

pub fn is_empty(queue: &[u64; QUEUE_WORDS]) -> bool
    ensures { result ≡ empty_of queue.now }
{
    let t = load_totals(queue);
    t.total == 0
}

// Whether a stream waits.
pub fn has_data_to_send(queue: &[u64; QUEUE_WORDS]) -> Result<bool, Refusal>
    ensures { as_flag result ≡ data_of queue.now }
{
    let p = peek(queue);
    match p {
        Peeked::At(_) => Ok(true),
        Peeked::Nothing => Ok(false),
        Peeked::Broken => Err(Refusal::WordsBroken),
    }
}

fn ready_among(queue: &[u64; QUEUE_WORDS], n: usize) -> Result<bool, Refusal>
    requires { n ≤ 256 }
    ensures { as_flag result ≡ ready_among queue.now 0 n }
{
    for i in 0..n {
        let k = load_known(queue, i);
        if k.place > LAST_STREAM {
            return Err(Refusal::WordsBroken);
        }
        let s = load_stream(queue, k.place as usize);
        let state = s.pause_state;
        let paused = state.is_paused();
        if paused {
            return Ok(true);
        }
    }
    Ok(false)
}

// Whether a stream is paused.
pub fn has_streams_ready_to_be_reset(queue: &[u64; QUEUE_WORDS]) -> Result<bool, Refusal>
    ensures { as_flag result ≡ ready_of queue.now }
{
    let t = load_totals(queue);
    if t.known > STREAMS {
        return Err(Refusal::WordsBroken);
    }
    ready_among(queue, t.known as usize)
}

// "Readiness is 2 if handover with waiting data is off and the total is above 0, else 0."
pub fn get_handover_readiness(queue: &[u64; QUEUE_WORDS]) -> u64
    ensures { result ≡ readiness_of queue.now }
{
    let o = load_options(queue);
    if o.handover_with_data {
        return 0;
    }
    let t = load_totals(queue);
    if t.total > 0 {
        return 2;
    }
    0
}

// How many bytes of the store are free: a longer payload gets 8.
pub fn free_bytes(queue: &[u64; QUEUE_WORDS]) -> u64
    ensures { result ≡ room_of free_store queue.now }
{
    let o = load_options(queue);
    let t = load_totals(queue);
    if t.used > o.store_length {
        return 0;
    }
    o.store_length - t.used
}

// How many messages wait: of 1,024 none may be added.
pub fn waiting_messages(queue: &[u64; QUEUE_WORDS]) -> u64
    ensures { result ≡ room_of waiting_messages queue.now }
{
    let t = load_totals(queue);
    t.waiting
}

// How many streams are known: of 256 none becomes known.
pub fn known_streams(queue: &[u64; QUEUE_WORDS]) -> u64
    ensures { result ≡ room_of known_streams queue.now }
{
    let t = load_totals(queue);
    t.known
}
