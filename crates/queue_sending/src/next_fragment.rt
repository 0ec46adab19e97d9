// The next fragment (Rust: produce, get_stream_to_produce_from).
ghost use Rattle.std.specs.Prelude.{◌≡◌, ℕ, ◌≤◌, length};
ghost use Rattle.types.specs.Refusal.{check_number};
ghost use Rattle.queue_streams.specs.Events.{event_words};
ghost use Rattle.queue_sending.specs.Answers.{as_look, as_next, as_produced};
ghost use Rattle.queue_sending.specs.Choice.{look_ahead};
ghost use Rattle.queue_sending.specs.Data.{produced_with};
ghost use Rattle.queue_sending.specs.Next.{sent_next, FromRow, Leads};
ghost use Rattle.queue_sending.specs.Produce.{lent_code, produce_code, produced_past, after_look, produced_after, produce_next};
ghost use Rattle.queue_sending.specs.Look.{Expired};

use crate::choice::{Ahead, look_ahead};
use crate::data::Produced;
use crate::fragment::hand_out;
use crate::next::Next;
use crate::past::pass_from;
use queue_streams::events::{EVENT_PLACES, EVENT_WORDS};
use queue_words::QUEUE_WORDS;
use queue_words::header::{load_options, load_totals};
use queue_words::limits::{MAX_PAYLOAD, MAX_TIME, MESSAGES};
use types::Refusal;
use types::refusal::Broken;

// The refusals that what is lent and asked for decides: 3, 4, 9, 10.
pub fn lent_code(places: u64, room: u64, time: u64, size: u64) -> Result<(), Refusal>
    ensures { check_number result ≡ lent_code places room time size }
{
    if places < EVENT_WORDS as u64 {
        return Err(Refusal::EventListShort);
    }
    if time > MAX_TIME {
        return Err(Refusal::TimeLate);
    }
    if size == 0 {
        return Err(Refusal::SizeWrong);
    }
    if size > MAX_PAYLOAD {
        return Err(Refusal::SizeWrong);
    }
    if room < size {
        return Err(Refusal::BufferShort);
    }
    Ok(())
}

// The refusals that the arguments decide: 2, 3, 4, 9, 10.
fn produce_code(
    queue: &[u64; QUEUE_WORDS],
    len: u64,
    places: u64,
    room: u64,
    time: u64,
    size: u64,
) -> Result<(), Refusal>
    ensures { check_number result ≡ produce_code queue.now len places room time size }
{
    let o = load_options(queue);
    if o.store_length != len {
        return Err(Refusal::StoreWrong);
    }
    lent_code(places, room, time, size)
}

// Passes over as many messages as wait, after k events.
fn pass_waiting(
    queue: &mut [u64; QUEUE_WORDS],
    store: &[u8],
    events: &mut [u64],
    buffer: &[u8],
    time: u64,
    size: u64,
    k: usize,
    id: u16,
    row: usize,
) -> Result<Next, Refusal>
    requires { (event_words ≤ length events.old) × (Expired id row ≡ look_ahead queue.old time) }
    ensures { Leads (as_next result) queue.new store.now events.new buffer.now size (produced_past queue.old store.now events.old buffer.now time size k) }
{
    let t = load_totals(&*queue);
    if t.waiting > MESSAGES {
        return Err(Refusal::WordsBroken);
    }
    pass_from(
        queue,
        store,
        events,
        buffer,
        time,
        size,
        t.waiting as usize,
        k,
        id,
        row,
    )
}

// What the call does next, after k events, by what a look has found. Where no head has expired nothing is passed over.
fn next_looked(
    queue: &mut [u64; QUEUE_WORDS],
    store: &[u8],
    events: &mut [u64],
    buffer: &[u8],
    time: u64,
    size: u64,
    k: usize,
    found: Result<Ahead, Broken>,
) -> Result<Next, Refusal>
    requires { (event_words ≤ length events.old) × (as_look found ≡ look_ahead queue.old time) }
    ensures { (sent_next queue.new store.now events.new buffer.now size (as_next result) ≡ after_look (λ (id row : ℕ). produced_past queue.old store.now events.old buffer.now time size k) queue.old store.now events.old buffer.now size k (as_look found)) × FromRow queue.new (as_next result) }
{
    match found {
        Ok(Ahead::Expired(id, row)) => pass_waiting(
            queue, store, events, buffer, time, size, k, id, row,
        ),
        Ok(Ahead::Nothing) => {
            if k > EVENT_PLACES {
                return Err(Refusal::WordsBroken);
            }
            Ok(Next::Nothing(k))
        }
        Ok(Ahead::Chosen(at, id, row)) => Ok(Next::Chosen(k, at, id, row)),
        Err(_) => Err(Refusal::WordsBroken),
    }
}

// The next fragment of at most `size` bytes, after k events of earlier calls: what one call for the next fragment is within a filling
// (document 02, 5/13). The arguments are judged by the caller.
pub fn produce_after(
    queue: &mut [u64; QUEUE_WORDS],
    store: &[u8],
    events: &mut [u64],
    buffer: &mut [u8],
    time: u64,
    size: u64,
    k: usize,
) -> Result<Produced, Refusal>
    requires { event_words ≤ length events.old }
    ensures { produced_with (as_produced result) queue.new events.new buffer.new ≡ produced_after queue.old store.now events.old buffer.old time size k }
{
    let found = look_ahead(&*queue, time);
    let next = next_looked(queue, store, events, &*buffer, time, size, k, found)?;
    match next {
        Next::Nothing(j) => Ok(Produced::Nothing(j)),
        Next::Chosen(j, at, id, row) => hand_out(
            queue, store, events, buffer, size, j, at, id, row,
        ),
    }
}

// The next fragment of at most `size` bytes; the store, the event list and the fragment buffer are lent.
pub fn produce(
    queue: &mut [u64; QUEUE_WORDS],
    store: &[u8],
    events: &mut [u64],
    buffer: &mut [u8],
    time: u64,
    size: u64,
) -> Result<Produced, Refusal>
    ensures { produced_with (as_produced result) queue.new events.new buffer.new ≡ produce_next queue.old store.now events.old buffer.old time size }
{
    produce_code(
        &*queue,
        store.len() as u64,
        events.len() as u64,
        buffer.len() as u64,
        time,
        size,
    )?;
    produce_after(queue, store, events, buffer, time, size, 0)
}
