// Adding a message (Rust: add).
ghost use Rattle.std.specs.Prelude.{◌≡◌, true, ◌<◌, ◌≤◌, length};
ghost use Rattle.types.specs.Refusal.{refusal_number, check_number, broken_number};
ghost use Rattle.types.specs.declared.refusal.Refusal.{Refusal};
ghost use Rattle.queue_streams.specs.Answers.{as_call};
ghost use Rattle.queue_streams.specs.Known.{placed, as_place};
ghost use Rattle.queue_streams.specs.declared.known.Place.{Place};
ghost use Rattle.queue_messages.specs.Message.{nanoseconds};
ghost use Rattle.queue_messages.specs.Add.{asked_code, arguments_code, full_code, may_start, starts, has_room_words, places_code, broken_code, message_code, lost_code, refused_place};
ghost use Rattle.queue_messages.specs.Add.{HasLast, linked_last, counted, started, stored, appended, MayAppend};
ghost use Rattle.queue_messages.specs.Add.{HasPlace, stream_for, row_for, made_known, added, add_to, add};

use crate::message::{Message, nanoseconds, new_item};
use message_chains::amounts::{minus, plus};
use payload_store::{put_code, put_own};
use queue_streams::known::{Place, insert_stream, look_up, new_stream};
use queue_streams::waiting::parameters_for;
use queue_words::header::{load_options, load_scheduler_state, load_totals, store_totals};
use queue_words::items::{load_next, store_item, store_next};
use queue_words::limits::{LAST_MESSAGE, MAX_PAYLOAD, MAX_TIME, NO_MESSAGE, STREAMS};
use queue_words::streams::{OutgoingStream, PauseState, load_stream, store_chain};
use queue_words::{QUEUE_WORDS, whole};
use stream_scheduler::own::begin_own;
use types::Refusal;
use types::refusal::Broken;

// The refusals that what is asked for decides: of the time, then of the payload.
pub fn asked_code(time: u64, lifetime: Option<u64>, n: u64) -> Result<(), Refusal>
    ensures { check_number result ≡ asked_code time lifetime n }
{
    if time > MAX_TIME {
        return Err(Refusal::TimeLate);
    }
    let l = nanoseconds(lifetime);
    if l > MAX_TIME {
        return Err(Refusal::TimeLate);
    }
    if n == 0 {
        return Err(Refusal::PayloadWrong);
    }
    if n > MAX_PAYLOAD {
        return Err(Refusal::PayloadWrong);
    }
    Ok(())
}

// The refusals that the arguments decide: of the store, then of what is asked for.
fn arguments_code(
    queue: &[u64; QUEUE_WORDS],
    len: u64,
    time: u64,
    lifetime: Option<u64>,
    n: u64,
) -> Result<(), Refusal>
    ensures { check_number result ≡ arguments_code queue.now len time lifetime n }
{
    let o = load_options(queue);
    if o.store_length != len {
        return Err(Refusal::StoreWrong);
    }
    asked_code(time, lifetime, n)
}

// Refused where no message more fits.
pub fn full_code(queue: &[u64; QUEUE_WORDS], len: u64, n: u64) -> Result<(), Refusal>
    ensures { check_number result ≡ full_code queue.now len n }
{
    let t = load_totals(queue);
    if t.waiting > LAST_MESSAGE {
        return Err(Refusal::MessagesFull);
    }
    let free = minus(len, t.used);
    if n > free {
        return Err(Refusal::StoreFull);
    }
    Ok(())
}

// "messages added to a paused or resetting stream do not start it".
fn may_start(state: PauseState) -> bool
    ensures { result ≡ may_start state }
{
    match state {
        PauseState::NotPaused => true,
        PauseState::Pending => true,
        PauseState::Paused => false,
        PauseState::Resetting => false,
    }
}

// One that has messages waits already.
fn starts(s: OutgoingStream) -> bool
    ensures { result ≡ starts s }
{
    let state = s.pause_state;
    let may = may_start(state);
    if may {
        return s.first > LAST_MESSAGE;
    }
    false
}

// Whether the scheduler has a row for the stream, where the message starts it.
fn has_room(queue: &[u64; QUEUE_WORDS], s: OutgoingStream) -> bool
    ensures { result ≡ has_room_words queue.now s }
{
    let begins = starts(s);
    if begins {
        let c = load_scheduler_state(queue);
        return c.active < STREAMS;
    }
    true
}

// The places that the message's row and its chain need.
fn places_code(queue: &[u64; QUEUE_WORDS], s: OutgoingStream, free: u64) -> Result<(), Broken>
    ensures { broken_number result ≡ places_code queue.now s free }
{
    if free > LAST_MESSAGE {
        return Err(Broken);
    }
    let next = load_next(queue, free as usize);
    if next > NO_MESSAGE {
        return Err(Broken);
    }
    if s.first > NO_MESSAGE {
        return Err(Broken);
    }
    if s.first == NO_MESSAGE {
        return Ok(());
    }
    if s.last > LAST_MESSAGE {
        return Err(Broken);
    }
    Ok(())
}

// Refused where an amount would pass 2^64 - 1 or a place lies outside its table.
fn broken_code(
    queue: &[u64; QUEUE_WORDS],
    len: u64,
    s: OutgoingStream,
    n: u64,
) -> Result<(), Broken>
    ensures { broken_number result ≡ broken_code queue.now len s n }
{
    let t = load_totals(queue);
    if n > u64::MAX - t.total {
        return Err(Broken);
    }
    if n > u64::MAX - s.buffered_amount {
        return Err(Broken);
    }
    places_code(queue, s, t.free)?;
    let room = has_room(queue, s);
    if !room {
        return Err(Broken);
    }
    match put_code(queue, len, t.free as usize, n) {
        Ok(_) => Ok(()),
        Err(_) => Err(Broken),
    }
}

// The first refusal that applies: no message more fits, or the words are damaged.
fn message_code(
    queue: &[u64; QUEUE_WORDS],
    len: u64,
    s: OutgoingStream,
    n: u64,
) -> Result<(), Refusal>
    ensures { check_number result ≡ message_code queue.now len s n }
{
    full_code(queue, len, n)?;
    broken_code(queue, len, s, n)?;
    Ok(())
}

// The refusal of a stream that cannot be found: that of a 257th stream comes before those of a full queue, that of damaged words after them.
fn lost_code(queue: &[u64; QUEUE_WORDS], len: u64, n: u64, lost: Refusal) -> Refusal
    ensures { refusal_number result ≡ lost_code queue.now len n (refusal_number lost) }
{
    if lost == Refusal::StreamsFull {
        return lost;
    }
    match full_code(queue, len, n) {
        Ok(()) => lost,
        Err(full) => full,
    }
}

// Hangs a message's place to the end of a stream's chain.
pub fn link_last(queue: &mut [u64; QUEUE_WORDS], row: usize, s: OutgoingStream, place: u64, n: u64)
    requires { (row < 256) × HasLast s }
    ensures { queue.new ≡ linked_last queue.old row s place n }
{
    let amount = plus(s.buffered_amount, n);
    if s.first > LAST_MESSAGE {
        store_chain(queue, row, amount, place, place);
        return;
    }
    store_next(queue, s.last as usize, place);
    store_chain(queue, row, amount, s.first, place);
}

// One message more in the totals; the first free place is taken.
fn count_message(queue: &mut [u64; QUEUE_WORDS], free: u64, n: u64)
    ensures { queue.new ≡ counted queue.old free n }
{
    let mut t = load_totals(&*queue);
    let id = t.next_message_id.add_to(1);
    t.next_message_id = id;
    t.free = free;
    t.waiting = plus(t.waiting, 1);
    t.total = plus(t.total, n);
    store_totals(queue, t);
}

// Lets the stream wait with the new message, if that starts it: the scheduler has a row for it then.
fn start(queue: &mut [u64; QUEUE_WORDS], id: u16, s: OutgoingStream, n: u64)
    requires { has_room_words queue.old s ≡ true }
    ensures { queue.new ≡ started queue.old id s n }
{
    let begins = starts(s);
    if begins {
        let t = load_totals(&*queue);
        let p = parameters_for(t.interleaving, s.priority);
        begin_own(queue, id, n, p);
    }
}

// Hangs a message of n bytes, whose row and payload are written, to the end of its stream's chain, and lets the stream wait if that starts it;
// `free` comes first among the free places then.
fn hang(
    queue: &mut [u64; QUEUE_WORDS],
    id: u16,
    row: usize,
    s: OutgoingStream,
    place: u64,
    free: u64,
    n: u64,
)
    requires { (row < 256) × HasLast s × (has_room_words queue.old s ≡ true) }
    ensures { queue.new ≡ started (counted (linked_last queue.old row s place n) free n) id s n }
{
    link_last(queue, row, s, place, n);
    count_message(queue, free, n);
    start(queue, id, s, n);
}

// The message goes to the first free place and to the end of its stream's chain. The tests have passed, and are not made again.
pub fn append(
    queue: &mut [u64; QUEUE_WORDS],
    store: &mut [u8],
    time: u64,
    m: Message,
    payload: &[u8],
    row: usize,
    s: OutgoingStream,
)
    requires { (row < 256) × MayAppend queue.old (length store.old) time m s (length payload.now) }
    ensures { stored queue.new store.new ≡ appended queue.old store.old time m payload.now row s }
{
    whole(&*queue);
    let n = payload.len() as u64;
    let t = load_totals(&*queue);
    let place = t.free as usize;
    let free = load_next(&*queue, place);
    let item = new_item(time, t.next_message_id, m);
    store_item(queue, place, item);
    put_own(queue, store, place, payload);
    hang(queue, m.stream_id.0, row, s, place as u64, free, n);
}

// The stream's row as it is, or that of a stream that the message makes known.
pub fn stream_for(queue: &[u64; QUEUE_WORDS], place: Result<Place, Refusal>) -> OutgoingStream
    requires { HasPlace queue.now (as_place place) }
    ensures { result ≡ stream_for queue.now (as_place place) }
{
    match place {
        Ok(Place::Row(row)) => load_stream(queue, row),
        Ok(Place::New(_)) | Err(_) => {
            let o = load_options(queue);
            new_stream(o)
        }
    }
}

// The number of that row.
pub fn row_for(queue: &[u64; QUEUE_WORDS], place: Result<Place, Refusal>) -> usize
    requires { HasPlace queue.now (as_place place) }
    ensures { result ≡ row_for queue.now (as_place place) }
{
    match place {
        Ok(Place::Row(row)) => row,
        Ok(Place::New(_)) => {
            let t = load_totals(queue);
            t.known as usize
        }
        Err(_) => 0,
    }
}

// Makes the stream known, if it is not.
pub fn make_known(queue: &mut [u64; QUEUE_WORDS], place: Result<Place, Refusal>, id: u16)
    requires { HasPlace queue.old (as_place place) }
    ensures { queue.new ≡ made_known queue.old id (as_place place) }
{
    match place {
        Ok(Place::Row(_)) => {}
        Ok(Place::New(position)) => {
            let o = load_options(&*queue);
            let s = new_stream(o);
            insert_stream(queue, position, id, s);
        }
        Err(_) => {}
    }
}

// A message for a stream that is known, or that it makes known.
fn add_to(
    queue: &mut [u64; QUEUE_WORDS],
    store: &mut [u8],
    time: u64,
    m: Message,
    payload: &[u8],
    place: Place,
) -> Result<usize, Refusal>
    requires { HasPlace queue.old (placed place) × (time ≤ 4611686018427387903) × (nanoseconds m.lifetime ≤ 4611686018427387903) }
    ensures { added (as_call result) queue.new store.new ≡ add_to queue.old store.old time m payload.now (placed place) }
{
    whole(&*queue);
    let s = stream_for(&*queue, Ok(place));
    message_code(&*queue, store.len() as u64, s, payload.len() as u64)?;
    let row = row_for(&*queue, Ok(place));
    make_known(queue, Ok(place), m.stream_id.0);
    append(queue, store, time, m, payload, row, s);
    Ok(0)
}

// The place that a stream has, or the refusal of one that has none.
fn refused_place(
    queue: &[u64; QUEUE_WORDS],
    len: u64,
    n: u64,
    found: Result<Place, Refusal>,
) -> Result<Place, Refusal>
    ensures { (check_number result ≡ refused_place queue.now len n (as_place found)) × ((place : Place) → result ≡ Ok place → found ≡ Ok place) }
{
    match found {
        Ok(place) => Ok(place),
        Err(lost) => Err(lost_code(queue, len, n, lost)),
    }
}

// Adds a message; the store is lent.
pub fn add(
    queue: &mut [u64; QUEUE_WORDS],
    store: &mut [u8],
    time: u64,
    m: Message,
    payload: &[u8],
) -> Result<usize, Refusal>
    ensures { added (as_call result) queue.new store.new ≡ add queue.old store.old time m payload.now }
{
    let len = store.len() as u64;
    let n = payload.len() as u64;
    let lifetime = m.lifetime;
    arguments_code(&*queue, len, time, lifetime, n)?;
    let found = look_up(&*queue, m.stream_id.0);
    let place = refused_place(&*queue, len, n, found)?;
    add_to(queue, store, time, m, payload, place)
}
