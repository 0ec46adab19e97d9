// Closing a stream (Rust: prepare_reset_stream).
ghost use Rattle.std.specs.Prelude.{◌≡◌, ◌<◌, ◌≤◌};
ghost use Rattle.queue_words.specs.Header.{options_at};
ghost use Rattle.queue_words.specs.Known.{known_count};
ghost use Rattle.payload_store.specs.Dropping.{drop_code_words};
ghost use Rattle.message_chains.specs.Notes.{notes};
ghost use Rattle.queue_streams.specs.Known.{new_stream_words, inserted};
ghost use Rattle.queue_streams.specs.Answers.{as_call};
ghost use Rattle.queue_streams.specs.Settings.{called_with};
ghost use Rattle.queue_closing.specs.Walk.{walk_failed, may_go, walk_item, walk, may_sweep};
ghost use Rattle.queue_closing.specs.Sweep.{swept, sweep_notes, sweep_item_words, sweep, sweep_from, Goes};
ghost use Rattle.queue_closing.specs.Close.{whole_left, close_whole, behind_left, close_behind, close_open_words, close_in, paused_new, close};
ghost use Rattle.queue_streams.specs.Call.{Accepted};

use message_chains::amounts::{minus, remaining};
use message_chains::heads::release;
use message_chains::notes::{lifecycle_events, low_event};
use queue_streams::events::EVENT_WORDS;
use queue_streams::known::{Place, insert_stream, look_up, new_stream};
use queue_words::QUEUE_WORDS;
use queue_words::header::{load_options, load_totals};
use queue_words::items::{Item, load_item, store_next};
use queue_words::limits::{LAST_MESSAGE, MESSAGE_ROWS, NO_MESSAGE};
use queue_words::streams::{OutgoingStream, PauseState, load_stream, store_stream, with_pause};
use stream_scheduler::remove_stream;
use types::Refusal;

// A test of a chain half done: whether the messages so far may go, the place of the next one, and what would be left.
#[derive(Clone, Copy)]
pub struct Walk {
    pub fits: bool,
    pub place: u64,
    pub total: u64,
    pub amount: u64,
    pub waiting: u64,
    pub used: u64,
}

fn walk_failed(w: Walk) -> Walk
    ensures { result ≡ walk_failed w }
{
    let mut o = w;
    o.fits = false;
    o.place = NO_MESSAGE;
    o
}

// Whether a message of n bytes at offset 0 may go.
fn may_go(w: Walk, m: Item, n: u64) -> bool
    ensures { result ≡ may_go w m n }
{
    if m.offset > 0 {
        return false;
    }
    if m.length == 0 {
        return false;
    }
    if m.length > w.used {
        return false;
    }
    if n > w.total {
        return false;
    }
    if n > w.amount {
        return false;
    }
    w.waiting > 0
}

fn walk_item(w: Walk, m: Item) -> Walk
    ensures { result ≡ walk_item w m }
{
    let n = remaining(m);
    let goes = may_go(w, m, n);
    if goes {
        return Walk {
            fits: w.fits,
            place: m.next,
            total: minus(w.total, n),
            amount: minus(w.amount, n),
            waiting: minus(w.waiting, 1),
            used: minus(w.used, m.length),
        };
    }
    walk_failed(w)
}

fn walk_chain(queue: &[u64; QUEUE_WORDS], start: Walk) -> Walk
    ensures { result ≡ walk queue.now start 1024 }
{
    let mut w = start;
    for _step in 0..MESSAGE_ROWS {
        if w.place > LAST_MESSAGE {
            return w;
        }
        let m = load_item(queue, w.place as usize);
        w = walk_item(w, m);
    }
    w
}

// Whether all messages from a place on may go: each is whole, and the chain ends.
fn may_sweep(queue: &[u64; QUEUE_WORDS], place: u64, amount: u64) -> bool
    ensures { result ≡ may_sweep queue.now place amount }
{
    let t = load_totals(queue);
    let w = walk_chain(
        queue,
        Walk {
            fits: true,
            place: place,
            total: t.total,
            amount: amount,
            waiting: t.waiting,
            used: t.used,
        },
    );
    if w.fits {
        return w.place == NO_MESSAGE;
    }
    false
}

// A chain half dropped: the place of the next message, the events so far, the stream's amount.
#[derive(Clone, Copy)]
pub struct Sweep {
    pub place: u64,
    pub count: usize,
    pub amount: u64,
}

// "closing reports stream before total": stream, total, then 3 and 4.
fn sweep_events(
    queue: &[u64; QUEUE_WORDS],
    events: &mut [u64],
    id: u16,
    threshold: u64,
    w: Sweep,
    n: u64,
    lifecycle_id: u64,
) -> usize
    ensures { notes events.new result ≡ sweep_notes queue.now events.old id threshold w n lifecycle_id }
{
    let o = load_options(queue);
    let t = load_totals(queue);
    let amount = minus(w.amount, n);
    let k1 = low_event(events, w.count, 1, id as u64, threshold, w.amount, amount);
    let total = minus(t.total, n);
    let k2 = low_event(events, k1, 2, 0, o.total_threshold, t.total, total);
    lifecycle_events(events, k2, lifecycle_id)
}

// Drops the message in a place, which may go.
fn sweep_item(
    queue: &mut [u64; QUEUE_WORDS],
    events: &mut [u64],
    id: u16,
    threshold: u64,
    place: usize,
    w: Sweep,
) -> Sweep
    requires { (place < 1024) × (drop_code_words queue.old place ≡ 0) }
    ensures { swept result queue.new events.new ≡ sweep_item_words queue.old events.old id threshold place w }
{
    let m = load_item(&*queue, place);
    let n = remaining(m);
    let count = sweep_events(&*queue, events, id, threshold, w, n, m.lifecycle_id);
    release(queue, place, n);
    Sweep {
        place: m.next,
        count: count,
        amount: minus(w.amount, n),
    }
}

// Drops all messages from a place on. Each may go when its turn comes.
fn sweep_chain(
    queue: &mut [u64; QUEUE_WORDS],
    events: &mut [u64],
    id: u16,
    threshold: u64,
    start: Sweep,
) -> Sweep
    requires { Goes queue.old start.place 1024 }
    ensures { swept result queue.new events.new ≡ sweep id threshold (swept start queue.old events.old) 1024 }
{
    let mut w = start;
    for _step in 0..MESSAGE_ROWS {
        if w.place > LAST_MESSAGE {
            return w;
        }
        w = sweep_item(queue, events, id, threshold, w.place as usize, w);
    }
    w
}

// All messages dropped, of a stream that does not wait: paused. The events written.
pub fn sweep_whole(
    queue: &mut [u64; QUEUE_WORDS],
    events: &mut [u64],
    id: u16,
    row: usize,
    s: OutgoingStream,
) -> usize
    requires { (row < 256) × Goes queue.old s.first 1024 }
    ensures { called_with (Accepted result) queue.new events.new ≡ whole_left (sweep_from queue.old events.old id s.low_threshold s.first s.buffered_amount) row s }
{
    let w = sweep_chain(
        queue,
        events,
        id,
        s.low_threshold,
        Sweep {
            place: s.first,
            count: 0,
            amount: s.buffered_amount,
        },
    );
    let mut o = with_pause(s, PauseState::Paused);
    o.buffered_amount = w.amount;
    o.first = NO_MESSAGE;
    o.last = NO_MESSAGE;
    store_stream(queue, row, o);
    w.count
}

// The closed stream without messages: paused.
fn close_whole(
    queue: &mut [u64; QUEUE_WORDS],
    events: &mut [u64],
    id: u16,
    row: usize,
    s: OutgoingStream,
) -> Result<usize, Refusal>
    requires { row < 256 }
    ensures { called_with (as_call result) queue.new events.new ≡ close_whole queue.old events.old id row s }
{
    let sweeps = may_sweep(&*queue, s.first, s.buffered_amount);
    if sweeps {
        let stopped = remove_stream(queue, id);
        if stopped {
            let k = sweep_whole(queue, events, id, row, s);
            return Ok(k);
        }
    }
    Err(Refusal::WordsBroken)
}

// The messages behind a half-sent head dropped: pending. The events written.
pub fn sweep_behind(
    queue: &mut [u64; QUEUE_WORDS],
    events: &mut [u64],
    id: u16,
    row: usize,
    s: OutgoingStream,
    next: u64,
) -> usize
    requires { (row < 256) × (s.first < 1024) × Goes queue.old next 1024 }
    ensures { called_with (Accepted result) queue.new events.new ≡ behind_left (sweep_from queue.old events.old id s.low_threshold next s.buffered_amount) row s }
{
    let w = sweep_chain(
        queue,
        events,
        id,
        s.low_threshold,
        Sweep {
            place: next,
            count: 0,
            amount: s.buffered_amount,
        },
    );
    store_next(queue, s.first as usize, NO_MESSAGE);
    let mut o = with_pause(s, PauseState::Pending);
    o.buffered_amount = w.amount;
    o.last = s.first;
    store_stream(queue, row, o);
    w.count
}

// The closed stream with its half-sent head alone: pending.
fn close_behind(
    queue: &mut [u64; QUEUE_WORDS],
    events: &mut [u64],
    id: u16,
    row: usize,
    s: OutgoingStream,
    next: u64,
) -> Result<usize, Refusal>
    requires { (row < 256) × (s.first < 1024) }
    ensures { called_with (as_call result) queue.new events.new ≡ close_behind queue.old events.old id row s next }
{
    let sweeps = may_sweep(&*queue, next, s.buffered_amount);
    if sweeps {
        let k = sweep_behind(queue, events, id, row, s, next);
        return Ok(k);
    }
    Err(Refusal::WordsBroken)
}

// An open stream closed: "It drops every message at offset 0; a remaining half-sent one makes the stream pending, none makes it
// paused."
fn close_open(
    queue: &mut [u64; QUEUE_WORDS],
    events: &mut [u64],
    id: u16,
    row: usize,
    s: OutgoingStream,
) -> Result<usize, Refusal>
    requires { row < 256 }
    ensures { called_with (as_call result) queue.new events.new ≡ close_open_words queue.old events.old id row s }
{
    if s.first > NO_MESSAGE {
        return Err(Refusal::WordsBroken);
    }
    if s.first == NO_MESSAGE {
        let o = with_pause(s, PauseState::Paused);
        store_stream(queue, row, o);
        return Ok(0);
    }
    let m = load_item(&*queue, s.first as usize);
    if m.offset > 0 {
        return close_behind(queue, events, id, row, s, m.next);
    }
    close_whole(queue, events, id, row, s)
}

// "Closing changes nothing unless the stream is open."
fn close_in(
    queue: &mut [u64; QUEUE_WORDS],
    events: &mut [u64],
    id: u16,
    row: usize,
) -> Result<usize, Refusal>
    requires { row < 256 }
    ensures { called_with (as_call result) queue.new events.new ≡ close_in queue.old events.old id row }
{
    let s = load_stream(&*queue, row);
    let state = s.pause_state;
    let open = state.is_open();
    if open {
        return close_open(queue, events, id, row, s);
    }
    Ok(0)
}

// A stream that is not known becomes known and paused.
pub fn close_new(queue: &mut [u64; QUEUE_WORDS], id: u16, position: usize)
    requires { (position ≤ known_count queue.old) × (known_count queue.old < 256) }
    ensures { queue.new ≡ inserted queue.old position id (paused_new (new_stream_words (options_at queue.old))) }
{
    let o = load_options(&*queue);
    let s = new_stream(o);
    let closed = with_pause(s, PauseState::Paused);
    insert_stream(queue, position, id, closed);
}

// Closes a stream; one that is not known becomes known and paused.
pub fn prepare_reset_stream(
    queue: &mut [u64; QUEUE_WORDS],
    events: &mut [u64],
    id: u16,
) -> Result<usize, Refusal>
    ensures { called_with (as_call result) queue.new events.new ≡ close queue.old events.old id }
{
    if events.len() < EVENT_WORDS {
        return Err(Refusal::EventListShort);
    }
    let place = look_up(&*queue, id)?;
    match place {
        Place::Row(row) => close_in(queue, events, id, row),
        Place::New(position) => {
            close_new(queue, id, position);
            Ok(0)
        }
    }
}
