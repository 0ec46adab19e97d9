// Handing out a fragment of a stream's head.
ghost use Rattle.std.specs.Prelude.{◌≡◌, ◌<◌, length};
ghost use Rattle.types.specs.Refusal.{broken_number};
ghost use Rattle.payload_store.specs.Dropping.{drop_code_words};
ghost use Rattle.stream_scheduler.specs.Own.{HasRow};
ghost use Rattle.queue_sending.specs.Answers.{as_produced};
ghost use Rattle.queue_sending.specs.Data.{produced_with};
ghost use Rattle.queue_sending.specs.Produced.{Fragment};
ghost use Rattle.queue_sending.specs.Fragment.{least_of, send_code, next_first, finished, went_on_words, went_further, written_sent, sent, chosen_code, handed_out_words};

use crate::data::{DataToSend, Produced, data_to_send};
use crate::numbers::{moved_on, numbered_item, numbered_stream};
use crate::progress::store_progress;
use message_chains::amounts::{minus, remaining};
use message_chains::dropping::end_pending;
use message_chains::heads::{head_code, release, sent_events, without_head};
use payload_store::{read_code, read_own};
use queue_streams::events::EVENT_PLACES;
use queue_streams::waiting::{head_size, parameters_for};
use queue_words::QUEUE_WORDS;
use queue_words::active::load_active;
use queue_words::header::{load_totals, store_totals};
use queue_words::items::{Item, load_item, store_item};
use queue_words::limits::{LAST_MESSAGE, LAST_STREAM_ROW, NO_MESSAGE};
use queue_words::streams::{OutgoingStream, PauseState, load_stream, store_stream};
use stream_scheduler::anew::accept_last_own;
use stream_scheduler::own::accept_own;
use types::Refusal;
use types::refusal::Broken;

// The most events before a fragment, which adds two at most.
const MOST_BEFORE_FRAGMENT: usize = EVENT_PLACES - 2;

fn least(a: u64, b: u64) -> u64
    ensures { result ≡ least_of a b }
{
    if a < b {
        return a;
    }
    b
}

// May n bytes of the head m of the stream s be handed out. Reads only.
fn send_code(
    queue: &[u64; QUEUE_WORDS],
    len: u64,
    s: OutgoingStream,
    m: Item,
    n: u64,
    room: u64,
) -> Result<(), Broken>
    ensures { broken_number result ≡ send_code queue.now len s m n room }
{
    let left = remaining(m);
    if n > left {
        return Err(Broken);
    }
    read_code(queue, len, s.first as usize, m.offset, n, room)?;
    head_code(queue, s, s.first as usize, m.next, n)
}

// "a message behind it, unless the stream is now paused, then makes the stream begin anew": the place of the message with which
// the stream waits, 1024 for none.
fn next_first(state: PauseState, next: u64) -> u64
    ensures { result ≡ next_first state next }
{
    let paused = state.is_paused();
    if paused {
        return NO_MESSAGE;
    }
    next
}

// After a last fragment of n bytes: the message m is gone from the stream s, which has given its numbers and waits with what is behind.
// It may go: nothing is tested.
fn finish(
    queue: &mut [u64; QUEUE_WORDS],
    at: usize,
    id: u16,
    row: usize,
    s: OutgoingStream,
    m: Item,
    n: u64,
)
    requires { (row < 256) × (s.first < 1024) × HasRow queue.old at × (drop_code_words queue.old s.first ≡ 0) }
    ensures { queue.new ≡ finished queue.old at id row s m n }
{
    let state = s.pause_state;
    let after = end_pending(state);
    let t = load_totals(&*queue);
    let first = next_first(after, m.next);
    let bytes = head_size(&*queue, first);
    let p = parameters_for(t.interleaving, s.priority);
    accept_last_own(queue, at, id, n, bytes, p);
    release(queue, s.first as usize, n);
    let o = without_head(s, after, m.next, n);
    store_stream(queue, row, o);
}

// After any other fragment of n bytes.
fn go_on(queue: &mut [u64; QUEUE_WORDS], row: usize, s: OutgoingStream, m: Item, n: u64)
    requires { (row < 256) × (s.first < 1024) }
    ensures { queue.new ≡ went_on_words queue.old row s m n }
{
    let mut t = load_totals(&*queue);
    t.total = minus(t.total, n);
    store_totals(queue, t);
    let item = moved_on(m, n);
    store_item(queue, s.first as usize, item);
    let mut o = s;
    o.buffered_amount = minus(s.buffered_amount, n);
    store_stream(queue, row, o);
}

// The same where the message had its numbers before: only the words that then change are stored.
fn go_further(queue: &mut [u64; QUEUE_WORDS], row: usize, s: OutgoingStream, m: Item, n: u64)
    requires { (row < 256) × (s.first < 1024) }
    ensures { queue.new ≡ went_further queue.old row s m n }
{
    let t = load_totals(&*queue);
    let total = minus(t.total, n);
    let amount = minus(s.buffered_amount, n);
    let item = moved_on(m, n);
    let fsn = item.fsn;
    store_progress(
        queue,
        row,
        s.first as usize,
        total,
        amount,
        fsn,
        item.offset,
    );
}

// The words after a fragment of n bytes of the numbered message m of the stream s, which has given its numbers; `had` says whether the
// message had them before. It may go.
fn write_sent(
    queue: &mut [u64; QUEUE_WORDS],
    at: usize,
    id: u16,
    row: usize,
    s: OutgoingStream,
    m: Item,
    n: u64,
    had: bool,
)
    requires { (row < 256) × (s.first < 1024) × HasRow queue.old at × (drop_code_words queue.old s.first ≡ 0) }
    ensures { queue.new ≡ written_sent queue.old at id row s m n had }
{
    let left = remaining(m);
    if n == left {
        finish(queue, at, id, row, s, m, n);
        return;
    }
    accept_own(queue, at, n);
    if had {
        go_further(queue, row, s, m, n);
        return;
    }
    go_on(queue, row, s, m, n);
}

// A fragment handed out: how many events are written then, and what goes with it.
#[derive(Clone, Copy, Debug, PartialEq, Eq)]
pub struct Handed {
    pub count: usize,
    pub fragment: DataToSend,
}

// The fragment of n bytes of the head m of the stream s.
fn send(
    queue: &mut [u64; QUEUE_WORDS],
    store: &[u8],
    events: &mut [u64],
    buffer: &mut [u8],
    k: usize,
    at: usize,
    id: u16,
    row: usize,
    s: OutgoingStream,
    m: Item,
    n: u64,
) -> Handed
    requires { (row < 256) × (s.first < 1024) × (send_code queue.old (length store.now) s m n (length buffer.old) ≡ 0) × HasRow queue.old at }
    ensures { produced_with (Fragment result.count result.fragment) queue.new events.new buffer.new ≡ sent queue.old store.now events.old buffer.old k at id row s m n }
{
    read_own(&*queue, store, s.first as usize, m.offset, n, buffer);
    let k1 = sent_events(&*queue, events, k, id, s, n);
    let item = numbered_item(s, m);
    let stream = numbered_stream(s, m);
    let numbers = m.numbers;
    let had = numbers.is_some();
    write_sent(queue, at, id, row, stream, item, n, had);
    let d = data_to_send(id, item, n);
    Handed {
        count: k1,
        fragment: d,
    }
}

// May at most `size` bytes of the chosen head be handed out after k events. Reads only.
pub fn chosen_code(
    queue: &[u64; QUEUE_WORDS],
    len: u64,
    room: u64,
    size: u64,
    k: usize,
    at: usize,
    row: usize,
) -> Result<(), Broken>
    ensures { broken_number result ≡ chosen_code queue.now len room size k at row }
{
    if k > MOST_BEFORE_FRAGMENT {
        return Err(Broken);
    }
    if at > LAST_STREAM_ROW {
        return Err(Broken);
    }
    if row > LAST_STREAM_ROW {
        return Err(Broken);
    }
    let s = load_stream(queue, row);
    if s.first > LAST_MESSAGE {
        return Err(Broken);
    }
    let m = load_item(queue, s.first as usize);
    let a = load_active(queue, at);
    let n = least(a.bytes_remaining, size);
    send_code(queue, len, s, m, n, room)
}

// Hands out at most `size` bytes of the chosen head, after k events, where the test says that they may be handed out: it is not made
// again.
pub fn hand_own(
    queue: &mut [u64; QUEUE_WORDS],
    store: &[u8],
    events: &mut [u64],
    buffer: &mut [u8],
    size: u64,
    k: usize,
    at: usize,
    id: u16,
    row: usize,
) -> Handed
    requires { (chosen_code queue.old (length store.now) (length buffer.old) size k at row ≡ 0) × HasRow queue.old at }
    ensures { produced_with (Fragment result.count result.fragment) queue.new events.new buffer.new ≡ handed_out_words queue.old store.now events.old buffer.old size k at id row }
{
    let s = load_stream(&*queue, row);
    let m = load_item(&*queue, s.first as usize);
    let a = load_active(&*queue, at);
    let n = least(a.bytes_remaining, size);
    send(queue, store, events, buffer, k, at, id, row, s, m, n)
}

// Hands out at most `size` bytes of the chosen head, after k events; a look has found the row. It has one caller, which answers what it
// answers: so what goes with a fragment is written once.
pub fn hand_out(
    queue: &mut [u64; QUEUE_WORDS],
    store: &[u8],
    events: &mut [u64],
    buffer: &mut [u8],
    size: u64,
    k: usize,
    at: usize,
    id: u16,
    row: usize,
) -> Result<Produced, Refusal>
    requires { HasRow queue.old at }
    ensures { produced_with (as_produced result) queue.new events.new buffer.new ≡ handed_out_words queue.old store.now events.old buffer.old size k at id row }
{
    chosen_code(
        &*queue,
        store.len() as u64,
        buffer.len() as u64,
        size,
        k,
        at,
        row,
    )?;
    let h = hand_own(queue, store, events, buffer, size, k, at, id, row);
    let d = h.fragment;
    Ok(Produced::Fragment(h.count, d))
}
