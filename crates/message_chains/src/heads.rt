// The head of a stream: its first message.
ghost use Rattle.std.specs.Prelude.{◌≡◌, ◌<◌};
ghost use Rattle.types.specs.Refusal.{broken_number};
ghost use Rattle.payload_store.specs.Dropping.{drop_code_words};
ghost use Rattle.message_chains.specs.Notes.{notes};
ghost use Rattle.message_chains.specs.Amounts.{rest};
ghost use Rattle.message_chains.specs.Heads.{head_code, released, last_behind, without_head, sent_notes, drop_notes, head_dropped};

use crate::amounts::{minus, remaining};
use crate::notes::{lifecycle_events, low_event};
use payload_store::{drop_code, drop_payload};
use queue_words::QUEUE_WORDS;
use queue_words::header::{load_options, load_totals, store_totals};
use queue_words::items::{Item, store_next};
use queue_words::limits::NO_MESSAGE;
use queue_words::streams::{OutgoingStream, PauseState, store_stream, with_pause};
use types::refusal::Broken;

// May n bytes go with the message in this place, the head of a stream. Reads only.
pub fn head_code(
    queue: &[u64; QUEUE_WORDS],
    s: OutgoingStream,
    place: usize,
    next: u64,
    n: u64,
) -> Result<(), Broken>
    ensures { broken_number result ≡ head_code queue.now s place next n }
{
    let t = load_totals(queue);
    if n > t.total {
        return Err(Broken);
    }
    if n > s.buffered_amount {
        return Err(Broken);
    }
    if t.waiting == 0 {
        return Err(Broken);
    }
    if next > NO_MESSAGE {
        return Err(Broken);
    }
    drop_code(queue, place)
}

// A message that is gone: its payload is dropped, its place comes first among the free ones, one message and n bytes fewer wait. Its
// test (`drop_code`) has passed.
pub fn release(queue: &mut [u64; QUEUE_WORDS], place: usize, n: u64)
    requires { (place < 1024) × (drop_code_words queue.old place ≡ 0) }
    ensures { queue.new ≡ released queue.old place n }
{
    drop_payload(queue, place);
    let mut t = load_totals(&*queue);
    store_next(queue, place, t.free);
    t.free = place as u64;
    t.waiting = minus(t.waiting, 1);
    t.total = minus(t.total, n);
    store_totals(queue, t);
}

// The last place of what is behind a head.
fn last_behind(next: u64, last: u64) -> u64
    ensures { result ≡ last_behind next last }
{
    if next < NO_MESSAGE {
        return last;
    }
    NO_MESSAGE
}

// A stream in a state without its head and the head's n bytes.
pub fn without_head(s: OutgoingStream, state: PauseState, next: u64, n: u64) -> OutgoingStream
    ensures { result ≡ without_head s state next n }
{
    let mut o = with_pause(s, state);
    o.buffered_amount = minus(s.buffered_amount, n);
    o.first = next;
    o.last = last_behind(next, s.last);
    o
}

// What sending n bytes reports: total, stream.
pub fn sent_events(
    queue: &[u64; QUEUE_WORDS],
    events: &mut [u64],
    k: usize,
    id: u16,
    s: OutgoingStream,
    n: u64,
) -> usize
    ensures { notes events.new result ≡ sent_notes queue.now events.old k id s n }
{
    let o = load_options(queue);
    let t = load_totals(queue);
    let total = minus(t.total, n);
    let k1 = low_event(events, k, 2, 0, o.total_threshold, t.total, total);
    let amount = minus(s.buffered_amount, n);
    low_event(
        events,
        k1,
        1,
        id as u64,
        s.low_threshold,
        s.buffered_amount,
        amount,
    )
}

// Drops the head m of the stream s, which is left in a state: its events, its place, the stream without it. It may go.
pub fn drop_head(
    queue: &mut [u64; QUEUE_WORDS],
    events: &mut [u64],
    k: usize,
    id: u16,
    row: usize,
    s: OutgoingStream,
    state: PauseState,
    m: Item,
) -> usize
    requires { (row < 256) × (s.first < 1024) × (drop_code_words queue.old s.first ≡ 0) }
    ensures { (queue.new ≡ head_dropped queue.old row s state m) × (notes events.new result ≡ drop_notes queue.old events.old k id s (rest m) m.lifecycle_id) }
{
    let n = remaining(m);
    let k1 = sent_events(&*queue, events, k, id, s, n);
    let k2 = lifecycle_events(events, k1, m.lifecycle_id);
    release(queue, s.first as usize, n);
    let o = without_head(s, state, m.next, n);
    store_stream(queue, row, o);
    k2
}
