// The whole-queue reset.
ghost use Rattle.std.specs.Prelude.{◌≡◌, ◌<◌, ◌≤◌, true};
ghost use Rattle.queue_words.specs.Header.{totals_at};
ghost use Rattle.queue_streams.specs.Answers.{as_call};
ghost use Rattle.queue_streams.specs.Settings.{called};
ghost use Rattle.queue_streams.specs.Waiting.{room_for};
ghost use Rattle.queue_streams.specs.Call.{Accepted};
ghost use Rattle.queue_restarts.specs.Reset.{put_back, sum_stream, sum_known, sum_all, whole_stream, whole_item, whole_head_words, reset_in, reset_at, reset_all, sum_of, reset_with, reset_queue};
ghost use Rattle.queue_restarts.specs.Settled.{reset_done_in, reset_done_at, ResetSteps};

use message_chains::amounts::{minus, plus, remaining};
use message_chains::numbers::with_numbers;
use queue_streams::waiting::{reschedule, room_for};
use queue_words::header::{Totals, load_options, load_totals, store_totals};
use queue_words::items::{Item, load_item, store_item};
use queue_words::known::{Known, load_known};
use queue_words::limits::{LAST_MESSAGE, LAST_STREAM, NO_MESSAGE};
use queue_words::streams::{OutgoingStream, PauseState, load_stream, store_stream};
use queue_words::{QUEUE_WORDS, whole};
use types::{Mid, Refusal, Ssn};

// The sent bytes of a head message, which come back.
fn put_back(queue: &[u64; QUEUE_WORDS], first: u64) -> u64
    ensures { result ≡ put_back queue.now first }
{
    if first > LAST_MESSAGE {
        return 0;
    }
    let m = load_item(queue, first as usize);
    let left = remaining(m);
    minus(m.length, left)
}

// A test of all known streams half done: whether no amount so far would pass 2^64 - 1, and the total so far.
#[derive(Clone, Copy)]
pub struct Sum {
    pub fits: bool,
    pub total: u64,
}

fn sum_stream(s: OutgoingStream, back: u64, t: Sum) -> Sum
    ensures { result ≡ sum_stream s back t }
{
    let mut o = t;
    if back > u64::MAX - s.buffered_amount {
        o.fits = false;
        return o;
    }
    if back > u64::MAX - t.total {
        o.fits = false;
        return o;
    }
    o.total = t.total + back;
    o
}

fn sum_known(queue: &[u64; QUEUE_WORDS], place: u64, t: Sum) -> Sum
    ensures { result ≡ sum_known queue.now place t }
{
    if place > LAST_STREAM {
        return Sum {
            fits: false,
            total: t.total,
        };
    }
    let s = load_stream(queue, place as usize);
    let back = put_back(queue, s.first);
    sum_stream(s, back, t)
}

fn sum_all(queue: &[u64; QUEUE_WORDS], total: u64, n: usize) -> Sum
    requires { n ≤ 256 }
    ensures { result ≡ sum_all queue.now total n }
{
    let mut t = Sum {
        fits: true,
        total: total,
    };
    for i in 0..n {
        let k = load_known(queue, i);
        t = sum_known(queue, k.place, t);
    }
    t
}

// The total with what the first n known streams put back, where their places are in their tables and no amount passes 2^64 - 1.
fn total_own(queue: &[u64; QUEUE_WORDS], total: u64, n: usize) -> u64
    requires { (n ≤ 256) × ((sum_all queue.now total n).fits ≡ true) }
    ensures { result ≡ (sum_all queue.now total n).total }
{
    let mut sum = total;
    for i in 0..n {
        let k = load_known(queue, i);
        let s = load_stream(queue, k.place as usize);
        let back = put_back(queue, s.first);
        sum += back;
    }
    sum
}

// "Whole-queue reset opens all streams, zeroes their counters".
fn reset_stream(s: OutgoingStream, back: u64) -> OutgoingStream
    ensures { result ≡ whole_stream s back }
{
    OutgoingStream {
        priority: s.priority,
        pause_state: PauseState::NotPaused,
        next_ssn: Ssn(0),
        next_unordered_mid: Mid(0),
        next_ordered_mid: Mid(0),
        buffered_amount: plus(s.buffered_amount, back),
        low_threshold: s.low_threshold,
        first: s.first,
        last: s.last,
    }
}

// A message put back whole: "keeping its MID, SSN and FSN"; document 02, 6/13: "Strict reset removes the head message's MID and SSN and sets its FSN to 0."
fn whole_item(m: Item, strict: bool) -> Item
    ensures { result ≡ whole_item strict m }
{
    let mut o = m;
    o.offset = 0;
    if strict {
        o.fsn.0 = 0;
        return with_numbers(o, None);
    }
    o
}

// "puts each head message back whole".
fn whole_head(queue: &mut [u64; QUEUE_WORDS], strict: bool, first: usize)
    requires { first < 1024 }
    ensures { queue.new ≡ whole_head_words strict queue.old first }
{
    let m = load_item(&*queue, first);
    let o = whole_item(m, strict);
    store_item(queue, first, o);
}

fn reset_in(
    queue: &mut [u64; QUEUE_WORDS],
    strict: bool,
    interleaving: bool,
    id: u16,
    place: usize,
    s: OutgoingStream,
)
    requires { (place < 256) × (reset_done_in strict queue.old interleaving id place s ≡ true) }
    ensures { queue.new ≡ reset_in strict queue.old interleaving id place s }
{
    let back = put_back(&*queue, s.first);
    let o = reset_stream(s, back);
    store_stream(queue, place, o);
    if s.first < NO_MESSAGE {
        whole_head(queue, strict, s.first as usize);
        reschedule(queue, interleaving, id, s.first, s.priority);
    }
}

fn reset_at(queue: &mut [u64; QUEUE_WORDS], strict: bool, interleaving: bool, k: Known)
    requires { reset_done_at strict queue.old interleaving k ≡ true }
    ensures { queue.new ≡ reset_at strict queue.old interleaving k.id.0 k.place }
{
    let place = k.place as usize;
    let s = load_stream(&*queue, place);
    reset_in(queue, strict, interleaving, k.id.0, place, s);
}

fn reset_all(queue: &mut [u64; QUEUE_WORDS], strict: bool, interleaving: bool, n: usize)
    requires { (n ≤ 256) × ResetSteps strict interleaving queue.old n }
    ensures { queue.new ≡ reset_all strict interleaving queue.old n }
{
    for i in 0..n {
        let k = load_known(&*queue, i);
        reset_at(queue, strict, interleaving, k);
    }
}

// What is written, where the places are in their tables and the rows suffice: the total, and every known stream.
fn reset_to(queue: &mut [u64; QUEUE_WORDS], t: Totals, total: u64)
    requires { (t ≡ totals_at queue.old) × (room_for queue.old true ≡ true) }
    ensures { queue.new ≡ reset_with queue.old total }
{
    whole(&*queue);
    let o = load_options(&*queue);
    let mut risen = t;
    risen.total = total;
    store_totals(queue, risen);
    reset_all(queue, o.strict_restart, t.interleaving, t.known as usize);
}

// The reset where the places are in their tables, the rows suffice and no amount passes 2^64 - 1.
pub fn reset_own(queue: &mut [u64; QUEUE_WORDS])
    requires { (room_for queue.old true ≡ true) × ((sum_of queue.old).fits ≡ true) }
    ensures { called (Accepted 0) queue.new ≡ reset_queue queue.old }
{
    let t = load_totals(&*queue);
    let total = total_own(&*queue, t.total, t.known as usize);
    reset_to(queue, t, total);
}

// "every stream with messages then waits".
pub fn reset(queue: &mut [u64; QUEUE_WORDS]) -> Result<usize, Refusal>
    ensures { called (as_call result) queue.new ≡ reset_queue queue.old }
{
    let room = room_for(&*queue, true);
    if room {
        let t = load_totals(&*queue);
        let sum = sum_all(&*queue, t.total, t.known as usize);
        if sum.fits {
            reset_to(queue, t, sum.total);
            return Ok(0);
        }
    }
    Err(Refusal::WordsBroken)
}
