// The stream scheduler (tx/stream_scheduler.rs) over the table of active streams in the queue's words. Rows are looked up by way of
// crate active_table, whose functions the queue lends the table to.
//
// A stream that waits has a row. Rows stand in no order: a new one at the end, the last one in the place of one that is removed, and a
// stream that begins anew keeps its row. The functions here are total: where the number of rows is above 256, or a 257th would be needed, they
// answer `false` or `Broken`, and nothing has changed. The caller then answers 16. Those of src/own and src/anew ask for what is tested here.
#![tactic(auto)]

pub mod anew;
pub mod own;

ghost use Rattle.std.specs.Prelude.{◌≡◌, true};
ghost use Prim.Native.Nat.{◌<◌, ◌≤◌};
ghost use Rattle.queue_model.specs.Scheduler.{cost};
ghost use Rattle.queue_model.specs.Types.{weighted};
ghost use Rattle.stream_scheduler.specs.Rows.{advanced, scheduled_row};
ghost use Rattle.stream_scheduler.specs.declared.Peeked.TheVariants.{At};
ghost use Rattle.stream_scheduler.specs.Words.{outcome, forgotten, rested, remembered_by, current_row, peek_among, peek_words, waits_in, dropped_row, taken_out, remove_stream_words, set_in, set_bytes_remaining_words};
ghost use Rattle.stream_scheduler.specs.Own.{can_wait};

use crate::own::{remove_own, set_at};
use active_table::groups::least_known;
use active_table::seek;
use queue_words::QUEUE_WORDS;
use queue_words::active::{ActiveStreamInfo, SchedulingParameters, load_active, store_active};
use queue_words::header::{
    SchedulerState, load_options, load_scheduler_state, store_scheduler_state,
};
use queue_words::limits::{STREAM_ROWS, STREAMS};
use types::StreamId;

// "Sums stop at 2^64 - 1."; "bytes × 1,000,000 / weight rounded down, weight 0 counting as 1".
fn weighted_cost(weight: u16, bytes: u64) -> u64
    ensures { result ≡ cost (weighted weight) bytes }
{
    bytes.saturating_mul(1000000) / weight.max(1) as u64
}

// The time reached by handing out `bytes` from `start` on.
fn calculate_vt(parameters: u32, start: u64, bytes: u64) -> u64
    ensures { result ≡ advanced parameters start bytes }
{
    let increment = match SchedulingParameters::from(parameters) {
        SchedulingParameters::RoundRobin => 1,
        SchedulingParameters::WeightedFairQueuing(weight) => weighted_cost(weight, bytes),
    };
    start.saturating_add(increment)
}

// A stream's row from a start on: "finish = start + cost of min(remaining, payload limit)".
fn schedule_next_chunk(
    limit: u64,
    stream_id: u16,
    parameters: u32,
    start: u64,
    bytes: u64,
) -> ActiveStreamInfo
    ensures { result ≡ scheduled_row limit stream_id parameters start bytes }
{
    ActiveStreamInfo {
        stream_id: StreamId(stream_id),
        parameters,
        virtual_start_time: start,
        virtual_finish_time: calculate_vt(parameters, start, bytes.min(limit)),
        bytes_remaining: bytes,
    }
}

// What the scheduler would hand out from.
#[derive(Clone, Copy, Debug, PartialEq, Eq)]
pub enum Peeked {
    At(usize),
    Nothing,
    Broken,
}

// The row of the remembered stream, or n.
fn current_row(queue: &[u64; QUEUE_WORDS], n: usize, current: Option<StreamId>) -> usize
    requires { n ≤ 256 }
    ensures { result ≡ current_row queue.now n current }
{
    match current {
        None => n,
        Some(id) => seek(queue, id.0, n),
    }
}

// "Choice: the stream in mid-message if one is remembered, else the smallest finish time, then the smallest id": of n rows.
fn front_row(queue: &[u64; QUEUE_WORDS], n: usize, current: Option<StreamId>) -> usize
    requires { (0 < n) × (n ≤ 256) }
    ensures { At result ≡ peek_among queue.now n (current_row queue.now n current) }
{
    let i = current_row(queue, n, current);
    if i < n {
        return i;
    }
    let best = least_known(queue, n);
    best.at
}

// The choice, or that nothing waits.
pub fn peek(queue: &[u64; QUEUE_WORDS]) -> Peeked
    ensures { result ≡ peek_words queue.now }
{
    let s = load_scheduler_state(queue);
    if s.active > STREAMS {
        return Peeked::Broken;
    }
    let n = s.active as usize;
    if n == 0 {
        return Peeked::Nothing;
    }
    let current = s.current;
    let at = front_row(queue, n, current);
    Peeked::At(at)
}

// Whether a stream waits: it has a row.
pub fn waits(queue: &[u64; QUEUE_WORDS], stream_id: u16) -> bool
    ensures { result ≡ waits_in queue.now stream_id }
{
    let s = load_scheduler_state(queue);
    if s.active > STREAMS {
        return false;
    }
    let n = s.active as usize;
    let at = seek(queue, stream_id, n);
    at < n
}

// "The system time is 0 when no stream waits."
fn rest_time(time: u64, n: u64) -> u64
    ensures { result ≡ rested time n }
{
    if n == 0 {
        return 0;
    }
    time
}

// The remembered stream, unless it is this one.
fn forget(current: Option<StreamId>, stream_id: u16) -> Option<StreamId>
    ensures { result ≡ forgotten current stream_id }
{
    current.filter(|id| id.0 != stream_id)
}

// Takes a row out: the last of n rows takes its place.
fn drop_row(
    queue: &mut [u64; QUEUE_WORDS],
    at: usize,
    current: Option<StreamId>,
    time: u64,
    n: usize,
)
    requires { (at < n) × (n ≤ 256) }
    ensures { queue.new ≡ dropped_row queue.old at current time n }
{
    let last = load_active(&*queue, n - 1);
    let left = (n - 1) as u64;
    let rest = rest_time(time, left);
    store_active(queue, at, last);
    store_scheduler_state(
        queue,
        SchedulerState {
            current,
            system_virtual_time: rest,
            active: left,
        },
    );
}

// Ends a stream's waiting, whose row is `at`, or that has none where `at` is n.
fn take_out(queue: &mut [u64; QUEUE_WORDS], stream_id: u16, at: usize, n: usize)
    requires { n ≤ 256 }
    ensures { queue.new ≡ taken_out queue.old stream_id at n }
{
    let s = load_scheduler_state(&*queue);
    let current = forget(s.current, stream_id);
    let time = s.system_virtual_time;
    if at < n {
        drop_row(queue, at, current, time, n);
        return;
    }
    let left = n as u64;
    let rest = rest_time(time, left);
    store_scheduler_state(
        queue,
        SchedulerState {
            current,
            system_virtual_time: rest,
            active: left,
        },
    );
}

// Ends a stream's waiting.
pub fn remove_stream(queue: &mut [u64; QUEUE_WORDS], stream_id: u16) -> bool
    ensures { outcome result queue.new ≡ remove_stream_words queue.old stream_id }
{
    let s = load_scheduler_state(&*queue);
    if s.active > STREAMS {
        return false;
    }
    remove_own(queue, stream_id);
    true
}

// Sets the row `at` of n, a stream's.
fn set_old(
    queue: &mut [u64; QUEUE_WORDS],
    stream_id: u16,
    bytes: u64,
    parameters: u32,
    at: usize,
    n: usize,
)
    requires { (at < n) × (n ≤ 256) }
    ensures { outcome true queue.new ≡ set_in queue.old stream_id bytes parameters at n }
{
    let o = load_options(&*queue);
    let a = load_active(&*queue, at);
    let row = schedule_next_chunk(
        o.payload_limit as u64,
        stream_id,
        parameters,
        a.virtual_start_time,
        bytes,
    );
    store_active(queue, at, row);
}

// Sets a new row behind the n that there are.
fn set_new(queue: &mut [u64; QUEUE_WORDS], stream_id: u16, bytes: u64, parameters: u32, n: usize)
    requires { n < 256 }
    ensures { outcome true queue.new ≡ set_in queue.old stream_id bytes parameters n n }
{
    let o = load_options(&*queue);
    let s = load_scheduler_state(&*queue);
    let start = s.system_virtual_time;
    let row = schedule_next_chunk(o.payload_limit as u64, stream_id, parameters, start, bytes);
    store_active(queue, n, row);
    store_scheduler_state(
        queue,
        SchedulerState {
            active: (n + 1) as u64,
            ..s
        },
    );
}

// Whether there is a row of n for so many bytes: that at `at`, a free one, or none is needed.
fn can_wait(bytes: u64, at: usize, n: usize) -> bool
    ensures { result ≡ can_wait bytes at n }
{
    bytes == 0 || at < n || n < STREAM_ROWS
}

// Lets a stream wait with so many bytes, or ends its waiting with 0.
pub fn set_bytes_remaining(
    queue: &mut [u64; QUEUE_WORDS],
    stream_id: u16,
    bytes: u64,
    priority: SchedulingParameters,
) -> bool
    ensures { outcome result queue.new ≡ set_bytes_remaining_words queue.old stream_id bytes priority }
{
    let s = load_scheduler_state(&*queue);
    if s.active > STREAMS {
        return false;
    }
    let n = s.active as usize;
    let at = seek(&*queue, stream_id, n);
    let there = can_wait(bytes, at, n);
    if there {
        set_at(queue, stream_id, bytes, priority, at, n);
        return true;
    }
    false
}

// "Without interleaving a stream is remembered from any fragment but a last one".
fn remember(stream_id: u16, parameters: u32) -> Option<StreamId>
    ensures { result ≡ remembered_by stream_id parameters }
{
    match SchedulingParameters::from(parameters) {
        SchedulingParameters::RoundRobin => Some(StreamId(stream_id)),
        SchedulingParameters::WeightedFairQueuing(_) => None,
    }
}
