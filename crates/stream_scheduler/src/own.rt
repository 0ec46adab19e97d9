// The choice, and what follows it, in words of which it is known that the scheduler has at most 256 rows: nothing is tested.
ghost use Rattle.std.specs.Prelude.{◌≡◌, true, ◌<◌, ◌≤◌};
ghost use Rattle.queue_words.specs.Header.{scheduler_at};
ghost use Rattle.stream_scheduler.specs.Own.{peeked_of, HasRow};
ghost use Rattle.active_table.specs.Rows.{seek};
ghost use Rattle.stream_scheduler.specs.Words.{outcome, peek_words, remove_stream_words, set_bytes_remaining_words, begin_waiting, accept_at};

use crate::{
    calculate_vt, drop_row, front_row, remember, schedule_next_chunk, set_new, set_old, take_out,
};
use active_table::groups::refresh;
use active_table::seek;
use queue_words::QUEUE_WORDS;
use queue_words::active::{SchedulingParameters, load_active, store_active};
use queue_words::header::{
    SchedulerState, load_options, load_scheduler_state, store_scheduler_state,
};

// What the scheduler would hand out from.
#[derive(Clone, Copy, Debug, PartialEq, Eq)]
pub enum Front {
    Row(usize),
    Nothing,
}

pub fn peek_own(queue: &[u64; QUEUE_WORDS]) -> Front
    requires { (scheduler_at queue.now).active ≤ 256 }
    ensures { peeked_of result ≡ peek_words queue.now }
{
    let s = load_scheduler_state(queue);
    let n = s.active as usize;
    if n == 0 {
        return Front::Nothing;
    }
    let current = s.current;
    let at = front_row(queue, n, current);
    Front::Row(at)
}

// Ends a stream's waiting.
pub fn remove_own(queue: &mut [u64; QUEUE_WORDS], stream_id: u16)
    requires { (scheduler_at queue.old).active ≤ 256 }
    ensures { outcome true queue.new ≡ remove_stream_words queue.old stream_id }
{
    let s = load_scheduler_state(&*queue);
    let n = s.active as usize;
    let at = seek(&*queue, stream_id, n);
    take_out(queue, stream_id, at, n);
}

// Lets a stream wait with so many bytes in the row `at` of n, or in a new one where `at` is n, or ends its waiting with 0.
pub(crate) fn set_at(
    queue: &mut [u64; QUEUE_WORDS],
    stream_id: u16,
    bytes: u64,
    priority: SchedulingParameters,
    at: usize,
    n: usize,
)
    requires { (n ≡ (scheduler_at queue.old).active) × (at ≡ seek queue.old stream_id n) × ((set_bytes_remaining_words queue.old stream_id bytes priority).done ≡ true) }
    ensures { outcome true queue.new ≡ set_bytes_remaining_words queue.old stream_id bytes priority }
{
    if bytes == 0 {
        take_out(queue, stream_id, at, n);
        return;
    }
    let parameters = u32::from(priority);
    if at < n {
        set_old(queue, stream_id, bytes, parameters, at, n);
        return;
    }
    set_new(queue, stream_id, bytes, parameters, n);
}

// Lets a stream wait with so many bytes, or ends its waiting with 0. It has a row, or one is free, or none is needed.
pub fn set_own(
    queue: &mut [u64; QUEUE_WORDS],
    stream_id: u16,
    bytes: u64,
    priority: SchedulingParameters,
)
    requires { (set_bytes_remaining_words queue.old stream_id bytes priority).done ≡ true }
    ensures { outcome true queue.new ≡ set_bytes_remaining_words queue.old stream_id bytes priority }
{
    let s = load_scheduler_state(&*queue);
    let n = s.active as usize;
    let at = seek(&*queue, stream_id, n);
    set_at(queue, stream_id, bytes, priority, at, n);
}

// Lets a stream wait that has no row, with so many bytes: its row is a new one, and one is free.
pub fn begin_own(
    queue: &mut [u64; QUEUE_WORDS],
    stream_id: u16,
    bytes: u64,
    priority: SchedulingParameters,
)
    requires { (scheduler_at queue.old).active < 256 }
    ensures { outcome true queue.new ≡ begin_waiting queue.old stream_id bytes priority }
{
    let s = load_scheduler_state(&*queue);
    let parameters = u32::from(priority);
    set_new(queue, stream_id, bytes, parameters, s.active as usize);
}

// Hands out bytes of the row `at`: its start moves by their cost, and the system time becomes that start.
pub fn accept_own(queue: &mut [u64; QUEUE_WORDS], at: usize, bytes: u64)
    requires { HasRow queue.old at }
    ensures { outcome true queue.new ≡ accept_at queue.old at bytes }
{
    let s = load_scheduler_state(&*queue);
    let n = s.active as usize;
    let a = load_active(&*queue, at);
    let time = calculate_vt(a.parameters, a.virtual_start_time, bytes);
    if a.bytes_remaining <= bytes {
        drop_row(queue, at, None, time, n);
        refresh(queue, at);
        return;
    }
    let o = load_options(&*queue);
    let left = a.bytes_remaining - bytes;
    let row = schedule_next_chunk(
        o.payload_limit as u64,
        a.stream_id.0,
        a.parameters,
        time,
        left,
    );
    store_active(queue, at, row);
    let current = remember(a.stream_id.0, a.parameters);
    store_scheduler_state(
        queue,
        SchedulerState {
            current,
            system_virtual_time: time,
            ..s
        },
    );
    refresh(queue, at);
}
