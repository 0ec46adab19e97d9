// The last fragment of a message, and the message behind it. The stream's row is not taken out and put back: it stays where it is.
ghost use Rattle.std.specs.Prelude.{◌≡◌, true, ◌<◌, ◌≤◌};
ghost use Rattle.stream_scheduler.specs.Words.{outcome};
ghost use Rattle.stream_scheduler.specs.Anew.{begun_anew, accept_last_words};
ghost use Rattle.stream_scheduler.specs.Own.{HasRow};

use crate::{calculate_vt, drop_row, rest_time, schedule_next_chunk};
use active_table::groups::refresh;
use queue_words::QUEUE_WORDS;
use queue_words::active::{SchedulingParameters, load_active, store_active};
use queue_words::header::{
    SchedulerState, load_options, load_scheduler_state, store_scheduler_state,
};

// Of n rows the row `at` begins anew with so many bytes, at a time; no stream is remembered.
fn begin_anew(
    queue: &mut [u64; QUEUE_WORDS],
    at: usize,
    stream_id: u16,
    time: u64,
    bytes: u64,
    parameters: u32,
    n: usize,
)
    requires { (at < n) × (n ≤ 256) }
    ensures { queue.new ≡ begun_anew queue.old at stream_id time bytes parameters n }
{
    let o = load_options(&*queue);
    let others = (n - 1) as u64;
    let start = rest_time(time, others);
    let row = schedule_next_chunk(o.payload_limit as u64, stream_id, parameters, start, bytes);
    store_active(queue, at, row);
    store_scheduler_state(
        queue,
        SchedulerState {
            current: None,
            system_virtual_time: start,
            active: n as u64,
        },
    );
}

// Hands out the last `sent` bytes of the row `at`, a stream's: it begins anew with the bytes of the message behind them, or waits no
// more where these are 0. That there is such a row is known: nothing is tested.
pub fn accept_last_own(
    queue: &mut [u64; QUEUE_WORDS],
    at: usize,
    stream_id: u16,
    sent: u64,
    bytes: u64,
    priority: SchedulingParameters,
)
    requires { HasRow queue.old at }
    ensures { outcome true queue.new ≡ accept_last_words queue.old at stream_id sent bytes priority }
{
    let s = load_scheduler_state(&*queue);
    let n = s.active as usize;
    let a = load_active(&*queue, at);
    let time = calculate_vt(a.parameters, a.virtual_start_time, sent);
    if bytes == 0 {
        drop_row(queue, at, None, time, n);
        refresh(queue, at);
        return;
    }
    let parameters = u32::from(priority);
    begin_anew(queue, at, stream_id, time, bytes, parameters, n);
    refresh(queue, at);
}
