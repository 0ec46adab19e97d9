// A head is dropped in its stream's state, by a discard or as expired: the scheduler, the state that the stream is left in, the
// chain and the events.
ghost use Rattle.std.specs.Prelude.{◌≡◌, true, ◌<◌};
ghost use Rattle.queue_words.specs.Header.{totals_at};
ghost use Rattle.queue_words.specs.Items.{item_at};
ghost use Rattle.queue_words.specs.Streams.{stream_at_words};
ghost use Rattle.payload_store.specs.Dropping.{drop_code_words};
ghost use Rattle.stream_scheduler.specs.Words.{outcome};
ghost use Rattle.queue_streams.specs.Answers.{as_call};
ghost use Rattle.queue_streams.specs.Settings.{called_with};
ghost use Rattle.queue_streams.specs.Waiting.{parameters_for};
ghost use Rattle.queue_streams.specs.Call.{Accepted};
ghost use Rattle.message_chains.specs.Dropping.{scheduled_behind, end_pending_words, behind_dropped, dropped_in_state, MayDrop};

use crate::amounts::remaining;
use crate::heads::{drop_head, head_code};
use queue_streams::waiting::{head_size, parameters_for};
use queue_words::QUEUE_WORDS;
use queue_words::active::SchedulingParameters;
use queue_words::header::load_totals;
use queue_words::items::{Item, load_item};
use queue_words::streams::{OutgoingStream, PauseState, load_stream};
use stream_scheduler::own::{remove_own, set_own};
use stream_scheduler::{remove_stream, set_bytes_remaining};
use types::Refusal;

// How a stream of this priority waits.
fn parameters_in(queue: &[u64; QUEUE_WORDS], priority: u16) -> SchedulingParameters
    ensures { result ≡ parameters_for (totals_at queue.now).interleaving priority }
{
    let t = load_totals(queue);
    parameters_for(t.interleaving, priority)
}

// The scheduler after a drop: a pending stream, which is now paused, stops waiting; any other waits with what is behind.
fn schedule_behind(queue: &mut [u64; QUEUE_WORDS], id: u16, s: OutgoingStream, next: u64) -> bool
    ensures { outcome result queue.new ≡ scheduled_behind queue.old id s next }
{
    let state = s.pause_state;
    let pending = state.is_pending();
    if pending {
        return remove_stream(queue, id);
    }
    let bytes = head_size(&*queue, next);
    let p = parameters_in(&*queue, s.priority);
    set_bytes_remaining(queue, id, bytes, p)
}

// The same, where the scheduler does not refuse it.
fn schedule_own(queue: &mut [u64; QUEUE_WORDS], id: u16, s: OutgoingStream, next: u64)
    requires { (scheduled_behind queue.old id s next).done ≡ true }
    ensures { outcome true queue.new ≡ scheduled_behind queue.old id s next }
{
    let state = s.pause_state;
    let pending = state.is_pending();
    if pending {
        remove_own(queue, id);
        return;
    }
    let bytes = head_size(&*queue, next);
    let p = parameters_in(&*queue, s.priority);
    set_own(queue, id, bytes, p);
}

// "When a pending stream's message ends or is discarded, it is paused"; document 02, 3/13: "When a pending stream's half-sent head
// expires, the stream becomes paused".
pub fn end_pending(state: PauseState) -> PauseState
    ensures { result ≡ end_pending_words state }
{
    match state {
        PauseState::NotPaused => PauseState::NotPaused,
        PauseState::Pending => PauseState::Paused,
        PauseState::Paused => PauseState::Paused,
        PauseState::Resetting => PauseState::Resetting,
    }
}

// The scheduler is the first to be written, and refuses before it writes. The head may go.
fn drop_behind(
    queue: &mut [u64; QUEUE_WORDS],
    events: &mut [u64],
    k: usize,
    id: u16,
    row: usize,
    s: OutgoingStream,
    m: Item,
) -> Result<usize, Refusal>
    requires { (row < 256) × (s.first < 1024) × (drop_code_words queue.old s.first ≡ 0) }
    ensures { called_with (as_call result) queue.new events.new ≡ behind_dropped queue.old events.old k id row s m }
{
    let scheduled = schedule_behind(queue, id, s, m.next);
    if scheduled {
        let state = s.pause_state;
        let after = end_pending(state);
        let k1 = drop_head(queue, events, k, id, row, s, after, m);
        return Ok(k1);
    }
    Err(Refusal::WordsBroken)
}

// Drops the head m of the stream s, after k events: the events so far, or 16.
fn drop_in_state(
    queue: &mut [u64; QUEUE_WORDS],
    events: &mut [u64],
    k: usize,
    id: u16,
    row: usize,
    s: OutgoingStream,
    m: Item,
) -> Result<usize, Refusal>
    requires { (row < 256) × (s.first < 1024) }
    ensures { called_with (as_call result) queue.new events.new ≡ dropped_in_state queue.old events.old k id row s m }
{
    let n = remaining(m);
    head_code(&*queue, s, s.first as usize, m.next, n)?;
    drop_behind(queue, events, k, id, row, s, m)
}

// Drops the head of the stream in a row. Called by all who drop a head in its stream's state: handed on to a function with several
// callers, stream and head would go through memory whole.
pub fn drop_first(
    queue: &mut [u64; QUEUE_WORDS],
    events: &mut [u64],
    k: usize,
    id: u16,
    row: usize,
) -> Result<usize, Refusal>
    requires { (row < 256) × ((stream_at_words queue.old row).first < 1024) }
    ensures { called_with (as_call result) queue.new events.new ≡ dropped_in_state queue.old events.old k id row (stream_at_words queue.old row) (item_at queue.old (stream_at_words queue.old row).first) }
{
    let s = load_stream(&*queue, row);
    let m = load_item(&*queue, s.first as usize);
    drop_in_state(queue, events, k, id, row, s, m)
}

// Drops the head of the stream in a row, where the tests say that it may be dropped: the events so far. The tests are not made again.
pub fn drop_own(
    queue: &mut [u64; QUEUE_WORDS],
    events: &mut [u64],
    k: usize,
    id: u16,
    row: usize,
) -> usize
    requires { MayDrop queue.old id row }
    ensures { called_with (Accepted result) queue.new events.new ≡ dropped_in_state queue.old events.old k id row (stream_at_words queue.old row) (item_at queue.old (stream_at_words queue.old row).first) }
{
    let s = load_stream(&*queue, row);
    let m = load_item(&*queue, s.first as usize);
    schedule_own(queue, id, s, m.next);
    let state = s.pause_state;
    let after = end_pending(state);
    drop_head(queue, events, k, id, row, s, after, m)
}
