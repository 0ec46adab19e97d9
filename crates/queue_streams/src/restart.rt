// Commit, rollback and switching interleaving: what lets many streams wait anew. The rows are settled before the first write.
ghost use Rattle.std.specs.Prelude.{true, false, ◌≡◌, ◌<◌, ◌≤◌};
ghost use Rattle.queue_streams.specs.Answers.{as_call};
ghost use Rattle.queue_streams.specs.Settings.{called};
ghost use Rattle.queue_streams.specs.Restart.{opened, reopened_in, reopened_at, reopened_all, reopen, switched_at, switched_all, alike, set_interleaving_words};
ghost use Rattle.queue_streams.specs.Settled.{reopen_done_in, reopen_done_at, ReopenSteps, switch_done_at, SwitchSteps};
ghost use Rattle.queue_streams.specs.Waiting.{room_for};
ghost use Rattle.queue_streams.specs.Call.{Accepted};

use crate::commit::{commit_all, nothing_starts};
use crate::waiting::{reschedule, room_for};
use queue_words::header::{load_totals, store_totals};
use queue_words::known::{Known, load_known};
use queue_words::limits::NO_MESSAGE;
use queue_words::streams::{OutgoingStream, PauseState, load_stream, store_stream, with_pause};
use queue_words::{QUEUE_WORDS, whole};
use types::{Mid, Refusal, Ssn};

pub(crate) fn open_stream(zeroed: bool, s: OutgoingStream) -> OutgoingStream
    ensures { result ≡ opened zeroed s }
{
    if zeroed {
        return OutgoingStream {
            priority: s.priority,
            pause_state: PauseState::NotPaused,
            next_ssn: Ssn(0),
            next_unordered_mid: Mid(0),
            next_ordered_mid: Mid(0),
            buffered_amount: s.buffered_amount,
            low_threshold: s.low_threshold,
            first: s.first,
            last: s.last,
        };
    }
    with_pause(s, PauseState::NotPaused)
}

fn reopen_in(
    queue: &mut [u64; QUEUE_WORDS],
    zeroed: bool,
    interleaving: bool,
    id: u16,
    place: usize,
    s: OutgoingStream,
)
    requires { (place < 256) × (reopen_done_in zeroed interleaving queue.old id place s ≡ true) }
    ensures { queue.new ≡ reopened_in zeroed interleaving queue.old id place s }
{
    let state = s.pause_state;
    let resetting = state.is_resetting();
    if resetting {
        let first = s.first;
        let priority = s.priority;
        let o = open_stream(zeroed, s);
        store_stream(queue, place, o);
        if first < NO_MESSAGE {
            reschedule(queue, interleaving, id, first, priority);
        }
    }
}

fn reopen_at(queue: &mut [u64; QUEUE_WORDS], zeroed: bool, interleaving: bool, k: Known)
    requires { reopen_done_at zeroed interleaving queue.old k ≡ true }
    ensures { queue.new ≡ reopened_at zeroed interleaving queue.old k }
{
    let place = k.place as usize;
    let s = load_stream(&*queue, place);
    reopen_in(queue, zeroed, interleaving, k.id.0, place, s);
}

fn reopen_all(queue: &mut [u64; QUEUE_WORDS], zeroed: bool, interleaving: bool, n: usize)
    requires { (n ≤ 256) × ReopenSteps zeroed interleaving queue.old n }
    ensures { queue.new ≡ reopened_all zeroed interleaving queue.old n }
{
    for i in 0..n {
        let k = load_known(&*queue, i);
        reopen_at(queue, zeroed, interleaving, k);
    }
}

// The resetting streams opened, where their places are in their tables and the rows suffice.
pub fn reopen_own(queue: &mut [u64; QUEUE_WORDS], zeroed: bool)
    requires { room_for queue.old false ≡ true }
    ensures { called (Accepted 0) queue.new ≡ reopen zeroed queue.old }
{
    whole(&*queue);
    let t = load_totals(&*queue);
    reopen_all(queue, zeroed, t.interleaving, t.known as usize);
}

fn reopen_streams(queue: &mut [u64; QUEUE_WORDS], zeroed: bool) -> Result<usize, Refusal>
    ensures { called (as_call result) queue.new ≡ reopen zeroed queue.old }
{
    let room = room_for(&*queue, false);
    if room {
        reopen_own(queue, zeroed);
        return Ok(0);
    }
    Err(Refusal::WordsBroken)
}

// "commit sets the three counters to 0 and opens".
pub fn commit_reset_streams(queue: &mut [u64; QUEUE_WORDS]) -> Result<usize, Refusal>
    ensures { called (as_call result) queue.new ≡ reopen true queue.old }
{
    whole(&*queue);
    let quiet = nothing_starts(&*queue);
    if quiet {
        let t = load_totals(&*queue);
        commit_all(queue, t.known as usize);
        return Ok(0);
    }
    reopen_streams(queue, true)
}

// "rollback opens".
pub fn rollback_reset_streams(queue: &mut [u64; QUEUE_WORDS]) -> Result<usize, Refusal>
    ensures { called (as_call result) queue.new ≡ reopen false queue.old }
{
    reopen_streams(queue, false)
}

fn switch_at(queue: &mut [u64; QUEUE_WORDS], interleaving: bool, k: Known)
    requires { switch_done_at interleaving queue.old k ≡ true }
    ensures { queue.new ≡ switched_at interleaving queue.old k }
{
    let s = load_stream(&*queue, k.place as usize);
    reschedule(queue, interleaving, k.id.0, s.first, s.priority);
}

fn switch_all(queue: &mut [u64; QUEUE_WORDS], interleaving: bool, n: usize)
    requires { (n ≤ 256) × SwitchSteps interleaving queue.old n }
    ensures { queue.new ≡ switched_all interleaving queue.old n }
{
    for i in 0..n {
        let k = load_known(&*queue, i);
        switch_at(queue, interleaving, k);
    }
}

fn same_choice(a: bool, b: bool) -> bool
    ensures { result ≡ alike a b }
{
    if a {
        return b;
    }
    !b
}

// "setting the choice it has changes nothing"; else every stream's weight is read, where the places are in their tables and the rows suffice.
pub fn switch_own(queue: &mut [u64; QUEUE_WORDS], enabled: bool)
    requires { room_for queue.old true ≡ true }
    ensures { called (Accepted 0) queue.new ≡ set_interleaving_words enabled queue.old }
{
    whole(&*queue);
    let mut t = load_totals(&*queue);
    let same = same_choice(enabled, t.interleaving);
    if same {
        return;
    }
    let n = t.known as usize;
    t.interleaving = enabled;
    store_totals(queue, t);
    switch_all(queue, enabled, n);
}

pub fn enable_message_interleaving(
    queue: &mut [u64; QUEUE_WORDS],
    enabled: bool,
) -> Result<usize, Refusal>
    ensures { called (as_call result) queue.new ≡ set_interleaving_words enabled queue.old }
{
    let t = load_totals(&*queue);
    let same = same_choice(enabled, t.interleaving);
    if same {
        return Ok(0);
    }
    let room = room_for(&*queue, true);
    if room {
        switch_own(queue, enabled);
        return Ok(0);
    }
    Err(Refusal::WordsBroken)
}
