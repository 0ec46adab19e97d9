// Commit, rollback, the interleaving switch, the whole-queue reset and the ready ids of a queue that its own calls alone have changed: no walk before the first write settles that 16 does not come, and there is no refusal.
#![tactic(auto)]

ghost use Rattle.std.specs.Prelude.{◌≡◌};
ghost use Rattle.queue_streams.specs.Call.{Accepted};
ghost use Rattle.queue_restarts.specs.Ready.{collected, marked_all, readied};
ghost use Rattle.linked_restarts.specs.Promises.{CommitMeets, RollbackMeets, SwitchMeets, ResetMeets, ReadyMeets};
ghost use Rattle.owned_streams.specs.Own.{OwnWords};
ghost use Rattle.owned_restarts.specs.Ready.{ready_as, OwnRows};

use queue_restarts::marking::store_resetting;
use queue_restarts::whole::reset_own;
use queue_streams::restart::{reopen_own, switch_own};
use queue_words::QUEUE_WORDS;
use queue_words::header::load_totals;
use queue_words::known::load_known;
use queue_words::limits::STREAM_ROWS;
use queue_words::streams::load_stream;

// "commit sets the three counters to 0 and opens".
pub fn commit_reset_streams(queue: &mut [u64; QUEUE_WORDS])
    requires { OwnWords queue.old }
    ensures { CommitMeets queue.old (Accepted 0) queue.new }
{
    reopen_own(queue, true);
}

// "rollback opens".
pub fn rollback_reset_streams(queue: &mut [u64; QUEUE_WORDS])
    requires { OwnWords queue.old }
    ensures { RollbackMeets queue.old (Accepted 0) queue.new }
{
    reopen_own(queue, false);
}

// "setting the choice it has changes nothing".
pub fn enable_message_interleaving(queue: &mut [u64; QUEUE_WORDS], enabled: bool)
    requires { OwnWords queue.old }
    ensures { SwitchMeets queue.old enabled (Accepted 0) queue.new }
{
    switch_own(queue, enabled);
}

// "every stream with messages then waits".
pub fn reset(queue: &mut [u64; QUEUE_WORDS])
    requires { OwnWords queue.old }
    ensures { ResetMeets queue.old (Accepted 0) queue.new }
{
    reset_own(queue);
}

// "Ready ids, at most 256, come by value with their count in ascending order". The ids are the first `count`; the others are 0.
#[derive(Clone, Copy)]
pub struct ReadyIds {
    pub count: usize,
    pub ids: [u16; STREAM_ROWS],
}

// The ids of the paused ones among the first n known streams, which "become resetting": one walk takes and marks them.
fn take_paused(queue: &mut [u64; QUEUE_WORDS], n: usize) -> ReadyIds
    requires { OwnRows queue.old n }
    ensures { readied (ready_as result) queue.new ≡ readied (collected queue.old n) (marked_all queue.old n) }
{
    let mut ids = [0u16; STREAM_ROWS];
    let mut count = 0;
    for i in 0..n {
        let k = load_known(&*queue, i);
        let s = load_stream(&*queue, k.place as usize);
        let state = s.pause_state;
        let paused = state.is_paused();
        if paused {
            store_resetting(queue, k.place as usize);
            ids[count] = k.id.0;
            count += 1;
        }
    }
    ReadyIds {
        count: count,
        ids: ids,
    }
}

// Ready ids; they "become resetting".
pub fn get_streams_ready_to_reset(queue: &mut [u64; QUEUE_WORDS]) -> ReadyIds
    requires { OwnWords queue.old }
    ensures { ReadyMeets queue.old (ready_as result) queue.new }
{
    let t = load_totals(&*queue);
    take_paused(queue, t.known as usize)
}
