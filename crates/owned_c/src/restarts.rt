// Commit, rollback, the interleaving switch and the whole-queue reset: there is no answer. Ready ids: the answer is their count.
ghost use Rattle.std.specs.Prelude.{◌≡◌, true, false};
ghost use Rattle.queue_streams.specs.Settings.{called};
ghost use Rattle.queue_streams.specs.Restart.{reopen, set_interleaving_words};
ghost use Rattle.queue_streams.specs.Call.{Accepted};
ghost use Rattle.queue_restarts.specs.Ready.{ready};
ghost use Rattle.queue_restarts.specs.Reset.{reset_queue};
ghost use Rattle.owned_streams.specs.Own.{OwnWords};
ghost use Rattle.host_numbers.specs.Numbers.{is_yes};
ghost use Rattle.owned_c.specs.Given.{GivesReady};

use host_numbers::tell_ids;
use queue_words::QUEUE_WORDS;
use queue_words::limits::STREAM_ROWS;

#[unsafe(no_mangle)]
pub extern "C" fn dsq_owned_commit_reset_streams(queue: &mut [u64; QUEUE_WORDS])
    requires { OwnWords queue.old }
    ensures { called (Accepted 0) queue.new ≡ reopen true queue.old }
{
    owned_restarts::commit_reset_streams(queue);
}

#[unsafe(no_mangle)]
pub extern "C" fn dsq_owned_rollback_reset_streams(queue: &mut [u64; QUEUE_WORDS])
    requires { OwnWords queue.old }
    ensures { called (Accepted 0) queue.new ≡ reopen false queue.old }
{
    owned_restarts::rollback_reset_streams(queue);
}

#[unsafe(no_mangle)]
pub extern "C" fn dsq_owned_enable_message_interleaving(queue: &mut [u64; QUEUE_WORDS], enabled: u8)
    requires { OwnWords queue.old }
    ensures { called (Accepted 0) queue.new ≡ set_interleaving_words (is_yes enabled) queue.old }
{
    owned_restarts::enable_message_interleaving(queue, enabled != 0);
}

#[unsafe(no_mangle)]
pub extern "C" fn dsq_owned_reset(queue: &mut [u64; QUEUE_WORDS])
    requires { OwnWords queue.old }
    ensures { called (Accepted 0) queue.new ≡ reset_queue queue.old }
{
    owned_restarts::reset(queue);
}

// "Ready ids, at most 256, come by value with their count in ascending order [..] and become resetting."
#[unsafe(no_mangle)]
pub extern "C" fn dsq_owned_get_streams_ready_to_reset(
    queue: &mut [u64; QUEUE_WORDS],
    ids: &mut [u16; STREAM_ROWS],
) -> u64
    requires { OwnWords queue.old }
    ensures { GivesReady (ready queue.old) ids.old result queue.new ids.new }
{
    let a = owned_restarts::get_streams_ready_to_reset(queue);
    let from = a.ids;
    tell_ids(ids, &from, a.count);
    a.count as u64
}
