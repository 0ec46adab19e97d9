// Restarting streams and switching interleaving with both promises: what the calls leave on the words, for every input, and that
// on the words of a queue this is the model's step.
#![tactic(auto)]

ghost use Rattle.queue_streams.specs.Answers.{as_call, as_number};
ghost use Rattle.queue_restarts.specs.Ready.{as_ready};
ghost use Rattle.linked_restarts.specs.Promises.{ReadyMeets, CountMeets, CommitMeets, RollbackMeets, SwitchMeets, ResetMeets};

use queue_restarts::ReadyStreams;
use queue_words::QUEUE_WORDS;
use types::Refusal;

// "Ready ids, at most 256, come by value with their count in ascending order [..] and become resetting."
pub fn get_streams_ready_to_reset(queue: &mut [u64; QUEUE_WORDS]) -> Result<ReadyStreams, Refusal>
    ensures { ReadyMeets queue.old (as_ready result) queue.new }
{
    queue_restarts::get_streams_ready_to_reset(queue)
}

// How many ids are ready: a question, which does not take them.
pub fn count_streams_ready_to_reset(queue: &[u64; QUEUE_WORDS]) -> Result<u64, Refusal>
    ensures { CountMeets queue.now (as_number result) }
{
    queue_restarts::count_streams_ready_to_reset(queue)
}

// "commit sets the three counters to 0 and opens".
pub fn commit_reset_streams(queue: &mut [u64; QUEUE_WORDS]) -> Result<usize, Refusal>
    ensures { CommitMeets queue.old (as_call result) queue.new }
{
    queue_streams::commit_reset_streams(queue)
}

// "rollback opens".
pub fn rollback_reset_streams(queue: &mut [u64; QUEUE_WORDS]) -> Result<usize, Refusal>
    ensures { RollbackMeets queue.old (as_call result) queue.new }
{
    queue_streams::rollback_reset_streams(queue)
}

// "setting the choice it has changes nothing"; else every stream's weight is read.
pub fn enable_message_interleaving(
    queue: &mut [u64; QUEUE_WORDS],
    enabled: bool,
) -> Result<usize, Refusal>
    ensures { SwitchMeets queue.old enabled (as_call result) queue.new }
{
    queue_streams::enable_message_interleaving(queue, enabled)
}

// "every stream with messages then waits".
pub fn reset(queue: &mut [u64; QUEUE_WORDS]) -> Result<usize, Refusal>
    ensures { ResetMeets queue.old (as_call result) queue.new }
{
    queue_restarts::reset(queue)
}
