// Discarding a message and closing a stream (tx/send_queue.rs), with both promises: the words after the call, for every input;
// and from words that stand for a queue, the model's step.
#![tactic(auto)]

ghost use Rattle.queue_streams.specs.Answers.{as_call};
ghost use Rattle.linked_dropping.specs.Meets.{DiscardMeets, CloseMeets};

use queue_words::QUEUE_WORDS;
use types::Refusal;

// "Discard acts only on a head with that id."
pub fn discard(
    queue: &mut [u64; QUEUE_WORDS],
    events: &mut [u64],
    id: u16,
    message_id: u32,
) -> Result<usize, Refusal>
    ensures { DiscardMeets queue.old events.old queue.new events.new id message_id (as_call result) }
{
    queue_messages::discard(queue, events, id, message_id)
}

// Closes a stream; one that is not known becomes known and paused.
pub fn prepare_reset_stream(
    queue: &mut [u64; QUEUE_WORDS],
    events: &mut [u64],
    id: u16,
) -> Result<usize, Refusal>
    ensures { CloseMeets queue.old events.old queue.new events.new id (as_call result) }
{
    queue_closing::prepare_reset_stream(queue, events, id)
}
