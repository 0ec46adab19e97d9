// Setting a stream's priority and its threshold.
ghost use Rattle.queue_streams.specs.Answers.{as_call};
ghost use Rattle.linked_streams.specs.Settings.{SetPriorityMeets, SetThresholdMeets};

use queue_words::QUEUE_WORDS;
use types::Refusal;

pub fn set_priority(
    queue: &mut [u64; QUEUE_WORDS],
    id: u16,
    priority: u16,
) -> Result<usize, Refusal>
    ensures { SetPriorityMeets queue.old id priority (as_call result) queue.new }
{
    queue_streams::set_priority(queue, id, priority)
}

pub fn set_buffered_amount_low_threshold(
    queue: &mut [u64; QUEUE_WORDS],
    events: &mut [u64],
    id: u16,
    threshold: u64,
) -> Result<usize, Refusal>
    ensures { SetThresholdMeets queue.old events.old id threshold (as_call result) queue.new events.new }
{
    queue_streams::set_buffered_amount_low_threshold(queue, events, id, threshold)
}
