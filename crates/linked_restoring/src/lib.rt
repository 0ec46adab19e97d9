// Restoring a changeover image with both promises: what the call leaves on the words, for every input, and that on the words of a
// queue this is the model's step.
#![tactic(auto)]

ghost use Rattle.queue_streams.specs.Answers.{as_call};
ghost use Rattle.linked_restoring.specs.Restore.{RestoreMeets};

use queue_words::QUEUE_WORDS;
use types::Refusal;

// Restores an image; the store is lent.
pub fn restore(
    queue: &mut [u64; QUEUE_WORDS],
    store: &mut [u8],
    time: u64,
    image: &[u8],
) -> Result<usize, Refusal>
    ensures { RestoreMeets queue.old store.old time image.now (as_call result) queue.new store.new }
{
    handover::restore(queue, store, time, image)
}
