// The next fragment with both promises: what the call leaves on the words, for every input, and that on the words of a queue this
// is the model's step.
#![tactic(auto)]

ghost use Rattle.queue_sending.specs.Answers.{as_produced};
ghost use Rattle.linked_sending.specs.Meaning.{ProduceMeets};

use queue_sending::Produced;
use queue_words::QUEUE_WORDS;
use types::Refusal;

pub fn produce(
    queue: &mut [u64; QUEUE_WORDS],
    store: &[u8],
    events: &mut [u64],
    buffer: &mut [u8],
    time: u64,
    size: u64,
) -> Result<Produced, Refusal>
    ensures { ProduceMeets queue.old store.now events.old buffer.old time size (as_produced result) queue.new events.new buffer.new }
{
    queue_sending::produce(queue, store, events, buffer, time, size)
}
