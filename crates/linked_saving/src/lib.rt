// Saving with both promises: what the call leaves in the lent buffer, for every input, and that on the words of a queue this is the
// model's image or the model's refusal.
#![tactic(auto)]

ghost use Rattle.saving.specs.Save.{as_saved};
ghost use Rattle.linked_saving.specs.Meaning.{SaveMeets};

use queue_words::QUEUE_WORDS;
use types::Refusal;

pub fn save(
    queue: &[u64; QUEUE_WORDS],
    store: &[u8],
    image: &mut [u8],
    time: u64,
) -> Result<usize, Refusal>
    ensures { SaveMeets queue.now store.now image.old time (as_saved result) image.new }
{
    saving::save(queue, store, image, time)
}
