// Saving a queue that its own calls alone have changed: the checked call's image. There is no first pass over the messages and no test
// for 16: what the image's size needs to know of them stands in the totals.
#![tactic(auto)]

ghost use Rattle.std.specs.Prelude.{◌≡◌};
ghost use Rattle.types.specs.Refusal.{refusal_number};
ghost use Rattle.queue_state.specs.Good.{Good};
ghost use Rattle.linked_saving.specs.Meaning.{SaveMeets};
ghost use Rattle.owned_saving.specs.Save.{save_number, saved_as};

use crate::counting::count_own;
use queue_words::QUEUE_WORDS;
use queue_words::limits::MAX_TIME;
use saving::image::{image_size, put_image};
use std::convert::From;
use types::Refusal;

pub mod counting;

// What is refused: a time above the limit, a buffer shorter than the image.
#[derive(Clone, Copy, Debug, PartialEq, Eq)]
pub enum SaveRefusal {
    TimeLate,
    ImageBufferShort,
}

impl From<SaveRefusal> for Refusal {
    ghost from_gives = { λ s r. refusal_number r ≡ save_number s };

    fn from(s: SaveRefusal) -> Refusal {
        match s {
            SaveRefusal::TimeLate => Refusal::TimeLate,
            SaveRefusal::ImageBufferShort => Refusal::ImageBufferShort,
        }
    }
}

// Saves the queue at a time. Answers the length of the image, which stands at the start of the lent buffer. A refused call leaves the
// buffer as it was; so do the places past the image stay.
pub fn save(
    queue: &[u64; QUEUE_WORDS],
    store: &[u8],
    image: &mut [u8],
    time: u64,
) -> Result<usize, SaveRefusal>
    requires { Good queue.now store.now }
    ensures { SaveMeets queue.now store.now image.old time (saved_as result) image.new }
{
    if time > MAX_TIME {
        return Err(SaveRefusal::TimeLate);
    }
    let n = count_own(queue, store);
    let size = image_size(n);
    if (image.len() as u64) < size {
        return Err(SaveRefusal::ImageBufferShort);
    }
    put_image(queue, store, image, time, n);
    Ok(size as usize)
}
