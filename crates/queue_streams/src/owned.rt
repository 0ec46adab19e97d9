// Looking a stream up in a queue that its own calls alone have changed: it is in a row, or has a position, or is the 257th.
ghost use Rattle.std.specs.Prelude.{◌≡◌};
ghost use Rattle.queue_words.specs.Find.{Findable};
ghost use Rattle.queue_streams.specs.Known.{look_up};
ghost use Rattle.queue_streams.specs.Owned.{placed_as};

use crate::known::Place;
use queue_words::QUEUE_WORDS;
use queue_words::header::load_totals;
use queue_words::known::{Spot, find_own};
use queue_words::limits::LAST_STREAM;

// None where it is the 257th.
pub fn look_up_own(queue: &[u64; QUEUE_WORDS], id: u16) -> Option<Place>
    requires { Findable queue.now id }
    ensures { placed_as result ≡ look_up queue.now id }
{
    let spot = find_own(queue, id);
    match spot {
        Spot::At(_, row) => Some(Place::Row(row)),
        Spot::Gap(position) => {
            let t = load_totals(queue);
            if t.known > LAST_STREAM {
                return None;
            }
            Some(Place::New(position))
        }
    }
}
