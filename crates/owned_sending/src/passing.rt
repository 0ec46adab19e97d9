// Passing over expired heads: each is dropped where it stands, without a log and without a copy.
ghost use Rattle.owned_sending.specs.Passing.{Payable, PassedTo};

use message_chains::dropping::drop_own;
use queue_sending::choice::Ahead;
use queue_sending::own::look_own;
use queue_words::QUEUE_WORDS;

// Where passing over ends, after so many events: nothing waits, or a head to send, by the scheduler's row, its stream's id and row.
#[derive(Clone, Copy, Debug, PartialEq, Eq)]
pub enum Turn {
    Nothing(usize),
    Head(usize, usize, u16, usize),
}

// Passes over the expired heads, after k events, so that the choice is one to send from or none. The store is not read: it says which
// queue the words are.
pub fn pass_own(
    queue: &mut [u64; QUEUE_WORDS],
    store: &[u8],
    events: &mut [u64],
    time: u64,
    k: usize,
) -> Turn
    requires { Payable queue.old store.now events.old k }
    ensures { PassedTo queue.old store.now events.old time k result queue.new events.new }
{
    let mut count = k;
    loop {
        let found = look_own(&*queue, time);
        match found {
            Ahead::Nothing => {
                return Turn::Nothing(count);
            }
            Ahead::Chosen(at, id, row) => {
                return Turn::Head(count, at, id, row);
            }
            Ahead::Expired(id, row) => {
                count = drop_own(queue, events, count, id, row);
            }
        }
    }
}
