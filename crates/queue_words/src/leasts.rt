// The least row of each group of the streams that the scheduler lists: 11 words from word 21 on. A group is 24 rows, the last one what is left. Its word has
// the place in the group of its least row; a group is stale where that is not known, which a store to one of its rows makes it.
ghost use Rattle.std.specs.Prelude.{◌≡◌, ◌<◌};
ghost use Rattle.queue_words.specs.Leasts.{least_at, put_least};

use crate::QUEUE_WORDS;

const BASE: usize = 21;

pub const GROUP: usize = 24;

// The word of a stale group: no place in a group.
pub const STALE: u64 = 24;

pub fn load_least(queue: &[u64; QUEUE_WORDS], g: usize) -> u64
    requires { g < 11 }
    ensures { result ≡ least_at queue.now g }
{
    queue[BASE + g]
}

pub fn store_least(queue: &mut [u64; QUEUE_WORDS], g: usize, v: u64)
    requires { g < 11 }
    ensures { queue.new ≡ put_least queue.old g v }
{
    queue[BASE + g] = v;
}
