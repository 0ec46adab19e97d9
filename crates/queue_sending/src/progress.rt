// A message that goes on: the words that a fragment in its middle changes, of three rows.
ghost use Rattle.std.specs.Prelude.{◌≡◌, ◌<◌};
ghost use Rattle.queue_sending.specs.Progress.{put_progress};

use queue_words::QUEUE_WORDS;
use types::Fsn;

// Where the totals and the two tables begin.
const TOTALS: usize = 7;

const STREAMS: usize = 544;

const MESSAGES: usize = 3104;

pub fn store_progress(
    queue: &mut [u64; QUEUE_WORDS],
    row: usize,
    place: usize,
    total: u64,
    amount: u64,
    fsn: Fsn,
    offset: u64,
)
    requires { (row < 256) × (place < 1024) }
    ensures { queue.new ≡ put_progress queue.old row place total amount fsn.0 offset }
{
    let stream = STREAMS + row * 10;
    let message = MESSAGES + place * 16;
    queue[TOTALS + 2] = total;
    queue[stream + 5] = amount;
    queue[message + 8] = fsn.0 as u64;
    queue[message + 13] = offset;
}
