// A stream that becomes resetting: the one word of its row that changes.
ghost use Rattle.std.specs.Prelude.{◌≡◌, ◌<◌};
ghost use Rattle.queue_restarts.specs.Marking.{put_resetting};

use queue_words::QUEUE_WORDS;

// Where the streams begin.
const STREAMS: usize = 544;

// The word of the state.
const RESETTING: u64 = 3;

pub fn store_resetting(queue: &mut [u64; QUEUE_WORDS], row: usize)
    requires { row < 256 }
    ensures { queue.new ≡ put_resetting queue.old row }
{
    let stream = STREAMS + row * 10;
    queue[stream + 1] = RESETTING;
}
