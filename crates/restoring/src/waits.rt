// Restoring, third: "every stream with messages then waits".
ghost use Rattle.std.specs.Prelude.{◌≡◌, ◌≤◌};
ghost use Rattle.restoring.specs.Messages.{waits_at, waits_all};

use queue_streams::{head_size, parameters_for};
use queue_words::QUEUE_WORDS;
use queue_words::known::{Known, load_known};
use queue_words::limits::{LAST_STREAM, NO_MESSAGE};
use queue_words::streams::load_stream;
use stream_scheduler::set_bytes_remaining;

fn wait_at(queue: &mut [u64; QUEUE_WORDS], interleaving: bool, k: Known)
    ensures { queue.new ≡ waits_at interleaving queue.old k }
{
    if k.place > LAST_STREAM {
        return;
    }
    let s = load_stream(&*queue, k.place as usize);
    if s.first < NO_MESSAGE {
        let bytes = head_size(&*queue, s.first);
        let p = parameters_for(interleaving, s.priority);
        set_bytes_remaining(queue, k.id.0, bytes, p);
    }
}

pub fn wait_all(queue: &mut [u64; QUEUE_WORDS], interleaving: bool, n: usize)
    requires { n ≤ 256 }
    ensures { queue.new ≡ waits_all interleaving queue.old n }
{
    for i in 0..n {
        let k = load_known(&*queue, i);
        wait_at(queue, interleaving, k);
    }
}
