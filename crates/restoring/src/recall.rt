// Restoring, last. Document 02, 10/13: "Restoring without interleaving shall remember the stream whose first message is half-sent, the smallest id if
// several are, and send its rest first."
ghost use Rattle.std.specs.Prelude.{◌≡◌, ◌≤◌};
ghost use Rattle.restoring.specs.Recall.{half_sent_at, first_half_sent_words, recalled};

use queue_words::QUEUE_WORDS;
use queue_words::header::{SchedulerState, load_scheduler_state, store_scheduler_state};
use queue_words::items::load_item;
use queue_words::known::{Known, load_known};
use queue_words::limits::{LAST_STREAM, NO_MESSAGE};
use queue_words::streams::load_stream;
use types::StreamId;

// Whether the first message of a known stream is half-sent.
fn is_half_sent(queue: &[u64; QUEUE_WORDS], k: Known) -> bool
    ensures { result ≡ half_sent_at queue.now k }
{
    if k.place > LAST_STREAM {
        return false;
    }
    let s = load_stream(queue, k.place as usize);
    if s.first < NO_MESSAGE {
        let m = load_item(queue, s.first as usize);
        return 0 < m.offset;
    }
    false
}

// Of n known streams the first whose first message is half-sent; the known streams stand by rising id.
fn first_half_sent(queue: &[u64; QUEUE_WORDS], n: usize) -> Option<StreamId>
    requires { n ≤ 256 }
    ensures { result ≡ first_half_sent_words queue.now 0 n }
{
    for i in 0..n {
        let k = load_known(queue, i);
        let half = is_half_sent(queue, k);
        if half {
            return Some(k.id);
        }
    }
    None
}

// The stream is remembered.
pub fn remember_half_sent(queue: &mut [u64; QUEUE_WORDS], n: usize)
    requires { n ≤ 256 }
    ensures { queue.new ≡ recalled queue.old n }
{
    let id = first_half_sent(&*queue, n);
    let s = load_scheduler_state(&*queue);
    store_scheduler_state(
        queue,
        SchedulerState {
            current: id,
            system_virtual_time: s.system_virtual_time,
            active: s.active,
        },
    );
}
