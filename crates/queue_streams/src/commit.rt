// Commit where no stream begins to wait: those that open have no message. That is the usual case, and one short walk settles it.
ghost use Rattle.std.specs.Prelude.{◌≡◌, ◌<◌, ◌≤◌};
ghost use Rattle.queue_streams.specs.Commit.{quiet_stream, quiet_from, nothing_starts, committed_at, committed_all, CommitPlaced};

use crate::restart::open_stream;
use queue_words::QUEUE_WORDS;
use queue_words::header::{load_scheduler_state, load_totals};
use queue_words::known::load_known;
use queue_words::limits::{NO_MESSAGE, STREAMS};
use queue_words::streams::{OutgoingStream, load_stream, store_stream};

// Whether commit does not let this stream wait.
fn is_quiet(s: OutgoingStream) -> bool
    ensures { result ≡ quiet_stream s }
{
    if s.first == NO_MESSAGE {
        return true;
    }
    let state = s.pause_state;
    let resetting = state.is_resetting();
    !resetting
}

// Whether n known streams have their places among the first n rows, and these rows are quiet.
fn all_quiet(queue: &[u64; QUEUE_WORDS], n: usize) -> bool
    requires { n ≤ 256 }
    ensures { result ≡ quiet_from queue.now n 0 n }
{
    for i in 0..n {
        let k = load_known(queue, i);
        if k.place >= (n as u64) {
            return false;
        }
        let s = load_stream(queue, i);
        let quiet = is_quiet(s);
        if !quiet {
            return false;
        }
    }
    true
}

// Where this is true, commit lets no stream wait and needs nothing more; where it is false, it may. Reads only.
pub(crate) fn nothing_starts(queue: &[u64; QUEUE_WORDS]) -> bool
    ensures { result ≡ nothing_starts queue.now }
{
    let s = load_scheduler_state(queue);
    if s.active > STREAMS {
        return false;
    }
    let t = load_totals(queue);
    if t.known > STREAMS {
        return false;
    }
    all_quiet(queue, t.known as usize)
}

// "commit sets the three counters to 0 and opens": the stream in this row, if it is resetting.
fn commit_at(queue: &mut [u64; QUEUE_WORDS], place: u64)
    requires { place < 256 }
    ensures { queue.new ≡ committed_at queue.old place }
{
    let s = load_stream(&*queue, place as usize);
    let state = s.pause_state;
    let resetting = state.is_resetting();
    if resetting {
        let o = open_stream(true, s);
        store_stream(queue, place as usize, o);
    }
}

// The first n known streams.
pub(crate) fn commit_all(queue: &mut [u64; QUEUE_WORDS], n: usize)
    requires { (n ≤ 256) × CommitPlaced queue.old n }
    ensures { queue.new ≡ committed_all queue.old n }
{
    for i in 0..n {
        let k = load_known(&*queue, i);
        commit_at(queue, k.place);
    }
}
