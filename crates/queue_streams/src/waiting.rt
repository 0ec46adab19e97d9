// Letting streams wait.
ghost use Rattle.std.specs.Prelude.{true, ◌≡◌, ◌<◌, ◌≤◌};
ghost use Rattle.queue_words.specs.Header.{scheduler_at};
ghost use Rattle.queue_streams.specs.Waiting.{remaining_at, head_size_words, parameters_for, rescheduled, passed_over, tally_stream, tally_known, tally, room_for};
ghost use Rattle.queue_streams.specs.Settled.{reschedule_done};

use queue_words::QUEUE_WORDS;
use queue_words::active::SchedulingParameters;
use queue_words::header::{load_scheduler_state, load_totals};
use queue_words::items::load_item;
use queue_words::known::{Known, load_known};
use queue_words::limits::{LAST_STREAM, NO_MESSAGE, STREAMS};
use queue_words::streams::{OutgoingStream, PauseState, load_stream};
use stream_scheduler::own::set_own;
use stream_scheduler::waits;

// The remaining bytes of a message.
fn remaining_at(queue: &[u64; QUEUE_WORDS], i: usize) -> u64
    requires { i < 1024 }
    ensures { result ≡ remaining_at queue.now i }
{
    let m = load_item(queue, i);
    if m.offset < m.length {
        return m.length - m.offset;
    }
    0
}

// The bytes with which a stream waits whose first message is in this row.
pub fn head_size(queue: &[u64; QUEUE_WORDS], first: u64) -> u64
    ensures { result ≡ head_size_words queue.now first }
{
    if first < NO_MESSAGE {
        return remaining_at(queue, first as usize);
    }
    0
}

// The weight that the scheduler reads.
pub fn parameters_for(interleaving: bool, priority: u16) -> SchedulingParameters
    ensures { result ≡ parameters_for interleaving priority }
{
    if interleaving {
        return SchedulingParameters::WeightedFairQueuing(priority);
    }
    SchedulingParameters::RoundRobin
}

// Lets a stream wait with its first message, or ends its waiting where it has none. It has a row, or one is free, or none is needed.
pub fn reschedule(
    queue: &mut [u64; QUEUE_WORDS],
    interleaving: bool,
    id: u16,
    first: u64,
    priority: u16,
)
    requires { reschedule_done queue.old interleaving id first priority ≡ true }
    ensures { queue.new ≡ rescheduled queue.old interleaving id first priority }
{
    let bytes = head_size(&*queue, first);
    let p = parameters_for(interleaving, priority);
    set_own(queue, id, bytes, p);
}

// A test of all known streams half done: whether their places are in their tables, and how many rows would be needed. It is handed
// on field by field: copied whole, the bytes between its fields would be carried through memory at every stream.
#[derive(Clone, Copy)]
pub struct Tally {
    pub fits: bool,
    pub rows: u64,
}

// Whether a stream does not count: where not all do, the resetting ones do.
fn passed_over(all: bool, state: PauseState) -> bool
    ensures { result ≡ passed_over all state }
{
    if all {
        return false;
    }
    let resetting = state.is_resetting();
    !resetting
}

fn tally_stream(
    queue: &[u64; QUEUE_WORDS],
    all: bool,
    id: u16,
    s: OutgoingStream,
    t: Tally,
) -> Tally
    requires { t.rows < 512 }
    ensures { result ≡ tally_stream queue.now all id s t }
{
    let state = s.pause_state;
    let passed = passed_over(all, state);
    if passed {
        return Tally {
            fits: t.fits,
            rows: t.rows,
        };
    }
    if s.first > NO_MESSAGE {
        return Tally {
            fits: false,
            rows: t.rows,
        };
    }
    if s.first == NO_MESSAGE {
        return Tally {
            fits: t.fits,
            rows: t.rows,
        };
    }
    let listed = waits(queue, id);
    if listed {
        return Tally {
            fits: t.fits,
            rows: t.rows,
        };
    }
    Tally {
        fits: t.fits,
        rows: t.rows + 1,
    }
}

fn tally_known(queue: &[u64; QUEUE_WORDS], all: bool, k: Known, t: Tally) -> Tally
    requires { t.rows < 512 }
    ensures { result ≡ tally_known queue.now all k t }
{
    if k.place > LAST_STREAM {
        return Tally {
            fits: false,
            rows: t.rows,
        };
    }
    let s = load_stream(queue, k.place as usize);
    tally_stream(queue, all, k.id.0, s, t)
}

fn tally_all(queue: &[u64; QUEUE_WORDS], all: bool, active: u64, n: usize) -> Tally
    requires { (n ≤ 256) × (active ≤ 256) × (active ≡ (scheduler_at queue.now).active) }
    ensures { result ≡ tally queue.now all n }
{
    let mut t = Tally {
        fits: true,
        rows: active,
    };
    for i in 0..n {
        let k = load_known(queue, i);
        t = tally_known(queue, all, k, t);
    }
    t
}

// Whether all places are in their tables, and the rows suffice to let streams wait anew. Reads only.
pub fn room_for(queue: &[u64; QUEUE_WORDS], all: bool) -> bool
    ensures { result ≡ room_for queue.now all }
{
    let t = load_totals(queue);
    if t.known > STREAMS {
        return false;
    }
    let s = load_scheduler_state(queue);
    if s.active > STREAMS {
        return false;
    }
    let sum = tally_all(queue, all, s.active, t.known as usize);
    if sum.fits {
        return sum.rows <= STREAMS;
    }
    false
}
