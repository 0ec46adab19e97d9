// The known streams: where a stream is or would be, and making one known.
ghost use Rattle.std.specs.Prelude.{◌≡◌, ◌-◌, ◌<◌, ◌≤◌};
ghost use Rattle.queue_words.specs.Known.{known_count};
ghost use Rattle.queue_streams.specs.Known.{new_stream_words, as_place, look_up, shifted, inserted};

use queue_words::QUEUE_WORDS;
use queue_words::header::{Options, load_totals, store_totals};
use queue_words::known::{Found, Known, find_stream, load_known, store_known};
use queue_words::limits::{LAST_STREAM, NO_MESSAGE};
use queue_words::streams::{OutgoingStream, PauseState, store_stream};
use types::{Mid, Refusal, Ssn, StreamId};

// A new stream: open, no messages, the default priority and threshold.
pub fn new_stream(o: Options) -> OutgoingStream
    ensures { result ≡ new_stream_words o }
{
    OutgoingStream {
        priority: o.default_priority,
        pause_state: PauseState::NotPaused,
        next_ssn: Ssn(0),
        next_unordered_mid: Mid(0),
        next_ordered_mid: Mid(0),
        buffered_amount: 0,
        low_threshold: o.default_threshold,
        first: NO_MESSAGE,
        last: NO_MESSAGE,
    }
}

// Where the stream of an id is: in a row, or not known and then the position in the order of ids at which it would be.
#[derive(Clone, Copy)]
pub enum Place {
    Row(usize),
    New(usize),
}

// Refused where it would be the 257th, or a place is outside its table.
pub fn look_up(queue: &[u64; QUEUE_WORDS], id: u16) -> Result<Place, Refusal>
    ensures { as_place result ≡ look_up queue.now id }
{
    let found = find_stream(queue, id);
    match found {
        Found::At(_, row) => Ok(Place::Row(row)),
        Found::Gap(position) => {
            let t = load_totals(queue);
            if t.known > LAST_STREAM {
                return Err(Refusal::StreamsFull);
            }
            Ok(Place::New(position))
        }
        Found::Broken => Err(Refusal::WordsBroken),
    }
}

// Moves the rows from a position on up by one, the last of n first.
fn make_room(queue: &mut [u64; QUEUE_WORDS], position: usize, n: usize)
    requires { (position ≤ n) × (n < 256) }
    ensures { queue.new ≡ shifted queue.old n (n - position) }
{
    for i in (position..n).rev() {
        let k = load_known(&*queue, i);
        store_known(queue, i + 1, k);
    }
}

// Makes a stream known at a position in the order of ids. Its row is the first that no stream has, and stays its own.
pub fn insert_stream(queue: &mut [u64; QUEUE_WORDS], position: usize, id: u16, s: OutgoingStream)
    requires { (position ≤ known_count queue.old) × (known_count queue.old < 256) }
    ensures { queue.new ≡ inserted queue.old position id s }
{
    let mut t = load_totals(&*queue);
    let n = t.known as usize;
    make_room(queue, position, n);
    store_known(
        queue,
        position,
        Known {
            id: StreamId(id),
            place: n as u64,
        },
    );
    store_stream(queue, n, s);
    t.known = (n + 1) as u64;
    store_totals(queue, t);
}
