// A fragment is held.
ghost use Rattle.std.specs.Prelude.{◌≡◌, ◌<◌};
ghost use Rattle.receiver_fragments.specs.Holding.{kept, index_held, link_held, hold, pass_tsn, next_of, set_turn, settle};

use receiver_messages::readiness::queue_up;
use receiver_messages::walks::{completes, mark_whole};
use receiver_store::put_payload;
use receiver_words::RECEIVER_WORDS;
use receiver_words::ahead::store_ahead;
use receiver_words::cells::{HELD, KNOWN, LAST_TSN, WHOLE, load_header, store_header, store_link};
use receiver_words::chains::{link_newest, take_free};
use receiver_words::fragments::{Fragment, load_fragment, store_fragment};
use receiver_words::index::{bucket_of, index_row};
use receiver_words::turns::{Turn, load_turn, store_turn};
use receiver_words::window::pass;
use types::StreamId;

// Row i, with the fragment f, is found by its TSN, and for I-DATA by its place.
fn index_held(receiver: &mut [u64; RECEIVER_WORDS], interleaved: bool, f: Fragment, i: usize)
    requires { i < 4096 }
    ensures { receiver.new ≡ index_held receiver.old interleaved f i }
{
    let b = bucket_of(0, f);
    index_row(receiver, 0, b, i);
    if interleaved {
        let p = bucket_of(1, f);
        index_row(receiver, 1, p, i);
        return;
    }
}

// Row i holds the fragment f, of no whole message: it is the newest, and is found.
fn link_held(receiver: &mut [u64; RECEIVER_WORDS], interleaved: bool, f: Fragment, i: usize)
    requires { i < 4096 }
    ensures { receiver.new ≡ link_held receiver.old interleaved f i }
{
    store_fragment(receiver, i, f);
    store_link(receiver, i, WHOLE, 0);
    link_newest(receiver, i);
    index_held(receiver, interleaved, f, i);
}

// The first free row, i, holds the fragment f with its payload; `held` fragments were held before.
pub fn hold(
    receiver: &mut [u64; RECEIVER_WORDS],
    store: &mut [u8],
    interleaved: bool,
    f: Fragment,
    payload: &[u8],
    i: usize,
    held: u64,
)
    requires { (i < 4096) × (held < 4096) }
    ensures { kept receiver.new store.new ≡ hold receiver.old store.old interleaved f payload.now i held }
{
    take_free(receiver);
    // The test of its room has passed: it is not refused.
    let _ = put_payload(receiver, store, i, payload);
    link_held(receiver, interleaved, f, i);
    store_header(receiver, HELD, held + 1);
}

// A TSN is accepted: the last one without a gap moves on over it and those behind it, if none is missing.
pub fn pass_tsn(receiver: &mut [u64; RECEIVER_WORDS], tsn: u32, last: u32)
    ensures { receiver.new ≡ pass_tsn receiver.old tsn last }
{
    store_ahead(receiver, tsn, true);
    let passed = pass(receiver, last);
    store_header(receiver, LAST_TSN, passed as u64);
}

// The number that is next in the stream of row t, "from 0".
fn next_of(receiver: &[u64; RECEIVER_WORDS], t: usize) -> u32
    requires { t < 256 }
    ensures { result ≡ next_of receiver.now t }
{
    let known = load_header(receiver, KNOWN);
    if t as u64 >= known {
        return 0;
    }
    let turn = load_turn(receiver, t);
    turn.next
}

// The stream of row t is known, with the number that is next in it.
fn set_turn(receiver: &mut [u64; RECEIVER_WORDS], t: usize, stream: u16, next: u32)
    requires { t < 256 }
    ensures { receiver.new ≡ set_turn receiver.old t stream next }
{
    let known = load_header(&*receiver, KNOWN);
    let turn = Turn {
        id: StreamId(stream),
        next: next,
    };
    store_turn(receiver, t, turn);
    if t as u64 >= known {
        store_header(receiver, KNOWN, t as u64 + 1);
        return;
    }
}

// Row i has come last, from the stream of row t: the message that it makes whole waits or is ready, and what is next in the stream moves on.
pub fn settle(
    receiver: &mut [u64; RECEIVER_WORDS],
    interleaved: bool,
    stream: u16,
    t: usize,
    i: usize,
)
    requires { (t < 256) × (i < 4096) }
    ensures { receiver.new ≡ settle receiver.old interleaved stream t i }
{
    let next = next_of(&*receiver, t);
    let h = completes(&*receiver, interleaved, i);
    if h >= 4096 {
        set_turn(receiver, t, stream, next);
        return;
    }
    mark_whole(receiver, interleaved, h);
    let f = load_fragment(&*receiver, h);
    let then = queue_up(receiver, interleaved, f, h, next);
    set_turn(receiver, t, stream, then);
}
