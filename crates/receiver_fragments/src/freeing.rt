// A message's rows, one after another: measured, handed out and freed.
ghost use Rattle.std.specs.Prelude.{◌≡◌, ◌-◌, ◌≤◌, ◌<◌};
ghost use Rattle.receiver_fragments.specs.Freeing.{measured, unindex_held, free_row, handed_out_words, hand_out};

use receiver_messages::walks::part_after;
use receiver_store::places::misplaced;
use receiver_store::{drop_payload, read_payload};
use receiver_words::RECEIVER_WORDS;
use receiver_words::cells::{HELD, LENGTH, PLACE, load_header, load_link, store_header};
use receiver_words::chains::{give_free, unlink_row};
use receiver_words::fragments::{Fragment, load_fragment};
use receiver_words::index::{bucket_of, unindex_row};

// Whether a message's rows are all there, each with its payload in the store, and how many of the used bytes are left without them.
#[derive(Clone, Copy)]
pub struct Measure {
    pub ok: bool,
    pub left: u64,
}

// The message that begins with a row, in a store of len bytes of which `used` are used. Reads only.
pub fn measure_message(
    receiver: &[u64; RECEIVER_WORDS],
    interleaved: bool,
    row: usize,
    len: u64,
    used: u64,
) -> Measure
    requires { row < 4096 }
    ensures { (result ≡ measured 4096 receiver.now interleaved row len used) × (result.left ≤ used) }
{
    let mut i = row;
    let mut left = used;
    for _ in 0..4096usize {
        let place = load_link(receiver, i, PLACE);
        let size = load_link(receiver, i, LENGTH);
        let out = misplaced(0, len, place, size);
        if out {
            return Measure {
                ok: false,
                left: left,
            };
        }
        if size > left {
            return Measure {
                ok: false,
                left: left,
            };
        }
        left -= size;
        let f = load_fragment(receiver, i);
        if f.last {
            return Measure {
                ok: true,
                left: left,
            };
        }
        let j = part_after(receiver, interleaved, i);
        if j >= 4096 {
            return Measure {
                ok: false,
                left: left,
            };
        }
        i = j;
    }
    Measure {
        ok: false,
        left: left,
    }
}

// Row i, with the fragment f, is found no more.
fn unindex_held(receiver: &mut [u64; RECEIVER_WORDS], interleaved: bool, f: Fragment, i: usize)
    requires { i < 4096 }
    ensures { receiver.new ≡ unindex_held receiver.old interleaved f i }
{
    let b = bucket_of(0, f);
    unindex_row(receiver, 0, b, i);
    if interleaved {
        let p = bucket_of(1, f);
        unindex_row(receiver, 1, p, i);
        return;
    }
}

// One less, but 0 stays.
fn less_one(n: u64) -> u64
    ensures { result ≡ n - 1 }
{
    if n == 0 {
        return 0;
    }
    n - 1
}

// Row i, with the fragment f, is held no more.
fn free_row(receiver: &mut [u64; RECEIVER_WORDS], interleaved: bool, f: Fragment, i: usize)
    requires { i < 4096 }
    ensures { receiver.new ≡ free_row receiver.old interleaved f i }
{
    unindex_held(receiver, interleaved, f, i);
    unlink_row(receiver, i);
    // Refused on words that no receiver has: then the bytes stay counted.
    let _ = drop_payload(receiver, i);
    give_free(receiver, i);
    let held = load_header(&*receiver, HELD);
    let left = less_one(held);
    store_header(receiver, HELD, left);
}

// The payloads of a message's rows go to the buffer one after another, from its start on, and the rows are free.
pub fn hand_out(
    receiver: &mut [u64; RECEIVER_WORDS],
    store: &[u8],
    buffer: &mut [u8],
    interleaved: bool,
    row: usize,
)
    requires { row < 4096 }
    ensures { handed_out_words receiver.new buffer.new ≡ hand_out 4096 receiver.old store.now buffer.old interleaved row 0 }
{
    let mut i = row;
    let mut at: usize = 0;
    for _ in 0..4096usize {
        let f = load_fragment(&*receiver, i);
        let j = part_after(&*receiver, interleaved, i);
        let size = load_link(&*receiver, i, LENGTH);
        // Refused on words that no receiver has: then the buffer stays as it is.
        let _ = read_payload(&*receiver, store, i, buffer, at);
        free_row(receiver, interleaved, f, i);
        if f.last {
            return;
        }
        if j >= 4096 {
            return;
        }
        if size > 2000000 {
            return;
        }
        at += size as usize;
        i = j;
    }
}
