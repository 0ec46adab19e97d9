// From one fragment of a message to the next, and back.
ghost use Rattle.std.specs.Prelude.{◌≡◌, ◌<◌};
ghost use Rattle.receiver_messages.specs.Walks.{part_after, row_after, row_before_words, reaches_last, first_row, missing_after, missing_before, completes, mark_whole};

use crate::keys::{following, part_index, preceding};
use receiver_words::RECEIVER_WORDS;
use receiver_words::assembly::{begins, goes_on};
use receiver_words::cells::{WHOLE, load_link, store_link};
use receiver_words::fragments::load_fragment;
use receiver_words::index::find_row;

// The row of the next fragment of row i's message, where that is whole; 4096 for none.
pub fn part_after(receiver: &[u64; RECEIVER_WORDS], interleaved: bool, i: usize) -> usize
    requires { i < 4096 }
    ensures { result ≡ part_after receiver.now interleaved i }
{
    let f = load_fragment(receiver, i);
    let key = following(f);
    let k = part_index(interleaved);
    find_row(receiver, k, key)
}

// The row whose fragment goes on row i's message, of those in no whole message; 4096 for none.
pub fn row_after(receiver: &[u64; RECEIVER_WORDS], interleaved: bool, i: usize) -> usize
    requires { i < 4096 }
    ensures { result ≡ row_after receiver.now interleaved i }
{
    let f = load_fragment(receiver, i);
    let key = following(f);
    let k = part_index(interleaved);
    let j = find_row(receiver, k, key);
    if j >= 4096 {
        return 4096;
    }
    let whole = load_link(receiver, j, WHOLE);
    if whole == 1 {
        return 4096;
    }
    let g = load_fragment(receiver, j);
    let on = goes_on(interleaved, f, g);
    if on {
        return j;
    }
    4096
}

// The row whose fragment row i's goes on, of those in no whole message; 4096 for none.
pub fn row_before(receiver: &[u64; RECEIVER_WORDS], interleaved: bool, i: usize) -> usize
    requires { i < 4096 }
    ensures { result ≡ row_before_words receiver.now interleaved i }
{
    let f = load_fragment(receiver, i);
    let key = preceding(f);
    let k = part_index(interleaved);
    let j = find_row(receiver, k, key);
    if j >= 4096 {
        return 4096;
    }
    let whole = load_link(receiver, j, WHOLE);
    if whole == 1 {
        return 4096;
    }
    let g = load_fragment(receiver, j);
    if g.last {
        return 4096;
    }
    let on = goes_on(interleaved, g, f);
    if on {
        return j;
    }
    4096
}

// Whether the fragments from row i on go on up to one marked last.
fn reaches_last(receiver: &[u64; RECEIVER_WORDS], interleaved: bool, row: usize) -> bool
    requires { row < 4096 }
    ensures { result ≡ reaches_last 4096 receiver.now interleaved row }
{
    let mut i = row;
    for _ in 0..4096usize {
        let f = load_fragment(receiver, i);
        if f.last {
            return true;
        }
        let j = row_after(receiver, interleaved, i);
        if j >= 4096 {
            return false;
        }
        i = j;
    }
    false
}

// The row that row i's message begins with; 4096 where a fragment before it is missing.
fn first_row(receiver: &[u64; RECEIVER_WORDS], interleaved: bool, row: usize) -> usize
    requires { row < 4096 }
    ensures { result ≡ first_row 4096 receiver.now interleaved row }
{
    let mut i = row;
    for _ in 0..4096usize {
        let f = load_fragment(receiver, i);
        let first = begins(interleaved, f);
        if first {
            return i;
        }
        let j = row_before(receiver, interleaved, i);
        if j >= 4096 {
            return 4096;
        }
        i = j;
    }
    4096
}

// Whether the fragment after row i's in its message is missing.
fn missing_after(receiver: &[u64; RECEIVER_WORDS], interleaved: bool, i: usize) -> bool
    requires { i < 4096 }
    ensures { result ≡ missing_after receiver.now interleaved i }
{
    let f = load_fragment(receiver, i);
    if f.last {
        return false;
    }
    let j = row_after(receiver, interleaved, i);
    j >= 4096
}

// Whether the fragment before it is missing.
fn missing_before(receiver: &[u64; RECEIVER_WORDS], interleaved: bool, i: usize) -> bool
    requires { i < 4096 }
    ensures { result ≡ missing_before receiver.now interleaved i }
{
    let f = load_fragment(receiver, i);
    let first = begins(interleaved, f);
    if first {
        return false;
    }
    let j = row_before(receiver, interleaved, i);
    j >= 4096
}

// The first row of the message that row i, which came last, makes whole; 4096 where it makes none whole. Its neighbours are looked for first: so
// fragments that come in order, or in reverse, cost no walk but
// for the last one that was missing.
pub fn completes(receiver: &[u64; RECEIVER_WORDS], interleaved: bool, i: usize) -> usize
    requires { i < 4096 }
    ensures { result ≡ completes receiver.now interleaved i }
{
    let after = missing_after(receiver, interleaved, i);
    if after {
        return 4096;
    }
    let before = missing_before(receiver, interleaved, i);
    if before {
        return 4096;
    }
    let on = reaches_last(receiver, interleaved, i);
    if on {
        return first_row(receiver, interleaved, i);
    }
    4096
}

// The rows from row i on, up to the one marked last, are those of a whole message.
pub fn mark_whole(receiver: &mut [u64; RECEIVER_WORDS], interleaved: bool, row: usize)
    requires { row < 4096 }
    ensures { receiver.new ≡ mark_whole 4096 receiver.old interleaved row }
{
    let mut i = row;
    for _ in 0..4096usize {
        store_link(receiver, i, WHOLE, 1);
        let f = load_fragment(&*receiver, i);
        if f.last {
            return;
        }
        let j = part_after(&*receiver, interleaved, i);
        if j >= 4096 {
            return;
        }
        i = j;
    }
}
