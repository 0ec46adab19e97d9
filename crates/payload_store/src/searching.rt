// Searching gaps, where the known ones have no room for a payload: of each piece of the store the search keeps how far the payloads
// reach that begin in it, row by row, and the longest run of pieces into which none reaches is the gap, the second longest the one
// beside it. What is smaller than a piece, or lies across two, is not found. Rows behind those whose payloads are the used bytes
// are not looked at: a queue has no payload there.
ghost use Rattle.std.specs.Prelude.{◌≡◌, ◌<◌, ◌≤◌, length, replicate};
ghost use Rattle.payload_store.specs.Searching.{lies, raised, reached, reach_to, free_at, run_on, run_to, found};

use crate::gaps::NO_GAPS;
use queue_words::QUEUE_WORDS;
use queue_words::header::Gaps;
use queue_words::items::{load_length, load_place};
use queue_words::limits::MESSAGE_ROWS;

pub const PIECE: u64 = 8192;

// A store that has so many pieces, or more, is not searched.
const PIECES: usize = 256;

const SEARCHED: u64 = 2097152;

// The longest run of free pieces so far, the longest one beside it, and the piece up to which payloads reach, or where the run that
// goes on began.
#[derive(Clone, Copy)]
pub struct Run {
    pub from: usize,
    pub upto: usize,
    pub low: usize,
    pub high: usize,
    pub start: usize,
}

// Does a payload lie in a store of len bytes?
pub fn lies(place: u64, size: u64, len: u64) -> bool
    ensures { result ≡ lies place size len }
{
    size <= len && place <= len - size
}

// The payloads that begin in piece k reach up to piece x, or further.
fn raise(reach: &mut [u64], k: usize, x: u64)
    requires { k < length reach.old }
    ensures { reach.new ≡ raised reach.old k x }
{
    if reach[k] < x {
        reach[k] = x;
    }
}

// With row i's payload, which has `size` bytes: it reaches up to the piece behind the one at its end.
fn reach_row(queue: &[u64; QUEUE_WORDS], reach: &mut [u64], i: usize, size: u64)
    requires { (i < 1024) × (length reach.old ≡ 256) }
    ensures { reach.new ≡ reached queue.now reach.old i size }
{
    if size == 0 {
        return;
    }
    let place = load_place(queue, i);
    let inside = lies(place, size, SEARCHED - 1);
    if inside {
        let first = place / PIECE;
        raise(reach, first as usize, (place + size) / PIECE + 1);
    }
}

// With the payloads of all rows, or of those that have the used bytes.
fn reach_all(queue: &[u64; QUEUE_WORDS], used: u64, reach: &mut [u64])
    requires { reach.old ≡ replicate 256 0 }
    ensures { reach.new ≡ reach_to queue.now used 1024 }
{
    let mut left = used;
    for i in 0..MESSAGE_ROWS {
        if left == 0 {
            return;
        }
        let size = load_length(queue, i);
        reach_row(queue, reach, i, size);
        left = left.saturating_sub(size);
    }
}

// The runs with the free piece k at the end of the one that goes on.
fn free_at(r: Run, k: usize) -> Run
    requires { (k < 256) × (r.start ≤ k) × (r.from ≤ r.upto) × (r.low ≤ r.high) }
    ensures { result ≡ free_at r k }
{
    let next = k + 1;
    if r.upto == k {
        return Run {
            from: r.start,
            upto: next,
            ..r
        };
    }
    if next - r.start > r.upto - r.from {
        return Run {
            from: r.start,
            upto: next,
            low: r.from,
            high: r.upto,
            ..r
        };
    }
    if next - r.start > r.high - r.low {
        return Run {
            low: r.start,
            high: next,
            ..r
        };
    }
    r
}

// The runs with piece k; the payloads that begin in it reach up to piece x, 0 for none.
fn run_on(r: Run, x: usize, k: usize) -> Run
    requires { (k < 256) × (r.from ≤ r.upto) × (r.low ≤ r.high) }
    ensures { result ≡ run_on r x k }
{
    if x > 0 {
        return Run {
            start: r.start.max(x).max(k + 1),
            ..r
        };
    }
    if r.start > k {
        return r;
    }
    free_at(r, k)
}

// The two longest runs among the first n pieces.
fn longest(reach: &[u64], n: usize) -> Run
    requires { (n ≤ 256) × (length reach.now ≡ 256) }
    ensures { result ≡ run_to reach.now n }
{
    let mut r = Run {
        from: 0,
        upto: 0,
        low: 0,
        high: 0,
        start: 0,
    };
    for k in 0..n {
        r = run_on(r, reach[k] as usize, k);
    }
    r
}

// The gaps that are found; they may be empty, or have too few bytes.
pub fn find_gaps(queue: &[u64; QUEUE_WORDS], used: u64, len: u64) -> Gaps
    ensures { result ≡ found queue.now used len }
{
    if len >= SEARCHED {
        return NO_GAPS;
    }
    let mut reach = [0u64; PIECES];
    reach_all(queue, used, &mut reach);
    let n = (len + PIECE - 1) / PIECE;
    let r = longest(&reach, n as usize);
    Gaps {
        end: r.from as u64 * PIECE,
        limit: len.min(r.upto as u64 * PIECE),
        from: r.low as u64 * PIECE,
        upto: len.min(r.high as u64 * PIECE),
    }
}
