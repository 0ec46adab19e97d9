// The payload store: the payloads of the waiting messages lie whole in one lent slice of bytes.
//
// A message's row says where its payload lies and how long it is; 0 says that it has none. The totals say how many bytes are
// used, and two gaps of the store (src/gaps). A new payload goes to one of them. Where neither has room and the free bytes
// suffice, a gap is searched (src/searching), and where none that is found has room, the payloads are first moved together, in
// the order of their places (src/nearest). The tests and `put_payload` are total: words that no queue has get the answer 16, and
// nothing is changed. `put_own`, `read_own` and `drop_payload` are what follows the tests: their caller knows what these say.
#![tactic(auto)]

pub mod copying;
mod gaps;
mod nearest;
mod searching;

ghost use Rattle.std.specs.Prelude.{◌≡◌, ◌++◌, ◌+◌, ◌<◌, ◌≤◌, length, take, drop};
ghost use Rattle.types.specs.Refusal.{broken_number};
ghost use Rattle.payload_store.specs.Words.{used_of, put_bytes};
ghost use Rattle.payload_store.specs.Moving.{choose, moved, pack, together, Hints};
ghost use Rattle.payload_store.specs.Putting.{row_fits_words, all_fit, put_number, room_number, put_code, outcome, written, placed, put_elsewhere, put_payload};
ghost use Rattle.payload_store.specs.Reading.{read_code, read_part};
ghost use Rattle.payload_store.specs.Dropping.{drop_code_words, drop_payload};

use copying::copy;
use gaps::{NO_GAPS, gap_for, gaps_left, gaps_wrong};
use nearest::{GROUP, GROUPS, UNKNOWN, next_row};
use queue_words::header::{Gaps, load_totals, store_totals};
use queue_words::items::{load_length, load_place, store_length, store_place};
use queue_words::limits::MESSAGE_ROWS;
use queue_words::{QUEUE_WORDS, whole};
use searching::{find_gaps, lies};
use types::refusal::Broken;

// The used bytes and the gaps.
fn store_bytes(queue: &mut [u64; QUEUE_WORDS], used: u64, gaps: Gaps)
    ensures { queue.new ≡ put_bytes queue.old used gaps }
{
    let mut t = load_totals(&*queue);
    t.used = used;
    t.gaps = gaps;
    store_totals(queue, t);
}

// Of the best row so far and row i the one whose payload comes first at or above the cursor.
fn choose_row(queue: &[u64; QUEUE_WORDS], cursor: u64, best: usize, i: usize) -> usize
    requires { i < 1024 }
    ensures { result ≡ choose queue.now cursor best i }
{
    let size = load_length(queue, i);
    if size == 0 {
        return best;
    }
    let place = load_place(queue, i);
    if place < cursor {
        return best;
    }
    if best >= MESSAGE_ROWS {
        return i;
    }
    let other = load_place(queue, best);
    if place < other {
        return i;
    }
    best
}

// n bytes from `from` on go down to `to`, the lowest first: the two parts may overlap.
pub fn move_down(store: &mut [u8], from: usize, to: usize, n: usize)
    requires { (from + n ≤ length store.old) × (to ≤ from) }
    ensures { store.new ≡ moved store.old from to n }
{
    store.copy_within(from..from + n, to);
}

// Moves the payloads together, towards 0, in the order of their places; by what is kept of the groups of rows, at first nothing.
// Answers where they end. It stops at a payload that lies outside the store, which no queue has.
fn move_all(queue: &mut [u64; QUEUE_WORDS], store: &mut [u8], kept: &mut [u64]) -> u64
    requires { Hints queue.old 0 kept.old }
    ensures { pack queue.new store.new result ≡ together queue.old store.old }
{
    whole(queue);
    let len = store.len();
    let mut cursor = 0u64;
    for _ in 0..len {
        let r = next_row(&*queue, cursor, kept);
        if r >= MESSAGE_ROWS {
            return cursor;
        }
        let from = load_place(queue, r);
        let n = load_length(queue, r);
        let inside = lies(from, n, len as u64);
        if !inside {
            return cursor;
        }
        move_down(store, from as usize, cursor as usize, n as usize);
        store_place(queue, r, cursor);
        kept[r / GROUP] = UNKNOWN;
        cursor += n;
    }
    cursor
}

fn move_together(queue: &mut [u64; QUEUE_WORDS], store: &mut [u8]) -> u64
    ensures { pack queue.new store.new result ≡ together queue.old store.old }
{
    let mut kept = [UNKNOWN; GROUPS];
    move_all(queue, store, &mut kept)
}

// A test of all rows half done: whether the rows so far fit, and how many of the used bytes are left for the others.
#[derive(Clone, Copy)]
struct Tally {
    ok: bool,
    left: u64,
}

fn row_fits(queue: &[u64; QUEUE_WORDS], len: u64, i: usize, t: Tally) -> Tally
    requires { i < 1024 }
    ensures { result ≡ row_fits_words queue.now len i t }
{
    if t.left == 0 {
        return t;
    }
    let size = load_length(queue, i);
    if size > len {
        return Tally { ok: false, ..t };
    }
    let place = load_place(queue, i);
    if place > len - size {
        return Tally { ok: false, ..t };
    }
    if size > t.left {
        return Tally { ok: false, ..t };
    }
    Tally {
        left: t.left - size,
        ..t
    }
}

// Are the payloads of some first rows as many bytes together as are used, and does each lie in a store of len bytes? The rows
// behind those are not looked at: a queue has no payload there. Reads only.
fn all_fit(queue: &[u64; QUEUE_WORDS], len: u64, used: u64) -> bool
    ensures { result ≡ all_fit queue.now len used }
{
    let mut t = Tally {
        ok: true,
        left: used,
    };
    for i in 0..MESSAGE_ROWS {
        if t.left == 0 {
            return t.ok;
        }
        t = row_fits(queue, len, i, t);
    }
    t.ok && t.left == 0
}

// Where a payload has room: in a gap that is known, or elsewhere.
#[derive(Clone, Copy, Debug, PartialEq, Eq)]
pub enum Room {
    KnownGap,
    Elsewhere,
}

// Why it has none: refusal 8, or 16.
#[derive(Clone, Copy, Debug, PartialEq, Eq)]
pub enum NoRoom {
    StoreFull,
    Broken,
}

// May a payload of n bytes be put into row i, and where. Reads only.
pub fn put_code(queue: &[u64; QUEUE_WORDS], len: u64, i: usize, n: u64) -> Result<Room, NoRoom>
    ensures { put_number result ≡ put_code queue.now len i n }
{
    if i >= MESSAGE_ROWS {
        return Err(NoRoom::Broken);
    }
    let size = load_length(queue, i);
    if size > 0 {
        return Err(NoRoom::Broken);
    }
    let t = load_totals(queue);
    if t.used > len {
        return Err(NoRoom::Broken);
    }
    if n > len - t.used {
        return Err(NoRoom::StoreFull);
    }
    let wrong = gaps_wrong(t.gaps, len);
    if wrong {
        return Err(NoRoom::Broken);
    }
    let g = gap_for(t.gaps, n);
    if n <= g.limit - g.end {
        return Ok(Room::KnownGap);
    }
    let fit = all_fit(queue, len, t.used);
    if fit {
        return Ok(Room::Elsewhere);
    }
    Err(NoRoom::Broken)
}

// src as the store's bytes from `at` on.
pub fn write_part(store: &mut [u8], at: usize, src: &[u8])
    requires { at + length src.now ≤ length store.old }
    ensures { store.new ≡ written store.old at src.now }
{
    let end = at + src.len();
    copy(src, &mut store[at..end]);
}

// The payload goes to the gap's start.
fn place_payload(
    queue: &mut [u64; QUEUE_WORDS],
    store: &mut [u8],
    g: Gaps,
    i: usize,
    payload: &[u8],
)
    requires { (i < 1024) × (g.end + length payload.now ≤ length store.old) × (used_of queue.old + length payload.now ≤ length store.old) }
    ensures { outcome 0 queue.new store.new ≡ placed queue.old store.old g i payload.now }
{
    let n = payload.len() as u64;
    let t = load_totals(&*queue);
    write_part(store, g.end as usize, payload);
    store_place(queue, i, g.end);
    store_length(queue, i, n);
    store_bytes(
        queue,
        t.used + n,
        Gaps {
            end: g.end + n,
            ..g
        },
    );
}

// Puts a payload into row i where the known gaps have no room: into a gap that is found, or behind the others, moved together.
fn put_elsewhere(queue: &mut [u64; QUEUE_WORDS], store: &mut [u8], i: usize, payload: &[u8])
    requires { (i < 1024) × (used_of queue.old + length payload.now ≤ length store.old) }
    ensures { outcome 0 queue.new store.new ≡ put_elsewhere queue.old store.old i payload.now }
{
    let len = store.len() as u64;
    let n = payload.len() as u64;
    let u = load_totals(&*queue);
    let f = find_gaps(&*queue, u.used, len);
    if n <= f.limit - f.end {
        place_payload(queue, store, f, i, payload);
        return;
    }
    move_together(queue, store);
    let t = load_totals(&*queue);
    place_payload(
        queue,
        store,
        Gaps {
            end: t.used,
            limit: len,
            ..NO_GAPS
        },
        i,
        payload,
    );
}

// Puts a payload into row i, where the test says that it may be put: nothing is tested again.
pub fn put_own(queue: &mut [u64; QUEUE_WORDS], store: &mut [u8], i: usize, payload: &[u8])
    requires { put_code queue.old (length store.old) i (length payload.now) ≤ 1 }
    ensures { outcome 0 queue.new store.new ≡ put_payload queue.old store.old i payload.now }
{
    let n = payload.len() as u64;
    let t = load_totals(&*queue);
    let g = gap_for(t.gaps, n);
    if n <= g.limit - g.end {
        place_payload(queue, store, g, i, payload);
        return;
    }
    put_elsewhere(queue, store, i, payload);
}

// Puts a payload into row i, which has none. Refused: nothing is changed.
pub fn put_payload(
    queue: &mut [u64; QUEUE_WORDS],
    store: &mut [u8],
    i: usize,
    payload: &[u8],
) -> Result<(), NoRoom>
    ensures { outcome (room_number result) queue.new store.new ≡ put_payload queue.old store.old i payload.now }
{
    put_code(queue, store.len() as u64, i, payload.len() as u64)?;
    put_own(queue, store, i, payload);
    Ok(())
}

// The n bytes of the store from `at` on, at dst's start.
fn read_part(dst: &mut [u8], store: &[u8], at: usize, n: usize)
    requires { (at + n ≤ length store.now) × (n ≤ length dst.old) }
    ensures { dst.new ≡ take n (drop at store.now) ++ drop n dst.old }
{
    let end = at + n;
    copy(&store[at..end], dst);
}

// May n bytes from off on of row i's payload be copied to room bytes. Reads only.
pub fn read_code(
    queue: &[u64; QUEUE_WORDS],
    len: u64,
    i: usize,
    off: u64,
    n: u64,
    room: u64,
) -> Result<(), Broken>
    ensures { broken_number result ≡ read_code queue.now len i off n room }
{
    if i >= MESSAGE_ROWS {
        return Err(Broken);
    }
    let size = load_length(queue, i);
    if size > len {
        return Err(Broken);
    }
    let place = load_place(queue, i);
    if place > len - size {
        return Err(Broken);
    }
    if off > size {
        return Err(Broken);
    }
    if n > size - off {
        return Err(Broken);
    }
    if n > room {
        return Err(Broken);
    }
    Ok(())
}

// n bytes from off on of row i's payload go to dst's start, where the test says that they may: nothing is tested again.
pub fn read_own(
    queue: &[u64; QUEUE_WORDS],
    store: &[u8],
    i: usize,
    off: u64,
    n: u64,
    dst: &mut [u8],
)
    requires { read_code queue.now (length store.now) i off n (length dst.old) ≡ 0 }
    ensures { dst.new ≡ read_part queue.now store.now i off n dst.old }
{
    let place = load_place(queue, i);
    let at = place + off;
    read_part(dst, store, at as usize, n as usize);
}

// May row i's payload be dropped. Reads only.
pub fn drop_code(queue: &[u64; QUEUE_WORDS], i: usize) -> Result<(), Broken>
    ensures { broken_number result ≡ drop_code_words queue.now i }
{
    if i >= MESSAGE_ROWS {
        return Err(Broken);
    }
    let size = load_length(queue, i);
    if size == 0 {
        return Err(Broken);
    }
    let t = load_totals(queue);
    if size > t.used {
        return Err(Broken);
    }
    Ok(())
}

// Row i has no payload then. Its test has passed.
pub fn drop_payload(queue: &mut [u64; QUEUE_WORDS], i: usize)
    requires { drop_code_words queue.old i ≡ 0 }
    ensures { queue.new ≡ drop_payload queue.old i }
{
    let size = load_length(&*queue, i);
    let place = load_place(&*queue, i);
    let t = load_totals(&*queue);
    let g = gaps_left(t.gaps, place, size);
    store_length(queue, i, 0);
    if t.used == size {
        store_bytes(
            queue,
            0,
            Gaps {
                limit: g.limit,
                ..NO_GAPS
            },
        );
        return;
    }
    store_bytes(queue, t.used - size, g);
}
