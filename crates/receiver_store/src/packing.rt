// Moving the payloads together, towards 0: as many of the newest rows as it takes, along the age chain.
ghost use Rattle.std.specs.Prelude.{◌≡◌, ◌+◌, ◌<◌, ◌≤◌, length};
ghost use Rattle.types.specs.Refusal.{broken_number};
ghost use Rattle.payload_store.specs.Moving.{pack};
ghost use Rattle.payload_store.specs.Putting.{outcome};
ghost use Rattle.receiver_store.specs.Words.{used_of};
ghost use Rattle.receiver_store.specs.Packing.{goal_of, start_from, start_of, pack_code, move_row, pack_from, packed};

use crate::places::misplaced;
use payload_store::move_down;
use receiver_words::RECEIVER_WORDS;
use receiver_words::cells::{
    END, LENGTH, NEWER, NEWEST, NO_ROW, OLDER, PLACE, USED, load_header, load_link, store_header,
    store_link,
};
use types::refusal::Broken;

// One more than the rows of the table: a chain that has not ended then goes in a circle.
const TURNS: usize = 4097;

// Where moving together begins: whether it can, the first row that moves (4096: none), the byte that it goes to, and where the used part ends then.
#[derive(Clone, Copy)]
pub struct Start {
    pub found: bool,
    pub row: u64,
    pub cursor: u64,
    pub end: u64,
}

// Where the used part is to end before n bytes are put: with half of the bytes that stay free behind them.
fn goal_of(used: u64, len: u64, n: u64) -> u64
    requires { used + n ≤ len }
    ensures { result ≡ goal_of used len n }
{
    used + (len - used - n) / 2
}

// From the newest row down to one above which the gaps suffice: the rows above it then end at or below the goal. Reads only.
fn find_start(receiver: &[u64; RECEIVER_WORDS], goal: u64, newest: u64, end: u64) -> Start
    ensures { result ≡ start_from 4097 receiver.now goal newest 4096 end 0 }
{
    let mut p = newest;
    let mut row = NO_ROW;
    let mut high = end;
    let mut sum = 0u64;
    for _ in 0..TURNS {
        if p >= 4096 {
            return Start {
                found: sum <= goal,
                row: row,
                cursor: 0,
                end: sum,
            };
        }
        let place = load_link(receiver, p as usize, PLACE);
        let size = load_link(receiver, p as usize, LENGTH);
        let out = misplaced(0, high, place, size);
        if out {
            return Start {
                found: false,
                row: NO_ROW,
                cursor: 0,
                end: 0,
            };
        }
        let top = place + size;
        let after = top + sum;
        if after <= goal {
            return Start {
                found: true,
                row: row,
                cursor: top,
                end: after,
            };
        }
        row = p;
        high = place;
        sum += size;
        p = load_link(receiver, p as usize, OLDER);
    }
    Start {
        found: false,
        row: NO_ROW,
        cursor: 0,
        end: 0,
    }
}

// Where moving together begins for a payload of n bytes in a store of len bytes. Reads only.
fn start_of(receiver: &[u64; RECEIVER_WORDS], len: u64, n: u64) -> Start
    requires { used_of receiver.now + n ≤ len }
    ensures { result ≡ start_of receiver.now len n }
{
    let used = load_header(receiver, USED);
    let goal = goal_of(used, len, n);
    let newest = load_header(receiver, NEWEST);
    let end = load_header(receiver, END);
    find_start(receiver, goal, newest, end)
}

// May the payloads be moved together for one of n bytes in a store of len bytes. Reads only.
pub fn pack_code(receiver: &[u64; RECEIVER_WORDS], len: u64, n: u64) -> Result<(), Broken>
    requires { used_of receiver.now + n ≤ len }
    ensures { broken_number result ≡ pack_code receiver.now len n }
{
    let s = start_of(receiver, len, n);
    if s.found {
        return Ok(());
    }
    Err(Broken)
}

// Row i's payload goes down to the cursor. Answers where it ends then.
fn move_row(receiver: &mut [u64; RECEIVER_WORDS], store: &mut [u8], cursor: u64, i: usize) -> u64
    requires { i < 4096 }
    ensures { pack receiver.new store.new result ≡ move_row (pack receiver.old store.old cursor) i }
{
    let place = load_link(&*receiver, i, PLACE);
    let size = load_link(&*receiver, i, LENGTH);
    let out = misplaced(cursor, store.len() as u64, place, size);
    if out {
        return cursor;
    }
    if place == cursor {
        return cursor + size;
    }
    move_down(store, place as usize, cursor as usize, size as usize);
    store_link(receiver, i, PLACE, cursor);
    cursor + size
}

// The rows from `first` on, the first to the cursor `to`. Answers where their payloads end then.
fn move_rows(receiver: &mut [u64; RECEIVER_WORDS], store: &mut [u8], first: u64, to: u64) -> u64
    ensures { pack receiver.new store.new result ≡ pack_from 4096 (pack receiver.old store.old to) first }
{
    let mut p = first;
    let mut cursor = to;
    for _ in 0..4096usize {
        if p >= 4096 {
            return cursor;
        }
        let newer = load_link(&*receiver, p as usize, NEWER);
        cursor = move_row(receiver, store, cursor, p as usize);
        p = newer;
    }
    cursor
}

// Moves payloads together, so that one of n bytes has room at the end.
pub fn move_together(receiver: &mut [u64; RECEIVER_WORDS], store: &mut [u8], n: u64)
    requires { used_of receiver.old + n ≤ length store.old }
    ensures { outcome 0 receiver.new store.new ≡ packed receiver.old store.old n }
{
    let s = start_of(&*receiver, store.len() as u64, n);
    move_rows(receiver, store, s.row, s.cursor);
    store_header(receiver, END, s.end);
}
