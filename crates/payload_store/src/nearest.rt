// The payload that is moved next: of the rows in 32 groups of 32, each group's least row is kept from turn to turn, and a group is
// searched again only where that row has come to lie below the cursor. So a turn looks at some 64 rows, and not at 1,024.
ghost use Rattle.std.specs.Prelude.{◌≡◌, ◌*◌, ◌<◌};
ghost use Rattle.payload_store.specs.Moving.{least_in, better, least, Hint, Hints, Exact};

use crate::choose_row;
use queue_words::QUEUE_WORDS;
use queue_words::items::load_place;
use queue_words::limits::{MESSAGE_ROWS, MESSAGES};

pub const GROUPS: usize = 32;

pub const GROUP: usize = 32;

// What is kept of a group whose least row is not known; 1024 stands for no row.
pub const UNKNOWN: u64 = MESSAGES + 1;

// The row of group g whose payload comes first at or above the cursor; 1024 for none.
fn least_in(queue: &[u64; QUEUE_WORDS], cursor: u64, g: usize) -> usize
    requires { g < 32 }
    ensures { result ≡ least_in queue.now cursor (g * 32) 32 }
{
    let first = g * GROUP;
    let mut best = MESSAGE_ROWS;
    for i in first..first + GROUP {
        best = choose_row(queue, cursor, best, i);
    }
    best
}

// Of two rows, 1024 for none, the one whose payload comes first.
fn better(queue: &[u64; QUEUE_WORDS], b: usize, c: usize) -> usize
    ensures { result ≡ better queue.now b c }
{
    if c >= MESSAGE_ROWS {
        return b;
    }
    if b >= MESSAGE_ROWS {
        return c;
    }
    let place = load_place(queue, c);
    let other = load_place(queue, b);
    if place < other {
        return c;
    }
    b
}

// Group g's least row, by what was kept of it.
fn renewed(queue: &[u64; QUEUE_WORDS], cursor: u64, g: usize, b: usize) -> usize
    requires { (g < 32) × Hint queue.now cursor g b }
    ensures { result ≡ least_in queue.now cursor (g * 32) 32 }
{
    if b > MESSAGE_ROWS {
        return least_in(queue, cursor, g);
    }
    if b == MESSAGE_ROWS {
        return b;
    }
    let place = load_place(queue, b);
    if place < cursor {
        return least_in(queue, cursor, g);
    }
    b
}

// The row whose payload comes first at or above the cursor; 1024 for none. What is kept is then each group's least row.
pub fn next_row(queue: &[u64; QUEUE_WORDS], cursor: u64, kept: &mut [u64]) -> usize
    requires { Hints queue.now cursor kept.old }
    ensures { (result ≡ least queue.now cursor 1024) × Exact queue.now cursor 32 kept.new }
{
    let mut best = MESSAGE_ROWS;
    for g in 0..GROUPS {
        let b = renewed(queue, cursor, g, kept[g] as usize);
        kept[g] = b as u64;
        best = better(queue, best, b);
    }
    best
}
