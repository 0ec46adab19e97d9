// "The scheduler's [table] as a lent table of records, one for each waiting stream, which the queue holds and lends to the
// scheduler's functions": lookup by stream, and the least finish time, over a lent slice of records.
//
// The queue holds the table in its words. Every row that a search looks at is lent, four at a time or one: so small a part
// stays in registers once compiled, and nothing is copied then (docs/DECISIONS.md).
#![tactic(auto)]

pub mod groups;

ghost use Rattle.std.specs.Prelude.{◌≡◌, ◌+◌, ◌-◌, ◌<◌, ◌≤◌, ◌^◌, length};
ghost use Rattle.active_table.specs.Rows.{seek_from, seek, best_of, better, best_among, best_to};
ghost use Rattle.active_table.specs.Parts.{rows_of, rows_from, AreRows};
ghost use Rattle.active_table.specs.Groups.{best_at};
ghost use Rattle.active_table.specs.Passing.{latest, finish_of, soonest, ids_behind_words, four_behind};

use queue_words::QUEUE_WORDS;
use queue_words::active::{ActiveStreamInfo, load_active};
use std::array;

// The latest time there is.
const LATEST: u64 = 18446744073709551615;

const LARGEST_ID: u16 = 65535;

// The first row of a stream in a lent table, or the number of its rows.
pub fn position(table: &[ActiveStreamInfo], stream_id: u16) -> usize
    ensures { result ≡ seek_from (rows_of table.now) stream_id 0 (length table.now) }
{
    let found = table.iter().position(|row| row.stream_id.0 == stream_id);
    found.unwrap_or(table.len())
}

// A row in the search for the least: its place, finish time and stream.
#[derive(Clone, Copy)]
pub struct Best {
    pub id: u16,
    pub at: usize,
    pub finish: u64,
}

fn best_of(row: ActiveStreamInfo, at: usize) -> Best
    ensures { result ≡ best_of row at }
{
    Best {
        id: row.stream_id.0,
        at,
        finish: row.virtual_finish_time,
    }
}

// "the smallest finish time, then the smallest id", of the best so far and a row.
fn better(best: Best, row: ActiveStreamInfo, at: usize) -> Best
    ensures { result ≡ better best (best_of row at) }
{
    if best.finish < row.virtual_finish_time {
        return best;
    }
    if row.virtual_finish_time < best.finish {
        return best_of(row, at);
    }
    if best.id <= row.stream_id.0 {
        return best;
    }
    best_of(row, at)
}

// The best of `start` and the rows of a lent table, which stand from place `from` on.
pub fn least(table: &[ActiveStreamInfo], from: usize, start: Best) -> Best
    requires { from + length table.now < 2 ^ 64 }
    ensures { result ≡ best_among (rows_of table.now) start from (length table.now) }
{
    let mut best = start;
    for (i, row) in table.iter().enumerate() {
        best = better(best, *row, from + i);
    }
    best
}

// The earliest finish time of a lent table's rows.
pub fn soonest(table: &[ActiveStreamInfo]) -> u64
    ensures { result ≡ soonest (rows_of table.now) (length table.now) }
{
    let mut time = LATEST;
    for row in table {
        time = time.min(row.virtual_finish_time);
    }
    time
}

// None of a lent table's ids is below this one.
pub fn ids_behind(table: &[ActiveStreamInfo], id: u16) -> bool
    ensures { result ≡ ids_behind_words (rows_of table.now) id 0 (length table.now) }
{
    table.iter().all(|row| id <= row.stream_id.0)
}

// The parts of the table that are lent.

// N rows of the queue from `from` on.
fn rows_at<const N: usize>(queue: &[u64; QUEUE_WORDS], from: usize) -> [ActiveStreamInfo; N]
    requires { from + N ≤ 256 }
    ensures { AreRows queue.now from N result }
{
    array::from_fn(|i| load_active(queue, from + i))
}

fn position_in<const N: usize>(queue: &[u64; QUEUE_WORDS], from: usize, stream_id: u16) -> usize
    requires { from + N ≤ 256 }
    ensures { result ≡ seek_from (rows_from queue.now from) stream_id 0 N }
{
    let table = rows_at::<N>(queue, from);
    position(&table, stream_id)
}

// It tells too that the first row finishes by the latest time, which `least_row` starts from.
fn least_of<const N: usize>(queue: &[u64; QUEUE_WORDS], from: usize, start: Best) -> Best
    requires { from + N ≤ 256 }
    ensures { (result ≡ best_among (rows_from queue.now from) start from N) × (finish_of (rows_from queue.now from) 0 ≤ latest) }
{
    let table = rows_at::<N>(queue, from);
    least(&table, from, start)
}

fn soonest_of<const N: usize>(queue: &[u64; QUEUE_WORDS], from: usize) -> u64
    requires { from + N ≤ 256 }
    ensures { result ≡ soonest (rows_from queue.now from) N }
{
    let table = rows_at::<N>(queue, from);
    soonest(&table)
}

fn ids_behind_in<const N: usize>(queue: &[u64; QUEUE_WORDS], from: usize, id: u16) -> bool
    requires { from + N ≤ 256 }
    ensures { result ≡ ids_behind_words (rows_from queue.now from) id 0 N }
{
    let table = rows_at::<N>(queue, from);
    ids_behind(&table, id)
}

// The same of four rows, lent one by one: lent together, all four ids would be loaded where the first may be enough.
fn ids_behind_in_four(queue: &[u64; QUEUE_WORDS], from: usize, id: u16) -> bool
    requires { from + 4 ≤ 256 }
    ensures { result ≡ ids_behind_words (rows_from queue.now from) id 0 4 }
{
    for k in 0..4 {
        if !ids_behind_in::<1>(queue, from + k, id) {
            return false;
        }
    }
    true
}

// Where this is true, none of the four rows goes before the best so far; where it is false, one of them may.
fn four_behind(queue: &[u64; QUEUE_WORDS], from: usize, best: Best) -> bool
    requires { from + 4 ≤ 256 }
    ensures { result ≡ four_behind queue.now from best }
{
    let earliest = soonest_of::<4>(queue, from);
    if best.finish < earliest {
        return true;
    }
    if earliest < best.finish {
        return false;
    }
    ids_behind_in_four(queue, from, best.id)
}

// The best of `best` and four rows, compared row by row only where one of them may go before it.
fn least_past(queue: &[u64; QUEUE_WORDS], from: usize, best: Best) -> Best
    requires { from + 4 ≤ 256 }
    ensures { result ≡ best_among (rows_from queue.now from) best from 4 }
{
    let behind = four_behind(queue, from, best);
    if behind {
        return best;
    }
    least_of::<4>(queue, from, best)
}

// The first row of a stream among n rows of the queue, or n.
pub fn seek(queue: &[u64; QUEUE_WORDS], stream_id: u16, n: usize) -> usize
    requires { n ≤ 256 }
    ensures { result ≡ seek queue.now stream_id n }
{
    for g in 0..n / 4 {
        let k = position_in::<4>(queue, g * 4, stream_id);
        if k < 4 {
            return g * 4 + k;
        }
    }
    for i in n / 4 * 4..n {
        let k = position_in::<1>(queue, i, stream_id);
        if k < 1 {
            return i + k;
        }
    }
    n
}

// The row `from` alone. The search starts from a place behind every row, so that the first is lent as the others are.
fn first_row(queue: &[u64; QUEUE_WORDS], from: usize) -> Best
    requires { from + 1 ≤ 256 }
    ensures { result ≡ best_at queue.now from }
{
    let last = Best {
        id: LARGEST_ID,
        at: from,
        finish: LATEST,
    };
    least_of::<1>(queue, from, last)
}

// The best of `start` and n rows from `from` on.
fn least_among(queue: &[u64; QUEUE_WORDS], from: usize, n: usize, start: Best) -> Best
    requires { from + n ≤ 256 }
    ensures { result ≡ best_among (rows_from queue.now from) start from n }
{
    let mut best = start;
    for g in 0..n / 4 {
        best = least_past(queue, from + g * 4, best);
    }
    for i in n / 4 * 4..n {
        best = least_of::<1>(queue, from + i, best);
    }
    best
}

// The least of n rows of the queue, each looked at.
fn least_row(queue: &[u64; QUEUE_WORDS], n: usize) -> Best
    requires { (0 < n) × (n ≤ 256) }
    ensures { result ≡ best_to queue.now (n - 1) }
{
    let first = first_row(queue, 0);
    least_among(queue, 1, n - 1, first)
}
