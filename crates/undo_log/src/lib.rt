// An undo log of dropped heads: what a drop may change is kept before it, so that a call which is refused after some drops puts it
// back ("nothing changes in the queue or in any lent buffer when a call is refused") without a copy of all words. A drop's entry has
// three blocks, each the index of its first word and then the words:
//
//     words of the entry     hold
//          0 to  9           the stream's row, 9 words
//         10 to 13           length, offset and next place of the message, 3 words
//         14 to 19           the scheduler's row that changes, 5 words
//
// The header, which every drop changes too, is kept once, by the caller.
#![tactic(auto)]

ghost use Rattle.std.specs.Prelude.{◌≡◌, ◌+◌, ◌*◌, ◌<◌, ◌≤◌, length};
ghost use Rattle.queue_words.specs.Rows.{row, put_row};
ghost use Rattle.undo_log.specs.Log.{block, undone_block, kept, undone_drop, undone, waiting_row, kept_drop};

use active_table::seek;
use queue_words::QUEUE_WORDS;
use queue_words::header::load_scheduler_state;
use queue_words::limits::{LAST_MESSAGE, LAST_STREAM_ROW, STREAMS};
use queue_words::streams::load_stream;

// The words before the tables.
pub const HEADER: usize = 32;

// The words of one drop's entry.
pub const ENTRY: usize = 20;

// The tables' first words.
const STREAM_TABLE: usize = 544;

const MESSAGE_TABLE: usize = 3104;

const ACTIVE_TABLE: usize = 19488;

// n words of one list go to another.
fn copy_row(to: &mut [u64], at: usize, from: &[u64], start: usize, n: usize)
    requires { (at + n ≤ length to.old) × (start + n ≤ length from.now) }
    ensures { to.new ≡ put_row to.old at (row from.now start n) }
{
    to[at..at + n].copy_from_slice(&from[start..start + n]);
}

fn keep_block(log: &mut [u64], at: usize, queue: &[u64; QUEUE_WORDS], from: usize, n: usize)
    requires { (at + 1 + n ≤ length log.old) × (from + n ≤ 20768) }
    ensures { log.new ≡ block log.old at queue.now from n }
{
    log[at] = from as u64;
    copy_row(log, at + 1, queue, from, n);
}

fn keep_rows(
    log: &mut [u64],
    d: usize,
    queue: &[u64; QUEUE_WORDS],
    row: usize,
    place: usize,
    at: usize,
)
    requires { (d * 20 + 20 ≤ length log.old) × (row < 256) × (place < 1024) × (at < 256) }
    ensures { log.new ≡ kept log.old d queue.now row place at }
{
    let b = d * ENTRY;
    keep_block(log, b, queue, STREAM_TABLE + row * 10, 9);
    keep_block(log, b + 10, queue, MESSAGE_TABLE + place * 16 + 12, 3);
    keep_block(log, b + 14, queue, ACTIVE_TABLE + at * 5, 5);
}

// The scheduler's row that a drop changes.
fn waiting_row(queue: &[u64; QUEUE_WORDS], id: u16) -> usize
    ensures { (result ≡ waiting_row queue.now id) × (result < 256) }
{
    let s = load_scheduler_state(queue);
    if s.active > STREAMS {
        return LAST_STREAM_ROW;
    }
    let at = seek(queue, id, s.active as usize);
    if at > LAST_STREAM_ROW {
        return LAST_STREAM_ROW;
    }
    at
}

// Keeps what dropping the head of the stream in a row may change, as drop d.
pub fn keep_drop(log: &mut [u64], d: usize, queue: &[u64; QUEUE_WORDS], id: u16, row: usize)
    requires { d * 20 + 20 ≤ length log.old }
    ensures { log.new ≡ kept_drop log.old d queue.now id row }
{
    if row > LAST_STREAM_ROW {
        return;
    }
    let s = load_stream(queue, row);
    if s.first > LAST_MESSAGE {
        return;
    }
    let at = waiting_row(queue, id);
    keep_rows(log, d, queue, row, s.first as usize, at);
}

fn undo_block(queue: &mut [u64; QUEUE_WORDS], log: &[u64], at: usize, n: usize)
    requires { (at + 1 + n ≤ length log.now) × (n ≤ 20768) }
    ensures { queue.new ≡ undone_block log.now at n queue.old }
{
    let from = log[at];
    if from > (QUEUE_WORDS - n) as u64 {
        return;
    }
    copy_row(queue, from as usize, log, at + 1, n);
}

fn undo_drop(queue: &mut [u64; QUEUE_WORDS], log: &[u64], d: usize)
    requires { d * 20 + 20 ≤ length log.now }
    ensures { queue.new ≡ undone_drop log.now d queue.old }
{
    let b = d * ENTRY;
    undo_block(queue, log, b, 9);
    undo_block(queue, log, b + 10, 3);
    undo_block(queue, log, b + 14, 5);
}

// Puts back what d drops changed behind the header, the last one first.
pub fn undo(queue: &mut [u64; QUEUE_WORDS], log: &[u64], d: usize)
    requires { d * 20 ≤ length log.now }
    ensures { queue.new ≡ undone log.now d queue.old }
{
    for i in (0..d).rev() {
        undo_drop(queue, log, i);
    }
}
