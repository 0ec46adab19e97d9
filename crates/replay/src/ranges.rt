// How many numbers each line has, and their ranges.
use receiver_lines::HEADS;
use request_lines::plan::is_plan;
use trace_text::state::{
    BITS16, COUNT, LETTER, MOST_PLACES, NEW_WITH_RULE, QUEUES, STARTED, STATE, low8,
};

const ANY: u64 = 18446744073709551615;

const FLAG: u64 = 1;

const BITS32: u64 = 4294967295;

// No line has so many numbers.
const NO_CALL: u64 = 99;

// The numbers of a line `n` without the rule of a restart, which it may leave out.
const NEW: u64 = 6;

// Of a line `W`; no other of these lines has more.
const MOST_NUMBERS: u64 = 13;

fn count_of(letter: u8) -> u64 {
    match letter {
        b'g' | b'k' | b'b' | b'r' | b'Z' => 0,
        b'c' | b'i' | b'q' | b's' | b'o' | b'w' | b'l' | b'S' | b'V' | b'G' => 1,
        b'p' | b'd' | b't' | b'y' | b'h' | b'x' => 2,
        b'Q' | b'H' => 3,
        b'v' => 4,
        b'n' => NEW,
        b'F' => 7,
        b'a' => 11,
        b'W' => MOST_NUMBERS,
        _ => NO_CALL,
    }
}

// The largest k-th number of a line `n`, `v` or `a`, and of the others.
fn most_new(k: usize) -> u64 {
    match k {
        1 => 2100000,
        2 => BITS16,
        5 | 6 => FLAG,
        _ => ANY,
    }
}

fn most_lent(k: usize) -> u64 {
    match k {
        0 => MOST_PLACES as u64,
        1 => 300000,
        _ => 2100000,
    }
}

fn most_add(k: usize) -> u64 {
    match k {
        1 | 7 => BITS16,
        2 => BITS32,
        3 | 4 | 6 => FLAG,
        9 => 300000,
        _ => ANY,
    }
}

fn most_write(k: usize) -> u64 {
    match k {
        0 | 4 | 9 | 10 => FLAG,
        1 | 11 => 70000,
        2 | 6 | 7 | 8 => BITS32,
        3 | 5 => BITS16,
        _ => ANY,
    }
}

fn most_fill(k: usize) -> u64 {
    match k {
        2 => 70000,
        3 | 4 => BITS16,
        5 | 6 => BITS32,
        _ => ANY,
    }
}

fn most_request(k: usize) -> u64 {
    match k {
        0 => 70000,
        _ => BITS32,
    }
}

fn most_head(k: usize) -> u64 {
    match k {
        0 => FLAG,
        1 => BITS32,
        _ => 2100000,
    }
}

fn most_discard(k: usize) -> u64 {
    match k {
        0 => BITS16,
        _ => BITS32,
    }
}

fn most_threshold(k: usize) -> u64 {
    match k {
        0 => BITS16,
        _ => ANY,
    }
}

fn most_change(k: usize) -> u64 {
    match k {
        0 => ANY,
        _ => 255,
    }
}

fn most(letter: u8, k: usize) -> u64 {
    match letter {
        b'n' => most_new(k),
        b'v' => most_lent(k),
        b'a' => most_add(k),
        b'W' => most_write(k),
        b'F' => most_fill(k),
        b'Q' => most_request(k),
        b'H' => most_head(k),
        b'S' => BITS32,
        b'd' => most_discard(k),
        b't' => most_threshold(k),
        b'c' | b'q' | b'y' => BITS16,
        b'i' => FLAG,
        b'x' => most_change(k),
        b'l' | b'V' | b'G' => 2100000,
        _ => ANY,
    }
}

// Whether the line may come while there is no queue.
fn needs_no_queue(letter: u8) -> bool {
    match letter {
        b'n' | b'v' | b'h' | b'x' | b'l' | b'W' | b'H' | b'V' | b'G' => true,
        _ => false,
    }
}

fn has_queue(state: &[u64; STATE], letter: u8) -> bool {
    if state[QUEUES] == 1 {
        return true;
    }
    needs_no_queue(letter)
}

// A line of the stream reset handler wants its start, and one of the receiving head wants a head.
pub(crate) fn is_started(state: &[u64; STATE], letter: u8) -> bool {
    match letter {
        b'Q' | b'A' | b'Z' => state[STARTED] == 1,
        b'V' | b'D' | b'G' => state[HEADS] == 1,
        _ => true,
    }
}

fn numbers_fit(state: &[u64; STATE], letter: u8, count: usize) -> bool {
    if count > 13 {
        return false;
    }
    for k in 0..count {
        if state[k] > most(letter, k) {
            return false;
        }
    }
    true
}

// Whether a line has so many numbers.
fn has_count(letter: u8, count: u64) -> bool {
    if count == count_of(letter) {
        return true;
    }
    match letter {
        b'n' => count == NEW_WITH_RULE,
        _ => false,
    }
}

// A line of a few numbers.
fn is_short_call(state: &[u64; STATE], letter: u8) -> bool {
    let count = state[COUNT];
    let counted = has_count(letter, count);
    if counted == false {
        return false;
    }
    let fit = numbers_fit(state, letter, count as usize);
    if fit {
        let queued = has_queue(state, letter);
        if queued {
            return is_started(state, letter);
        }
    }
    false
}

// Whether the line is a call, its numbers are as many as it asks and in their ranges, and there is a queue for it.
pub(crate) fn is_call(state: &[u64; STATE]) -> bool {
    let letter = low8(state[LETTER]);
    match letter {
        b'P' => is_plan(state),
        _ => is_short_call(state, letter),
    }
}
