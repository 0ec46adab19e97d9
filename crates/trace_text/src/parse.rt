// A line of the trace: "one letter, then unsigned decimal numbers without leading zeros, each after one space".
ghost use Rattle.std.specs.Prelude.{◌≤◌};

use crate::state::{COUNT, LETTER, LINE_BYTES, NUMBERS, STATE, wide};

#[derive(Clone, Copy)]
pub enum Digits {
    Value(u64),
    Bad,
}

// The number with one digit more.
fn append(value: u64, digit: u8) -> Digits {
    if digit < 48 {
        return Digits::Bad;
    }
    if digit > 57 {
        return Digits::Bad;
    }
    if value > 1844674407370955161 {
        return Digits::Bad;
    }
    let tens = value * 10;
    let ones = wide(digit - 48);
    if ones > 18446744073709551615 - tens {
        return Digits::Bad;
    }
    Digits::Value(tens + ones)
}

// The number that the bytes from one place to another spell.
fn number(line: &[u8; LINE_BYTES], from: usize, to: usize) -> Digits {
    if to > LINE_BYTES {
        return Digits::Bad;
    }
    let mut value = 0;
    for i in from..to {
        let next = append(value, line[i]);
        match next {
            Digits::Value(v) => value = v,
            Digits::Bad => return Digits::Bad,
        }
    }
    Digits::Value(value)
}

// Where a byte first stands from a place on; else the end, or the place if that is past the end.
pub fn find(line: &[u8; LINE_BYTES], from: usize, end: usize, byte: u8) -> usize
    ensures { from ≤ result }
{
    if end > LINE_BYTES {
        return from;
    }
    for i in from..end {
        if line[i] == byte {
            return i;
        }
    }
    from.max(end)
}

// A word of at least one byte, and with no leading zero.
fn is_spelled(line: &[u8; LINE_BYTES], from: usize, to: usize) -> bool {
    if from >= to {
        return false;
    }
    if to - from == 1 {
        return true;
    }
    if from >= LINE_BYTES {
        return false;
    }
    line[from] != b'0'
}

// The number of such a word.
pub fn spelled(line: &[u8; LINE_BYTES], from: usize, to: usize) -> Digits {
    let is_one = is_spelled(line, from, to);
    if is_one {
        return number(line, from, to);
    }
    Digits::Bad
}

// Takes the k-th number, which stands after the space at a place, and answers where it ends; the place itself if there is none.
fn take_number(
    line: &[u8; LINE_BYTES],
    at: usize,
    end: usize,
    state: &mut [u64; STATE],
    k: usize,
) -> usize {
    if at >= LINE_BYTES {
        return at;
    }
    if line[at] != b' ' {
        return at;
    }
    if k >= NUMBERS {
        return at;
    }
    let to = find(line, at + 1, end, b' ');
    store_number(line, at, to, state, k)
}

fn store_number(
    line: &[u8; LINE_BYTES],
    at: usize,
    to: usize,
    state: &mut [u64; STATE],
    k: usize,
) -> usize {
    if k >= NUMBERS {
        return at;
    }
    if at >= LINE_BYTES {
        return at;
    }
    let n = spelled(line, at + 1, to);
    match n {
        Digits::Value(v) => {
            state[k] = v;
            to
        }
        Digits::Bad => at,
    }
}

// Whether the first so many bytes are a line; its letter and numbers are then in the state.
pub fn parse(line: &[u8; LINE_BYTES], end: usize, state: &mut [u64; STATE]) -> bool {
    if end == 0 {
        return false;
    }
    state[LETTER] = wide(line[0]);
    let mut at = 1;
    let mut k = 0;
    // Counted by hand: a step is the length of a number, and a range has one step.
    while at < end {
        let next = take_number(line, at, end, state, k);
        if next <= at {
            return false;
        }
        at = next;
        k += 1;
    }
    state[COUNT] = k as u64;
    true
}
