// The bytes of a line `R bytes`: "parts joined by `+`, without a space. A part is lowercase hexadecimal, two digits a byte, or
// `LENGTH*SEED`, so many bytes of the payload pattern with that seed [..]. `-` alone is no bytes. At most 70,000 bytes."
ghost use Rattle.std.specs.Prelude.{◌≤◌};

use crate::parse::{Digits, find, spelled};
use crate::payload::fill;
use crate::state::{COUNT, LETTER, LINE_BYTES, PAYLOAD, STATE, wide};

const MOST_BYTES: usize = 70000;

// What stands for a count of bytes where a part is none.
const NO_PART: usize = 70001;

// A digit's value; 16 for another byte.
fn value_of(digit: u8) -> u8
    ensures { result ≤ 16 }
{
    if digit < 48 {
        return 16;
    }
    if digit < 58 {
        return digit - 48;
    }
    if digit < 97 {
        return 16;
    }
    if digit < 103 {
        return digit - 87;
    }
    16
}

// One byte behind the first `at`; how many they are then.
fn put_pair(payload: &mut [u8], at: usize, high: u8, low: u8) -> usize {
    let tall = value_of(high);
    let short = value_of(low);
    if tall > 15 {
        return NO_PART;
    }
    if short > 15 {
        return NO_PART;
    }
    if at >= MOST_BYTES {
        return NO_PART;
    }
    if at >= payload.len() {
        return NO_PART;
    }
    payload[at] = tall * 16 + short;
    at + 1
}

fn put_digits(
    line: &[u8; LINE_BYTES],
    from: usize,
    to: usize,
    payload: &mut [u8],
    at: usize,
) -> usize {
    if to > LINE_BYTES {
        return NO_PART;
    }
    let mut n = at;
    for i in (from..to).step_by(2) {
        if to - i < 2 {
            return NO_PART;
        }
        n = put_pair(payload, n, line[i], line[i + 1]);
        if n == NO_PART {
            return NO_PART;
        }
    }
    n
}

fn put_pattern(payload: &mut [u8], at: usize, count: u64, seed: u64) -> usize {
    if at > MOST_BYTES {
        return NO_PART;
    }
    if count > 70000 {
        return NO_PART;
    }
    let end = at + count as usize;
    if end > MOST_BYTES {
        return NO_PART;
    }
    if end > payload.len() {
        return NO_PART;
    }
    fill(&mut payload[at..end], seed);
    end
}

fn put_seeded(
    line: &[u8; LINE_BYTES],
    star: usize,
    to: usize,
    payload: &mut [u8],
    at: usize,
    count: u64,
) -> usize {
    if star >= LINE_BYTES {
        return NO_PART;
    }
    let seed = spelled(line, star + 1, to);
    match seed {
        Digits::Value(s) => put_pattern(payload, at, count, s),
        Digits::Bad => NO_PART,
    }
}

fn put_counted(
    line: &[u8; LINE_BYTES],
    from: usize,
    star: usize,
    to: usize,
    payload: &mut [u8],
    at: usize,
) -> usize {
    let count = spelled(line, from, star);
    match count {
        Digits::Value(n) => put_seeded(line, star, to, payload, at, n),
        Digits::Bad => NO_PART,
    }
}

// A part's bytes behind the first `at`.
fn put_part(
    line: &[u8; LINE_BYTES],
    from: usize,
    to: usize,
    payload: &mut [u8],
    at: usize,
) -> usize {
    if from >= to {
        return NO_PART;
    }
    let star = find(line, from, to, b'*');
    if star < to {
        return put_counted(line, from, star, to, payload, at);
    }
    put_digits(line, from, to, payload, at)
}

// All parts; a `+` has one behind it.
fn put_parts(line: &[u8; LINE_BYTES], from: usize, end: usize, payload: &mut [u8]) -> usize {
    let mut n = 0;
    let mut at = from;
    // Counted by hand: a step ends behind the next `+`, and a range has one step.
    while at < end {
        let to = find(line, at, end, b'+');
        n = put_part(line, at, to, payload, n);
        if n == NO_PART {
            return NO_PART;
        }
        if to >= end {
            return n;
        }
        at = to + 1;
    }
    NO_PART
}

fn count_bytes(line: &[u8; LINE_BYTES], end: usize, payload: &mut [u8]) -> usize {
    if end < 3 {
        return NO_PART;
    }
    if line[1] != b' ' {
        return NO_PART;
    }
    if end == 3 {
        if line[2] == b'-' {
            return 0;
        }
    }
    put_parts(line, 2, end, payload)
}

// Whether the line is one; its bytes are then the payload's first, and their count is its number.
pub fn parse_bytes(
    line: &[u8; LINE_BYTES],
    end: usize,
    payload: &mut [u8; PAYLOAD],
    state: &mut [u64; STATE],
) -> bool {
    let n = count_bytes(line, end, payload);
    if n > MOST_BYTES {
        return false;
    }
    state[LETTER] = wide(line[0]);
    state[0] = n as u64;
    state[COUNT] = 1;
    true
}
