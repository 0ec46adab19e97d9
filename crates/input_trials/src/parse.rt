// A line of the script: a letter for the call, keys each with its number, and after a semicolon the label.
use crate::state::{STATE, plus, wide};

// One digit more of a key's number.
fn take_digit(state: &mut [u64; STATE], key: usize, b: u8) {
    if key > 25 {
        return;
    }
    if b < 48 {
        return;
    }
    if b > 57 {
        return;
    }
    let v = state[key];
    if v > 1844674407370955160 {
        return;
    }
    state[key] = plus(v * 10, wide(b - 48));
}

// One byte, and the key that the digits after it belong to.
fn take_byte(state: &mut [u64; STATE], key: usize, b: u8) -> usize {
    if b < 97 {
        take_digit(state, key, b);
        return key;
    }
    if b > 122 {
        return key;
    }
    let next = (b - 97) as usize;
    state[next] = 0;
    next
}

// Takes the numbers, and answers where the label begins.
pub fn parse(line: &[u8], state: &mut [u64; STATE]) -> usize {
    let mut key = 0;
    for i in 1..line.len() {
        if line[i] == b';' {
            return i + 1;
        }
        key = take_byte(state, key, line[i]);
    }
    line.len().max(1)
}

// Where the line from a place on ends; the place itself if that is past the script.
pub fn line_end(script: &[u8], from: usize) -> usize {
    for i in from..script.len() {
        if script[i] == b'\n' {
            return i;
        }
    }
    from.max(script.len())
}
