// Bytes, as lowercase hexadecimal digits.
use crate::output::{Answers, put_byte};

fn digit(n: u8) -> u8 {
    if n < 10 {
        return n + 48;
    }
    if n < 16 {
        return n + 87;
    }
    63
}

// A byte, as two digits.
fn put_hex(output: &mut Answers, b: u8) {
    put_byte(output, digit(b / 16));
    put_byte(output, digit(b % 16));
}

// A space and the bytes, if any.
fn put_bytes(bytes: &[u8], output: &mut Answers) {
    if bytes.len() > 0 {
        put_byte(output, b' ');
    }
    for &b in bytes {
        put_hex(output, b);
    }
}

// The bytes from one place to another.
pub fn put_part(bytes: &[u8], from: usize, to: usize, output: &mut Answers) {
    if to > bytes.len() {
        return;
    }
    if from > to {
        return;
    }
    put_bytes(&bytes[from..to], output);
}
