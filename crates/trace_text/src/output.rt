// Standard output, by way of a buffer of words: how many bytes wait, the number of the line in the trace, and the bytes, one a
// word. It knows its place itself, so that what writes an answer is lent this alone. The first write that fails is kept for the end,
// and nothing is written after it.
ghost use Rattle.std.specs.Prelude.{◌<◌};

use crate::state::{low8, wide};
use itoa::Buffer;
use std::io::{self, Stdout};

const WORDS: usize = 8194;

const WAITING: usize = 0;

const LINE: usize = 1;

const TEXT: usize = 2;

// The bytes that it has room for.
const ROOM: usize = 8192;

#[derive(Drop)]
pub struct Answers {
    words: [u64; WORDS],
    stdout: Stdout,
    written: io::Result<()>,
}

impl Answers {
    pub fn new(stdout: Stdout) -> Answers {
        Answers {
            words: [0u64; WORDS],
            stdout,
            written: Ok(()),
        }
    }
}

// The places of the bytes, whether one waits there or not.
fn take_bytes(output: &[u64; WORDS], bytes: &mut [u8; ROOM]) {
    for i in 0..ROOM {
        bytes[i] = low8(output[TEXT + i]);
    }
}

fn write_first(stdout: Stdout, bytes: &[u8], n: u64) -> io::Result<()> {
    if n > bytes.len() as u64 {
        return Ok(());
    }
    stdout.write_all(&bytes[0..n as usize])
}

fn write_waiting(stdout: Stdout, bytes: &[u8; ROOM], n: u64) -> io::Result<()> {
    write_first(stdout, bytes, n)
}

// Writes out what waits.
pub fn flush(output: &mut Answers) {
    let mut bytes = [0u8; ROOM];
    take_bytes(&output.words, &mut bytes);
    if output.written.is_ok() {
        output.written = write_waiting(output.stdout, &bytes, output.words[WAITING]);
    }
    output.words[WAITING] = 0;
}

// Writes out what waits, at the end, and answers whether all went well.
pub fn finish(output: &mut Answers) -> io::Result<()> {
    flush(output);
    output.written
}

// A place for one byte more. A full buffer is written out first.
fn room(output: &mut Answers) -> usize
    ensures { result < 8192 }
{
    let at = output.words[WAITING];
    if at < 8192 {
        return at as usize;
    }
    flush(output);
    0
}

pub fn put_byte(output: &mut Answers, b: u8) {
    let at = room(output);
    output.words[TEXT + at] = wide(b);
    output.words[WAITING] = (at + 1) as u64;
}

pub fn put_text(output: &mut Answers, text: &[u8]) {
    for &b in text {
        put_byte(output, b);
    }
}

// A space and a number.
pub fn put_number(output: &mut Answers, n: u64) {
    let mut digits = Buffer::new();
    put_byte(output, b' ');
    put_text(output, digits.format(n).as_bytes());
}

// The answer of most calls: the letter and the refusal's number, 0 for accepted.
pub fn put_answer(output: &mut Answers, letter: u8, refusal: u64) {
    put_byte(output, letter);
    put_number(output, refusal);
    put_byte(output, b'\n');
}

// Says loudly that the queue broke what a trace cannot show.
pub fn put_broken(output: &mut Answers, what: &[u8]) {
    let line = output.words[LINE];
    put_text(output, b"BROKEN line");
    put_number(output, line);
    put_byte(output, b' ');
    put_text(output, what);
    put_byte(output, b'\n');
}

// One line more of the trace.
pub fn count_line(output: &mut Answers) {
    let n = output.words[LINE];
    if n < 18446744073709551615 {
        output.words[LINE] = n + 1;
    }
}
