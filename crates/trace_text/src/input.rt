// Standard input, by way of a buffer, line by line.
use crate::state::{BUFFER, INPUT_AT, INPUT_END, LINE_BYTES, STATE, low8, wide};
use std::io::{self, Read, Stdin};

// What stands for a byte where the input has ended.
const NO_BYTE: u64 = 256;

// What stands for a line's length where the input has ended, and where a line does not end or is too long.
pub const NO_LINE: usize = 3000;

pub const BAD_LINE: usize = 3001;

fn refill(stdin: &mut Stdin, input: &mut [u8]) -> io::Result<usize> {
    stdin.read(input)
}

fn take_byte(input: &[u8; BUFFER], state: &mut [u64; STATE], at: u64) -> u64 {
    if at > 65535 {
        return NO_BYTE;
    }
    state[INPUT_AT] = at + 1;
    wide(input[at as usize])
}

fn next_byte(
    stdin: &mut Stdin,
    input: &mut [u8; BUFFER],
    state: &mut [u64; STATE],
) -> io::Result<u64> {
    let at = state[INPUT_AT];
    if at < state[INPUT_END] {
        return Ok(take_byte(&*input, state, at));
    }
    let n = refill(stdin, input)?;
    state[INPUT_END] = n as u64;
    if n == 0 {
        return Ok(NO_BYTE);
    }
    Ok(take_byte(&*input, state, 0))
}

// What the input's end means after so many bytes of a line.
fn ended(bytes: usize) -> usize {
    if bytes == 0 {
        return NO_LINE;
    }
    BAD_LINE
}

// The next line, without its end, and its length.
pub fn read_line(
    stdin: &mut Stdin,
    input: &mut [u8; BUFFER],
    state: &mut [u64; STATE],
    line: &mut [u8; LINE_BYTES],
) -> io::Result<usize> {
    for i in 0..LINE_BYTES {
        let b = next_byte(stdin, input, state)?;
        if b == 10 {
            return Ok(i);
        }
        if b > 255 {
            return Ok(ended(i));
        }
        line[i] = low8(b);
    }
    Ok(BAD_LINE)
}
