// The current image: shown, changed, cut or extended.
use trace_text::hex::put_part;
use trace_text::output::{Answers, put_byte, put_text};
use trace_text::state::{IMAGE, IMAGE_LENGTH, STATE, low8};

// Where so many bytes from a place on end, clipped to the length.
fn end_of(from: u64, count: u64, length: u64) -> u64 {
    if from >= length {
        return length;
    }
    if count >= length - from {
        return length;
    }
    from + count
}

// "shows bytes of the current image, clipped to its end"
pub fn answer_show(image: &[u8; IMAGE], output: &mut Answers, state: &[u64; STATE]) {
    let from = state[0];
    let end = end_of(from, state[1], state[IMAGE_LENGTH]);
    put_byte(output, b'h');
    put_part(image, from as usize, end as usize, output);
    put_byte(output, b'\n');
}

fn put_in(image: &mut [u8; IMAGE], at: u64, b: u8) {
    if at < 2100000 {
        image[at as usize] = b;
    }
}

// "sets a byte of the current image; past the end, nothing"
pub fn answer_change(image: &mut [u8; IMAGE], output: &mut Answers, state: &[u64; STATE]) {
    let at = state[0];
    if at < state[IMAGE_LENGTH] {
        put_in(image, at, low8(state[1]));
    }
    put_text(output, b"x\n");
}

fn zeros(image: &mut [u8; IMAGE], from: usize, to: usize) {
    if from < to && to <= 2100000 {
        image[from..to].fill(0);
    }
}

// "cuts the current image to the length, or extends it with zero bytes"
pub fn answer_length(image: &mut [u8; IMAGE], output: &mut Answers, state: &mut [u64; STATE]) {
    zeros(image, state[IMAGE_LENGTH] as usize, state[0] as usize);
    state[IMAGE_LENGTH] = state[0];
    put_text(output, b"l\n");
}
