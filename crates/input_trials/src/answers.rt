// Which numbers document 01 has for each call, and what is written.
use crate::state::{
    ANSWERS, BROKEN, BYTES, CALLS, EVENTS, FILLING, LETTER, SAME, STATE, bit, both, low8, plus,
};
use std::io;

pub fn put(rt: &impl Print, text: &[u8]) -> io::Result<()> {
    rt.write_all(text)
}

pub fn put_number(rt: &impl Print, n: u64) -> io::Result<()> {
    rt.print(n)
}

fn may_create(refusal: u64) -> bool {
    match refusal {
        1 | 2 => true,
        _ => false,
    }
}

fn may_add(refusal: u64) -> bool {
    match refusal {
        2 | 4..=8 | 16 => true,
        _ => false,
    }
}

fn may_produce(refusal: u64) -> bool {
    match refusal {
        2..=4 | 9 | 10 | 16 => true,
        _ => false,
    }
}

// Close and setting a threshold.
fn may_note(refusal: u64) -> bool {
    match refusal {
        3 | 6 | 16 => true,
        _ => false,
    }
}

fn may_refuse(letter: u8, refusal: u64) -> bool {
    match letter {
        b'N' => may_create(refusal),
        b'A' => may_add(refusal),
        b'P' => may_produce(refusal),
        b'C' | b'T' => may_note(refusal),
        b'D' => both(may_note(refusal), refusal != 6),
        b'Y' => both(may_note(refusal), refusal != 3),
        b'6' | b'7' | b'8' => false,
        _ => refusal == 16,
    }
}

fn may_answer(letter: u8, refusal: u64) -> bool {
    if refusal == 0 {
        return true;
    }
    may_refuse(letter, refusal)
}

// Says loudly what is broken.
fn put_broken(
    rt: &impl Print,
    what: &[u8],
    letter: u8,
    refusal: u64,
    state: &mut [u64; STATE],
) -> io::Result<()> {
    put(rt, b"BROKEN ")?;
    put(rt, what)?;
    put(rt, b": call ")?;
    let name = [letter; 1];
    put(rt, &name)?;
    put(rt, b", answer ")?;
    put_number(rt, refusal)?;
    put(rt, b"\n")?;
    state[BROKEN] = plus(state[BROKEN], 1);
    Ok(())
}

fn count(refusal: u64, state: &mut [u64; STATE]) {
    state[CALLS] = plus(state[CALLS], 1);
    if refusal > 16 {
        return;
    }
    let at = ANSWERS + refusal as usize;
    state[at] = plus(state[at], 1);
}

// Counts an answer, and tells what it breaks.
pub fn note(rt: &impl Print, refusal: u64, same: bool, state: &mut [u64; STATE]) -> io::Result<()> {
    let letter = low8(state[LETTER]);
    state[SAME] = bit(same);
    state[EVENTS] = 0;
    state[BYTES] = 0;
    count(refusal, state);
    let may = may_answer(letter, refusal);
    if may == false {
        put_broken(rt, b"number", letter, refusal, state)?;
    }
    if same == false {
        put_broken(rt, b"changed", letter, refusal, state)?;
    }
    Ok(())
}

// A line of the output: the label and the answer. A line without a label prepares, and is not to be refused.
fn put_answer(
    rt: &impl Print,
    label: &[u8],
    refusal: u64,
    state: &mut [u64; STATE],
) -> io::Result<()> {
    if label.len() == 0 {
        if refusal > 0 {
            put_broken(rt, b"preparation", low8(state[LETTER]), refusal, state)?;
        }
        return Ok(());
    }
    put(rt, label)?;
    put(rt, b": ")?;
    put_number(rt, refusal)?;
    put_change(rt, refusal, state[SAME])
}

pub fn put_line(
    rt: &impl Print,
    label: &[u8],
    refusal: u64,
    state: &mut [u64; STATE],
) -> io::Result<()> {
    if state[FILLING] == 1 {
        return put_totals(rt, label, &*state);
    }
    put_answer(rt, label, refusal, state)
}

fn put_change(rt: &impl Print, refusal: u64, same: u64) -> io::Result<()> {
    if refusal == 0 {
        return put(rt, b"\n");
    }
    if same == 1 {
        return put(rt, b" unchanged\n");
    }
    put(rt, b" CHANGED\n")
}

fn put_answers(rt: &impl Print, state: &[u64; STATE]) -> io::Result<()> {
    for i in 1..17 {
        let n = state[ANSWERS + i];
        if n > 0 {
            put(rt, b", ")?;
            put_number(rt, i as u64)?;
            put(rt, b": ")?;
            put_number(rt, n)?;
        }
    }
    Ok(())
}

fn put_totals(rt: &impl Print, label: &[u8], state: &[u64; STATE]) -> io::Result<()> {
    put(rt, label)?;
    put(rt, b": ")?;
    put_number(rt, state[CALLS])?;
    put(rt, b" calls, accepted ")?;
    put_number(rt, state[ANSWERS])?;
    put_answers(rt, state)?;
    put(rt, b"\n")
}

pub fn clear_totals(state: &mut [u64; STATE]) {
    state[CALLS] = 0;
    state[ANSWERS..ANSWERS + 17].fill(0);
}
