// Tries the send queue on bad input, by a script from standard input: calls that document 01 says are refused, and calls on words
// that no queue has. Each labelled line of the script writes one: what was tried, the answer's number, 0 for accepted, and for a
// refusal whether all is unchanged. What breaks document 01 begins with BROKEN.
#![tactic(auto)]

mod calls;

ghost use Rattle.std.specs.Prelude.{◌≤◌, length, IfOk};

use calls::{answer_of, call};
use input_trials::answers::{clear_totals, note, put_line};
use input_trials::parse::{line_end, parse};
use input_trials::random::prepare;
use input_trials::settle::{mark_events, mark_fragment, settle};
use input_trials::state::{
    CREATED, EVENT_BUFFER, FILL_CALLS, FILLING, FRAGMENT, LETTER, MESSAGE_ID, MESSAGE_STEP, SCRIPT,
    SEED, STATE, STORE, STORE_BYTES, STREAM, STREAM_STEP, TIMES, TURN, bit, plus, set_usual, wide,
};
use send_queue::QUEUE_WORDS;
use std::io::{self, Read, Stdin};

fn run_call(
    rt: &impl Print,
    queue: &mut [u64; QUEUE_WORDS],
    kept: &mut [u64; QUEUE_WORDS],
    store: &mut [u8; STORE],
    events: &mut [u64; EVENT_BUFFER],
    fragment: &mut [u8; FRAGMENT],
    state: &mut [u64; STATE],
) -> io::Result<u64> {
    let c = call(queue, store, events, fragment, state);
    let refusal = answer_of(c, state);
    let same = settle(&*queue, kept, store, events, fragment, &*state, refusal);
    note(rt, refusal, same, state)?;
    Ok(refusal)
}

// After a call: whether it is the line's last, as it was refused outside of a fill. Else the next stream and message id.
fn stops(refusal: u64, state: &mut [u64; STATE]) -> bool {
    if state[FILLING] == 1 {
        return false;
    }
    if refusal > 0 {
        return true;
    }
    state[STREAM] = plus(state[STREAM], state[STREAM_STEP]);
    state[MESSAGE_ID] = plus(state[MESSAGE_ID], state[MESSAGE_STEP]);
    false
}

// The calls of a line: as many as it says, and where words are filled each of all calls for each time.
fn turns(state: &[u64; STATE]) -> u64 {
    let times = state[TIMES] % 1000000;
    if state[FILLING] == 1 {
        return times * FILL_CALLS;
    }
    times
}

// After fills the good queue is there again.
fn restore(
    queue: &mut [u64; QUEUE_WORDS],
    kept: &mut [u64; QUEUE_WORDS],
    good: &[u64; QUEUE_WORDS],
    state: &[u64; STATE],
) {
    if state[FILLING] == 1 {
        *queue = *good;
        *kept = *good;
    }
}

// Makes the calls of a line, and answers the refusal at which it stops.
fn run_line(
    rt: &impl Print,
    queue: &mut [u64; QUEUE_WORDS],
    kept: &mut [u64; QUEUE_WORDS],
    store: &mut [u8; STORE],
    events: &mut [u64; EVENT_BUFFER],
    fragment: &mut [u8; FRAGMENT],
    state: &mut [u64; STATE],
) -> io::Result<u64> {
    let good = *queue;
    for _ in 0..turns(&*state) {
        prepare(queue, kept, &good, state);
        let refusal = run_call(rt, queue, kept, store, events, fragment, state)?;
        let last = stops(refusal, state);
        if last {
            return Ok(refusal);
        }
    }
    restore(queue, kept, &good, &*state);
    Ok(0)
}

// Takes a line, and answers where its label begins.
fn take_line(line: &[u8], letter: u8, state: &mut [u64; STATE]) -> usize {
    set_usual(state);
    state[LETTER] = wide(letter);
    state[FILLING] = bit(letter == b'F');
    state[TURN] = 0;
    clear_totals(state);
    parse(line, state)
}

// Writes what came of a line. Its label begins after a space.
fn end_line(
    rt: &impl Print,
    line: &[u8],
    from: usize,
    letter: u8,
    refusal: u64,
    state: &mut [u64; STATE],
) -> io::Result<()> {
    note_created(letter, refusal, state);
    if from >= line.len() {
        return put_line(rt, b"", refusal, state);
    }
    let label = from + 1;
    put_line(rt, &line[label..], refusal, state)
}

fn note_created(letter: u8, refusal: u64, state: &mut [u64; STATE]) {
    if letter != b'N' {
        return;
    }
    if refusal == 0 {
        state[CREATED] = state[STORE_BYTES];
    }
}

// One line of the script. A comment begins with #.
fn obey(
    rt: &impl Print,
    queue: &mut [u64; QUEUE_WORDS],
    kept: &mut [u64; QUEUE_WORDS],
    store: &mut [u8; STORE],
    events: &mut [u64; EVENT_BUFFER],
    fragment: &mut [u8; FRAGMENT],
    state: &mut [u64; STATE],
    line: &[u8],
) -> io::Result<()> {
    if line.len() == 0 {
        return Ok(());
    }
    let letter = line[0];
    if letter == b'#' {
        return Ok(());
    }
    let label = take_line(line, letter, state);
    let refusal = run_line(rt, queue, kept, store, events, fragment, state)?;
    end_line(rt, line, label, letter, refusal, state)
}

fn run(
    rt: &impl Print,
    queue: &mut [u64; QUEUE_WORDS],
    kept: &mut [u64; QUEUE_WORDS],
    store: &mut [u8; STORE],
    events: &mut [u64; EVENT_BUFFER],
    fragment: &mut [u8; FRAGMENT],
    state: &mut [u64; STATE],
    script: &[u8],
) -> io::Result<()> {
    let mut at = 0;
    // Counted by hand: a step is the length of a line, and a range has one step.
    while at < script.len() {
        let end = line_end(script, at);
        if end > script.len() {
            return Ok(());
        }
        if end < at {
            return Ok(());
        }
        obey(
            rt,
            queue,
            kept,
            store,
            events,
            fragment,
            state,
            &script[at..end],
        )?;
        at = end + 1;
    }
    Ok(())
}

// Reads until the script is full or the input ends, and answers how many bytes it got.
fn read_script(stdin: &mut Stdin, script: &mut [u8]) -> io::Result<usize>
    ensures { IfOk result (λ n. n ≤ length script.new) }
{
    let mut done = 0;
    // Counted by hand: a step is what one read got, and a range has one step.
    while done < script.len() {
        let n = stdin.read(&mut script[done..])?;
        if n == 0 {
            return Ok(done);
        }
        done += n;
    }
    Ok(done)
}

fn main(rt: HostRuntime) -> io::Result<()> {
    let mut queue = [0u64; QUEUE_WORDS];
    let mut kept = [0u64; QUEUE_WORDS];
    let mut store = [0u8; STORE];
    let mut events = [0u64; EVENT_BUFFER];
    let mut fragment = [0u8; FRAGMENT];
    let mut state = [0u64; STATE];
    let mut script = [0u8; SCRIPT];
    state[SEED] = 88172645463325252;
    mark_events(&mut events);
    mark_fragment(&mut fragment);
    let n = read_script(&mut rt.stdin(), &mut script)?;
    run(
        &rt,
        &mut queue,
        &mut kept,
        &mut store,
        &mut events,
        &mut fragment,
        &mut state,
        &script[..n],
    )
}
