// Runs a trace of calls, read from standard input, on the send queue and the receiving head, and writes the answers. Where one breaks
// what a trace cannot show, or a line is malformed, a line of the answers begins with BROKEN.
#![tactic(auto)]

mod lines;
mod ranges;

use lines::answer;
use ranges::{is_call, is_started};
use receiver_lines::keep_sum;
use receiver_words::RECEIVER_WORDS;
use send_queue::QUEUE_WORDS;
use std::io::{self, Stdin};
use trace_answers::marks::{EVENT_BUFFER, mark_events};
use trace_text::given::parse_bytes;
use trace_text::input::{BAD_LINE, NO_LINE, read_line};
use trace_text::output::{Answers, count_line, finish, put_broken};
use trace_text::parse::parse;
use trace_text::state::{BUFFER, IMAGE, LINE_BYTES, PAYLOAD, STATE, STORE};

// Whether the next line is there and is a call. A malformed line is told.
fn next_call(
    rt: &impl Eprint,
    stdin: &mut Stdin,
    payload: &mut [u8; PAYLOAD],
    input: &mut [u8; BUFFER],
    output: &mut Answers,
    state: &mut [u64; STATE],
) -> io::Result<bool> {
    let mut line = [0u8; LINE_BYTES];
    let n = read_line(stdin, input, state, &mut line)?;
    if n == NO_LINE {
        return Ok(false);
    }
    count_line(output);
    let good = is_line(&line, n, payload, state);
    if good {
        return Ok(true);
    }
    put_broken(output, b"malformed");
    rt.eprintln("replay: a malformed line")?;
    Ok(false)
}

// A line of a letter and bytes, which go to the payload.
fn is_bytes_line(
    line: &[u8; LINE_BYTES],
    n: usize,
    payload: &mut [u8; PAYLOAD],
    state: &mut [u64; STATE],
) -> bool {
    let parsed = parse_bytes(line, n, payload, state);
    if parsed {
        return is_started(&*state, line[0]);
    }
    false
}

fn is_numbers_line(line: &[u8; LINE_BYTES], n: usize, state: &mut [u64; STATE]) -> bool {
    let parsed = parse(line, n, state);
    if parsed {
        return is_call(&*state);
    }
    false
}

fn is_line(
    line: &[u8; LINE_BYTES],
    n: usize,
    payload: &mut [u8; PAYLOAD],
    state: &mut [u64; STATE],
) -> bool {
    if n == BAD_LINE {
        return false;
    }
    let letter = line[0];
    match letter {
        b'R' | b'A' | b'D' => is_bytes_line(line, n, payload, state),
        _ => is_numbers_line(line, n, state),
    }
}

// A proved loop has to end, and nothing says that a trace does. So the loop takes as many turns as no run uses up.
fn run(
    rt: &impl Eprint,
    stdin: &mut Stdin,
    queue: &mut [u64; QUEUE_WORDS],
    kept: &mut [u64; QUEUE_WORDS],
    store: &mut [u8; STORE],
    kept_store: &mut [u8; STORE],
    events: &mut [u64; EVENT_BUFFER],
    payload: &mut [u8; PAYLOAD],
    image: &mut [u8; IMAGE],
    head: &mut [u64; RECEIVER_WORDS],
    input: &mut [u8; BUFFER],
    output: &mut Answers,
    state: &mut [u64; STATE],
) -> io::Result<()> {
    for _ in 0..u64::MAX {
        let more = next_call(rt, stdin, payload, input, output, state)?;
        if more == false {
            return Ok(());
        }
        answer(
            queue, kept, store, kept_store, events, payload, image, head, output, state,
        );
    }
    Ok(())
}

// What waits is written at the end in any case.
fn main(rt: HostRuntime) -> io::Result<()> {
    let mut queue = [0u64; QUEUE_WORDS];
    let mut kept = [0u64; QUEUE_WORDS];
    let mut store = [0u8; STORE];
    let mut kept_store = [0u8; STORE];
    let mut events = [0u64; EVENT_BUFFER];
    let mut payload = [0u8; PAYLOAD];
    let mut image = [0u8; IMAGE];
    let mut head = [0u64; RECEIVER_WORDS];
    let mut input = [0u8; BUFFER];
    let mut output = Answers::new(rt.stdout());
    let mut state = [0u64; STATE];
    mark_events(&mut events, EVENT_BUFFER);
    keep_sum(&head, &mut state);
    let ran = run(
        &rt,
        &mut rt.stdin(),
        &mut queue,
        &mut kept,
        &mut store,
        &mut kept_store,
        &mut events,
        &mut payload,
        &mut image,
        &mut head,
        &mut input,
        &mut output,
        &mut state,
    );
    let wrote = finish(&mut output);
    ran?;
    wrote
}
