// Reset requests to the peer: the lines `S number`, `Q buffer response last`, `A bytes` and `Z`.
use lent_calls::LentError;
use send_queue::{QUEUE_WORDS, Refusal};
use stream_reset_handler::{
    ResponseAnswer, StreamResetHandler, handle_response, make_request, reset, start,
};
use trace_answers::marks::{BEFORE, OUTPUT, SHOWN, as_before};
use trace_answers::settle::{refusal_of, settle_words};
use trace_text::hex::put_part;
use trace_text::output::{Answers, put_answer, put_broken, put_byte, put_number, put_text};
use trace_text::payload::sum_of;
use trace_text::state::{
    IS_UNDERWAY, NEXT_NUMBER, PAYLOAD, STARTED, STATE, UNDERWAY_NUMBER, bit, low32,
};

// What a call answers: a refusal's number, or 0 and a number.
#[derive(Clone, Copy)]
pub struct Told {
    pub refusal: u64,
    pub number: u64,
}

fn handler_of(state: &[u64; STATE]) -> StreamResetHandler {
    let next_number = low32(state[NEXT_NUMBER]);
    let number = low32(state[UNDERWAY_NUMBER]);
    if state[IS_UNDERWAY] == 1 {
        return StreamResetHandler {
            next_number: next_number,
            underway: Some(number),
        };
    }
    StreamResetHandler {
        next_number: next_number,
        underway: None,
    }
}

// The place of a number with none underway stays.
fn keep_handler(state: &mut [u64; STATE], handler: StreamResetHandler) {
    state[NEXT_NUMBER] = handler.next_number as u64;
    state[IS_UNDERWAY] = bit(handler.underway.is_some());
    if let Some(number) = handler.underway {
        state[UNDERWAY_NUMBER] = number as u64;
    }
}

// "A refused call changes nothing": nor does it change the handler.
fn settle_handler(
    handler: StreamResetHandler,
    refusal: u64,
    output: &mut Answers,
    state: &mut [u64; STATE],
) {
    let next = state[NEXT_NUMBER];
    let had = state[IS_UNDERWAY];
    keep_handler(state, handler);
    if refusal == 0 {
        return;
    }
    if state[NEXT_NUMBER] == next {
        if state[IS_UNDERWAY] == had {
            return;
        }
    }
    put_broken(output, b"handler changed at a refusal");
}

pub fn answer_start(output: &mut Answers, state: &mut [u64; STATE]) {
    let handler = start(low32(state[0]));
    state[STARTED] = 1;
    keep_handler(state, handler);
    put_text(output, b"S 0\n");
}

fn told_request(a: Result<Option<usize>, LentError>) -> Told {
    match a {
        Ok(n) => Told {
            refusal: 0,
            number: n.unwrap_or(0) as u64,
        },
        Err(e) => Told {
            refusal: e.number(),
            number: 0,
        },
    }
}

// The sum over the whole output, and the message if it is short.
fn put_message(message: &[u8], n: usize, output: &mut Answers, room: usize) {
    let total = sum_of(message, room);
    put_text(output, b"Q 0");
    put_number(output, n as u64);
    put_number(output, total);
    if n <= SHOWN {
        put_part(message, 0, n, output);
    }
    put_byte(output, b'\n');
}

fn put_requested(message: &[u8], t: Told, output: &mut Answers, room: usize) {
    if t.refusal > 0 {
        put_answer(output, b'Q', t.refusal);
    }
    if t.refusal == 0 {
        put_message(message, t.number as usize, output, room);
    }
    let stays = as_before(message, t.number as usize);
    if stays == false {
        put_broken(output, b"output");
    }
}

// What a call of the handler's leaves, and the handler.
#[derive(Clone, Copy)]
struct Answered<T> {
    answer: Result<T, LentError>,
    handler: StreamResetHandler,
}

fn lent<T: Copy>(answer: Result<T, Refusal>, handler: StreamResetHandler) -> Answered<T> {
    match answer {
        Ok(value) => Answered {
            answer: Ok(value),
            handler,
        },
        Err(refusal) => Answered {
            answer: Err(LentError::Refused(refusal)),
            handler,
        },
    }
}

fn lent_request(
    queue: &mut [u64; QUEUE_WORDS],
    message: &mut [u8],
    state: &[u64; STATE],
) -> Answered<Option<usize>> {
    let room = state[0] as usize;
    let handler = handler_of(state);
    if room > message.len() {
        return Answered {
            answer: Err(LentError::TooShort),
            handler,
        };
    }
    let m = make_request(
        queue,
        handler,
        &mut message[0..room],
        low32(state[1]),
        low32(state[2]),
    );
    lent(m.answer, m.handler)
}

fn request_into(
    queue: &mut [u64; QUEUE_WORDS],
    kept: &mut [u64; QUEUE_WORDS],
    message: &mut [u8],
    output: &mut Answers,
    state: &mut [u64; STATE],
) {
    let m = lent_request(queue, message, &*state);
    let a = m.answer;
    let handler = m.handler;
    let t = told_request(a);
    let refusal = t.refusal;
    put_requested(&*message, t, output, state[0] as usize);
    settle_handler(handler, refusal, output, state);
    settle_words(&*queue, kept, refusal, output);
}

pub fn answer_request(
    queue: &mut [u64; QUEUE_WORDS],
    kept: &mut [u64; QUEUE_WORDS],
    output: &mut Answers,
    state: &mut [u64; STATE],
) {
    let mut message = [BEFORE; OUTPUT];
    request_into(queue, kept, &mut message, output, state);
}

fn response_number(a: ResponseAnswer) -> u64 {
    match a {
        ResponseAnswer::Ignored => 0,
        ResponseAnswer::Committed => 1,
        ResponseAnswer::RolledBack => 2,
        ResponseAnswer::StillWaiting => 3,
    }
}

fn told_response(a: Result<ResponseAnswer, LentError>) -> Told {
    match a {
        Ok(answer) => Told {
            refusal: 0,
            number: response_number(answer),
        },
        Err(e) => Told {
            refusal: e.number(),
            number: 0,
        },
    }
}

fn put_responded(t: Told, output: &mut Answers) {
    put_byte(output, b'A');
    put_number(output, t.refusal);
    if t.refusal == 0 {
        put_number(output, t.number);
    }
    put_byte(output, b'\n');
}

fn lent_response(
    queue: &mut [u64; QUEUE_WORDS],
    payload: &[u8],
    state: &[u64; STATE],
) -> Answered<ResponseAnswer> {
    let n = state[0] as usize;
    let handler = handler_of(state);
    if n > payload.len() {
        return Answered {
            answer: Err(LentError::TooShort),
            handler,
        };
    }
    let h = handle_response(queue, handler, &payload[0..n]);
    lent(h.answer, h.handler)
}

pub fn answer_response(
    queue: &mut [u64; QUEUE_WORDS],
    kept: &mut [u64; QUEUE_WORDS],
    payload: &[u8; PAYLOAD],
    output: &mut Answers,
    state: &mut [u64; STATE],
) {
    let h = lent_response(queue, payload, &*state);
    let a = h.answer;
    let handler = h.handler;
    let t = told_response(a);
    let refusal = t.refusal;
    put_responded(t, output);
    settle_handler(handler, refusal, output, state);
    settle_words(&*queue, kept, refusal, output);
}

pub fn answer_reset(
    queue: &mut [u64; QUEUE_WORDS],
    kept: &mut [u64; QUEUE_WORDS],
    output: &mut Answers,
    state: &mut [u64; STATE],
) {
    let r = reset(queue, handler_of(&*state));
    let done = lent(r.answer, r.handler);
    let refusal = refusal_of(done.answer);
    let handler = done.handler;
    put_answer(output, b'Z', refusal);
    settle_handler(handler, refusal, output, state);
    settle_words(&*queue, kept, refusal, output);
}
