// The stream reset handler, lent as three numbers, and what its calls tell: what the libraries for C and for the Rust crate share.
#![tactic(auto)]

ghost use Rattle.std.specs.Prelude.{◌≡◌};
ghost use Rattle.queue_streams.specs.Answers.{as_call, call_number};
ghost use Rattle.stream_reset_handler.specs.Answers.{as_request, as_response};
ghost use Rattle.host_handler.specs.Handler.{handler_in, handler_numbers, request_number, request_out, request_handler, response_number_words, response_out, response_handler, reset_handler};

use out_array::{OUT_WORDS, VALUE};
use stream_reset_handler::{
    HandledResponse, MadeRequest, QueueReset, ResponseAnswer, StreamResetHandler,
};
use types::Refusal;

// The numbers of a handler, and how many.
pub const HANDLER_NUMBERS: usize = 3;

pub const NEXT_NUMBER: usize = 0;

pub const IS_UNDERWAY: usize = 1;

pub const UNDERWAY_NUMBER: usize = 2;

// What VALUE tells of a response.
pub const IGNORED: u64 = 0;

pub const COMMITTED: u64 = 1;

pub const ROLLED_BACK: u64 = 2;

pub const STILL_WAITING: u64 = 3;

// Any three numbers are a handler.
pub fn handler_in(numbers: &[u32; HANDLER_NUMBERS]) -> StreamResetHandler
    ensures { result ≡ handler_in numbers.now }
{
    let next_number = numbers[NEXT_NUMBER];
    let is_underway = numbers[IS_UNDERWAY];
    let number = numbers[UNDERWAY_NUMBER];
    if is_underway == 0 {
        return StreamResetHandler {
            next_number: next_number,
            underway: None,
        };
    }
    StreamResetHandler {
        next_number: next_number,
        underway: Some(number),
    }
}

pub fn put_handler(numbers: &mut [u32; HANDLER_NUMBERS], handler: StreamResetHandler)
    ensures { numbers.new ≡ handler_numbers numbers.old handler }
{
    let underway = handler.underway;
    numbers[NEXT_NUMBER] = handler.next_number;
    match underway {
        None => {
            numbers[IS_UNDERWAY] = 0;
        }
        Some(n) => {
            numbers[IS_UNDERWAY] = 1;
            numbers[UNDERWAY_NUMBER] = n;
        }
    }
}

pub fn tell_request(
    handler: &mut [u32; HANDLER_NUMBERS],
    out: &mut [u64; OUT_WORDS],
    m: MadeRequest,
) -> u32
    ensures { (result ≡ request_number (as_request m.answer)) × (out.new ≡ request_out out.old (as_request m.answer)) × (handler.new ≡ request_handler handler.old (as_request m.answer) m.handler) }
{
    let a = m.answer;
    let next = m.handler;
    match a {
        Ok(Some(n)) => {
            put_handler(handler, next);
            out[VALUE] = n as u64;
            0
        }
        Ok(None) => {
            out[VALUE] = 0;
            0
        }
        Err(refusal) => u8::from(refusal) as u32,
    }
}

pub fn tell_outcome(out: &mut [u64; OUT_WORDS], a: Result<ResponseAnswer, Refusal>) -> u32
    ensures { (result ≡ response_number_words (as_response a)) × (out.new ≡ response_out out.old (as_response a)) }
{
    match a {
        Ok(ResponseAnswer::Ignored) => {
            out[VALUE] = IGNORED;
            0
        }
        Ok(ResponseAnswer::Committed) => {
            out[VALUE] = COMMITTED;
            0
        }
        Ok(ResponseAnswer::RolledBack) => {
            out[VALUE] = ROLLED_BACK;
            0
        }
        Ok(ResponseAnswer::StillWaiting) => {
            out[VALUE] = STILL_WAITING;
            0
        }
        Err(refusal) => u8::from(refusal) as u32,
    }
}

// The request ends with a commit or a rollback alone; else the numbers stay.
pub fn put_ended(handler: &mut [u32; HANDLER_NUMBERS], h: HandledResponse)
    ensures { handler.new ≡ response_handler handler.old (as_response h.answer) h.handler }
{
    let a = h.answer;
    let next = h.handler;
    match a {
        Ok(ResponseAnswer::Committed) | Ok(ResponseAnswer::RolledBack) => put_handler(
            handler, next,
        ),
        Ok(ResponseAnswer::Ignored) | Ok(ResponseAnswer::StillWaiting) | Err(_) => (),
    }
}

pub fn tell_reset(handler: &mut [u32; HANDLER_NUMBERS], r: QueueReset) -> u32
    ensures { (result ≡ call_number (as_call r.answer)) × (handler.new ≡ reset_handler handler.old (as_call r.answer) r.handler) }
{
    let c = r.answer;
    let next = r.handler;
    match c {
        Ok(_) => {
            put_handler(handler, next);
            0
        }
        Err(refusal) => u8::from(refusal) as u32,
    }
}
