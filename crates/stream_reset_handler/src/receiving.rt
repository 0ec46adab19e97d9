// Receiving a response, and the whole-queue reset.
ghost use Rattle.std.specs.Prelude.{◌≡◌, true, false};
ghost use Rattle.reset_model.specs.Wire.{read_response};
ghost use Rattle.reset_wire.specs.Reading.{response_of};
ghost use Rattle.stream_reset_handler.specs.Answers.{as_handled, as_response, as_reset};
ghost use Rattle.stream_reset_handler.specs.Receiving.{handled, if_underway, step_of, FinishMeets, HandleMeets, ResetHandlerMeets};

use crate::handler::{StreamResetHandler, ended, is_underway};
use reset_wire::{Response, read_response};
use send_queue::{QUEUE_WORDS, Refusal, commit_reset_streams, rollback_reset_streams};

#[derive(Clone, Copy, Debug, PartialEq, Eq)]
pub enum ResponseAnswer {
    Ignored,
    Committed,
    RolledBack,
    StillWaiting,
}

#[derive(Clone, Copy)]
pub struct HandledResponse {
    pub answer: Result<ResponseAnswer, Refusal>,
    pub handler: StreamResetHandler,
}

#[derive(Clone, Copy)]
pub struct QueueReset {
    pub answer: Result<usize, Refusal>,
    pub handler: StreamResetHandler,
}

fn answered(answer: Result<ResponseAnswer, Refusal>, handler: StreamResetHandler) -> HandledResponse
    ensures { as_handled result ≡ handled (as_response answer) handler }
{
    HandledResponse { answer, handler }
}

// "Result 0 or 1 commits".
fn commit(queue: &mut [u64; QUEUE_WORDS], handler: StreamResetHandler) -> HandledResponse
    ensures { FinishMeets true queue.old handler (as_handled result) queue.new }
{
    let done = commit_reset_streams(queue);
    match done {
        Ok(_) => answered(Ok(ResponseAnswer::Committed), ended(handler)),
        Err(refusal) => answered(Err(refusal), handler),
    }
}

// "2 to 5 roll back".
fn roll_back(queue: &mut [u64; QUEUE_WORDS], handler: StreamResetHandler) -> HandledResponse
    ensures { FinishMeets false queue.old handler (as_handled result) queue.new }
{
    let done = rollback_reset_streams(queue);
    match done {
        Ok(_) => answered(Ok(ResponseAnswer::RolledBack), ended(handler)),
        Err(refusal) => answered(Err(refusal), handler),
    }
}

// What received bytes ask for.
#[derive(Clone, Copy)]
pub enum ResponseStep {
    Commit,
    RollBack,
    Wait,
    Ignore,
    Refuse,
}

// "A response to another request number, or with none underway, changes nothing."
fn if_underway(handler: StreamResetHandler, number: u32, step: ResponseStep) -> ResponseStep
    ensures { result ≡ if_underway handler number step }
{
    let same = is_underway(handler, number);
    if same {
        return step;
    }
    ResponseStep::Ignore
}

// "Result 0 or 1 commits, 2 to 5 roll back, 6 keeps the same request waiting". 27: "received bytes break this layout".
pub fn step_for(handler: StreamResetHandler, bytes: &[u8]) -> ResponseStep
    ensures { result ≡ step_of (response_of (read_response bytes.now)) handler }
{
    match read_response(bytes) {
        Some(Response::Commits(n)) => if_underway(handler, n, ResponseStep::Commit),
        Some(Response::RollsBack(n)) => if_underway(handler, n, ResponseStep::RollBack),
        Some(Response::KeepsWaiting(n)) => if_underway(handler, n, ResponseStep::Wait),
        None => ResponseStep::Refuse,
    }
}

pub fn handle_response(
    queue: &mut [u64; QUEUE_WORDS],
    handler: StreamResetHandler,
    bytes: &[u8],
) -> HandledResponse
    ensures { HandleMeets queue.old handler bytes.now (as_handled result) queue.new }
{
    let step = step_for(handler, bytes);
    match step {
        ResponseStep::Commit => commit(queue, handler),
        ResponseStep::RollBack => roll_back(queue, handler),
        ResponseStep::Wait => answered(Ok(ResponseAnswer::StillWaiting), handler),
        ResponseStep::Ignore => answered(Ok(ResponseAnswer::Ignored), handler),
        ResponseStep::Refuse => answered(Err(Refusal::ResponseWrong), handler),
    }
}

// "Whole-queue reset goes through it and ends the request."
pub fn reset(queue: &mut [u64; QUEUE_WORDS], handler: StreamResetHandler) -> QueueReset
    ensures { ResetHandlerMeets queue.old handler (as_reset result) queue.new }
{
    let done = send_queue::reset(queue);
    match done {
        Ok(_) => QueueReset {
            answer: done,
            handler: ended(handler),
        },
        Err(_) => QueueReset {
            answer: done,
            handler,
        },
    }
}
