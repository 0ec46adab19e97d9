// Receiving a response, and the whole-queue reset.
ghost use Rattle.std.specs.Prelude.{◌≡◌};
ghost use Rattle.stream_reset_handler.specs.Receiving.{handled, HandleMeets, ResetHandlerMeets};
ghost use Rattle.owned_streams.specs.Own.{OwnWords};
ghost use Rattle.owned_resets.specs.Answers.{response_as, handled_as, reset_as, wrong_response};

use owned_restarts::{commit_reset_streams, rollback_reset_streams};
use queue_words::QUEUE_WORDS;
use std::convert::From;
use stream_reset_handler::{ResponseAnswer, ResponseStep, StreamResetHandler, ended, step_for};
use types::Refusal;

// Refusal 27, the one that receiving a response gives.
#[derive(Clone, Copy, Debug, PartialEq, Eq)]
pub struct ResponseWrong;

impl From<ResponseWrong> for Refusal {
    ghost from_gives = { λ _ r. r ≡ wrong_response };

    fn from(_wrong: ResponseWrong) -> Refusal {
        Refusal::ResponseWrong
    }
}

#[derive(Clone, Copy, Debug, PartialEq, Eq)]
pub struct HandledResponse {
    pub answer: Result<ResponseAnswer, ResponseWrong>,
    pub handler: StreamResetHandler,
}

fn answered(
    answer: Result<ResponseAnswer, ResponseWrong>,
    handler: StreamResetHandler,
) -> HandledResponse
    ensures { handled_as result ≡ handled (response_as answer) handler }
{
    HandledResponse { answer, handler }
}

// "Result 0 or 1 commits, 2 to 5 roll back, 6 keeps the same request waiting". 27: "received bytes break this layout".
pub fn handle_response(
    queue: &mut [u64; QUEUE_WORDS],
    handler: StreamResetHandler,
    bytes: &[u8],
) -> HandledResponse
    requires { OwnWords queue.old }
    ensures { HandleMeets queue.old handler bytes.now (handled_as result) queue.new }
{
    let step = step_for(handler, bytes);
    match step {
        ResponseStep::Commit => {
            commit_reset_streams(queue);
            answered(Ok(ResponseAnswer::Committed), ended(handler))
        }
        ResponseStep::RollBack => {
            rollback_reset_streams(queue);
            answered(Ok(ResponseAnswer::RolledBack), ended(handler))
        }
        ResponseStep::Wait => answered(Ok(ResponseAnswer::StillWaiting), handler),
        ResponseStep::Ignore => answered(Ok(ResponseAnswer::Ignored), handler),
        ResponseStep::Refuse => answered(Err(ResponseWrong), handler),
    }
}

// "Whole-queue reset goes through it and ends the request."
pub fn reset(queue: &mut [u64; QUEUE_WORDS], handler: StreamResetHandler) -> StreamResetHandler
    requires { OwnWords queue.old }
    ensures { ResetHandlerMeets queue.old handler (reset_as result) queue.new }
{
    owned_restarts::reset(queue);
    ended(handler)
}
