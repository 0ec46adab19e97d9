// Making a request.
ghost use Rattle.std.specs.Prelude.{◌≡◌};
ghost use Rattle.std.specs.Prelude.{None};
ghost use Rattle.stream_reset_handler.specs.Making.{MakeMeets};
ghost use Rattle.owned_streams.specs.Own.{OwnWords};
ghost use Rattle.owned_resets.specs.Answers.{made_as, request_refusal};

use owned_restarts::get_streams_ready_to_reset;
use owned_streams::count_streams_ready_to_reset;
use queue_words::QUEUE_WORDS;
use reset_wire::request_size;
use std::convert::From;
use stream_reset_handler::{StreamResetHandler, write_next};
use types::Refusal;

// Why making a request is refused: no other refusal is given.
#[derive(Clone, Copy, Debug, PartialEq, Eq)]
pub enum RequestRefusal {
    Underway,
    OutputShort,
}

impl From<RequestRefusal> for Refusal {
    ghost from_gives = { λ e r. r ≡ request_refusal e };

    fn from(e: RequestRefusal) -> Refusal {
        match e {
            RequestRefusal::Underway => Refusal::RequestUnderway,
            RequestRefusal::OutputShort => Refusal::RequestOutputShort,
        }
    }
}

#[derive(Clone, Copy, Debug, PartialEq, Eq)]
pub struct MadeRequest {
    // A message of so many bytes; None where no stream is ready.
    pub answer: Result<Option<usize>, RequestRefusal>,
    pub handler: StreamResetHandler,
}

// 26: "the output is shorter than the message"; the ids are not taken then.
fn request_now(
    queue: &mut [u64; QUEUE_WORDS],
    handler: StreamResetHandler,
    output: &mut [u8],
    response_number: u32,
    last_tsn: u32,
) -> MadeRequest
    requires { OwnWords queue.old × (handler.underway ≡ None) }
    ensures { MakeMeets queue.old handler output.old response_number last_tsn (made_as result) queue.new output.new }
{
    let count = count_streams_ready_to_reset(&*queue);
    if count == 0 {
        return MadeRequest {
            answer: Ok(None),
            handler: handler,
        };
    }
    let size = request_size(count as usize);
    if output.len() < size {
        return MadeRequest {
            answer: Err(RequestRefusal::OutputShort),
            handler: handler,
        };
    }
    let ready = get_streams_ready_to_reset(queue);
    let ids = ready.ids;
    let next = write_next(
        output,
        handler,
        response_number,
        last_tsn,
        &ids,
        count as usize,
    );
    MadeRequest {
        answer: Ok(Some(size)),
        handler: next,
    }
}

// 25: "a request is wanted while one is underway"; "25 comes first".
pub fn make_request(
    queue: &mut [u64; QUEUE_WORDS],
    handler: StreamResetHandler,
    output: &mut [u8],
    response_number: u32,
    last_tsn: u32,
) -> MadeRequest
    requires { OwnWords queue.old }
    ensures { MakeMeets queue.old handler output.old response_number last_tsn (made_as result) queue.new output.new }
{
    let underway = handler.underway;
    match underway {
        None => request_now(queue, handler, output, response_number, last_tsn),
        Some(_) => MadeRequest {
            answer: Err(RequestRefusal::Underway),
            handler: handler,
        },
    }
}
