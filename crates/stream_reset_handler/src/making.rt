// Making a request.
ghost use Rattle.std.specs.Prelude.{◌≡◌, ◌≤◌, length, take};
ghost use Rattle.reset_model.specs.Wire.{request_size};
ghost use Rattle.send_queue.specs.Number as number;
ghost use Rattle.send_queue.specs.ReadyStreams.{as_ready};
ghost use Rattle.send_queue.specs.Restarts.{CountMeets};
ghost use Rattle.std.specs.Prelude.{None};
ghost use Rattle.stream_reset_handler.specs.Answers.{as_made};
ghost use Rattle.stream_reset_handler.specs.Making.{next_handler, message_in, MakeMeets};

use crate::handler::{StreamResetHandler, number_after};
use reset_wire::{request_size, write_request};
use send_queue::{
    QUEUE_WORDS, ReadyStreams, Refusal, count_streams_ready_to_reset, get_streams_ready_to_reset,
};

#[derive(Clone, Copy, Debug, PartialEq, Eq)]
pub struct MadeRequest {
    // A message of so many bytes; None where no stream is ready.
    pub answer: Result<Option<usize>, Refusal>,
    pub handler: StreamResetHandler,
}

// The message with these ids at the output's start, and the handler with this request underway.
pub fn write_next(
    output: &mut [u8],
    handler: StreamResetHandler,
    response_number: u32,
    last_tsn: u32,
    ids: &[u16; 256],
    count: usize,
) -> StreamResetHandler
    requires { (count ≤ 256) × (count ≤ length ids.now) × (request_size count ≤ length output.old) }
    ensures { (result ≡ next_handler handler) × (output.new ≡ message_in output.old handler response_number last_tsn (take count ids.now)) }
{
    let number = handler.next_number;
    write_request(output, number, response_number, last_tsn, ids, count);
    let next = number_after(number);
    StreamResetHandler {
        next_number: next,
        underway: Some(number),
    }
}

// The ids that are told; all are 0 where there is a refusal, which does not come once they are counted.
fn ids_of(ready: Result<ReadyStreams, Refusal>) -> [u16; 256]
    ensures { result ≡ (as_ready ready).ids }
{
    match ready {
        Ok(ready) => ready.ids,
        Err(_) => [0u16; 256],
    }
}

// With so many streams ready. 26: "the output is shorter than the message"; the ids are not taken then.
fn request_for(
    queue: &mut [u64; QUEUE_WORDS],
    handler: StreamResetHandler,
    output: &mut [u8],
    response_number: u32,
    last_tsn: u32,
    count: u64,
) -> MadeRequest
    requires { (CountMeets queue.old (number.Value count)) × (handler.underway ≡ None) }
    ensures { MakeMeets queue.old handler output.old response_number last_tsn (as_made result) queue.new output.new }
{
    if count == 0 {
        return MadeRequest {
            answer: Ok(None),
            handler: handler,
        };
    }
    let size = request_size(count as usize);
    if output.len() < size {
        return MadeRequest {
            answer: Err(Refusal::RequestOutputShort),
            handler: handler,
        };
    }
    let ready = get_streams_ready_to_reset(queue);
    let ids = ids_of(ready);
    let next = write_next(
        output,
        handler,
        response_number,
        last_tsn,
        &ids,
        count as usize,
    );
    MadeRequest {
        answer: Ok(Some(size)),
        handler: next,
    }
}

fn request_now(
    queue: &mut [u64; QUEUE_WORDS],
    handler: StreamResetHandler,
    output: &mut [u8],
    response_number: u32,
    last_tsn: u32,
) -> MadeRequest
    requires { handler.underway ≡ None }
    ensures { MakeMeets queue.old handler output.old response_number last_tsn (as_made result) queue.new output.new }
{
    let counted = count_streams_ready_to_reset(&*queue);
    match counted {
        Ok(count) => request_for(queue, handler, output, response_number, last_tsn, count),
        Err(refusal) => MadeRequest {
            answer: Err(refusal),
            handler: handler,
        },
    }
}

// 25: "a request is wanted while one is underway"; "25 comes first".
pub fn make_request(
    queue: &mut [u64; QUEUE_WORDS],
    handler: StreamResetHandler,
    output: &mut [u8],
    response_number: u32,
    last_tsn: u32,
) -> MadeRequest
    ensures { MakeMeets queue.old handler output.old response_number last_tsn (as_made result) queue.new output.new }
{
    let underway = handler.underway;
    match underway {
        None => request_now(queue, handler, output, response_number, last_tsn),
        Some(_) => MadeRequest {
            answer: Err(Refusal::RequestUnderway),
            handler: handler,
        },
    }
}
