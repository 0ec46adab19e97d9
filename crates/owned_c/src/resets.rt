// Reset requests to the peer: 0, or the refusal's number, which is 25, 26 or 27. The whole-queue reset: there is no answer.
ghost use Rattle.std.specs.Prelude.{◌≡◌};
ghost use Rattle.owned_streams.specs.Own.{OwnWords};
ghost use Rattle.stream_reset_handler.specs.Answers.{as_request, as_made, as_response, as_handled};
ghost use Rattle.owned_resets.specs.Answers.{request_as, made_as, response_as, handled_as};
ghost use Rattle.host_handler.specs.Handler.{GivesRequest, GivesResponse, GivesReset};

use host_handler::{
    HANDLER_NUMBERS, handler_in, put_ended, put_handler, tell_outcome, tell_request,
};
use out_array::OUT_WORDS;
use owned_resets::{RequestRefusal, ResponseWrong};
use queue_words::QUEUE_WORDS;
use stream_reset_handler::{HandledResponse, MadeRequest, ResponseAnswer};
use types::Refusal;

// As the checked call says it.
fn request_as(a: Result<Option<usize>, RequestRefusal>) -> Result<Option<usize>, Refusal>
    ensures { as_request result ≡ request_as a }
{
    Ok(a?)
}

fn made_as(m: owned_resets::MadeRequest) -> MadeRequest
    ensures { as_made result ≡ made_as m }
{
    let answer = request_as(m.answer);
    MadeRequest {
        answer,
        handler: m.handler,
    }
}

#[unsafe(no_mangle)]
pub extern "C" fn dsq_owned_make_reset_request(
    queue: &mut [u64; QUEUE_WORDS],
    handler: &mut [u32; HANDLER_NUMBERS],
    output: &mut [u8],
    out: &mut [u64; OUT_WORDS],
    response_number: u32,
    last_tsn: u32,
) -> u32
    requires { OwnWords queue.old }
    ensures { GivesRequest queue.old handler.old output.old response_number last_tsn out.old result queue.new handler.new output.new out.new }
{
    let h = handler_in(&*handler);
    let own = owned_resets::make_request(queue, h, output, response_number, last_tsn);
    let m = made_as(own);
    tell_request(handler, out, m)
}

// As the checked call says it.
fn response_as(a: Result<ResponseAnswer, ResponseWrong>) -> Result<ResponseAnswer, Refusal>
    ensures { as_response result ≡ response_as a }
{
    Ok(a?)
}

fn handled_as(h: owned_resets::HandledResponse) -> HandledResponse
    ensures { as_handled result ≡ handled_as h }
{
    let answer = response_as(h.answer);
    HandledResponse {
        answer,
        handler: h.handler,
    }
}

#[unsafe(no_mangle)]
pub extern "C" fn dsq_owned_handle_reset_response(
    queue: &mut [u64; QUEUE_WORDS],
    handler: &mut [u32; HANDLER_NUMBERS],
    bytes: &[u8],
    out: &mut [u64; OUT_WORDS],
) -> u32
    requires { OwnWords queue.old }
    ensures { GivesResponse queue.old handler.old bytes.now out.old result queue.new handler.new out.new }
{
    let before = handler_in(&*handler);
    let own = owned_resets::handle_response(queue, before, bytes);
    let h = handled_as(own);
    let a = h.answer;
    put_ended(handler, h);
    tell_outcome(out, a)
}

// "Whole-queue reset goes through it and ends the request."
#[unsafe(no_mangle)]
pub extern "C" fn dsq_owned_reset_through_handler(
    queue: &mut [u64; QUEUE_WORDS],
    handler: &mut [u32; HANDLER_NUMBERS],
)
    requires { OwnWords queue.old }
    ensures { GivesReset queue.old handler.old 0 queue.new handler.new }
{
    let before = handler_in(&*handler);
    let next = owned_resets::reset(queue, before);
    put_handler(handler, next);
}
