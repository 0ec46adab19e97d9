// Reset requests to the peer: the stream reset handler, lent as three numbers.
ghost use Rattle.std.specs.Prelude.{◌≡◌};
ghost use Rattle.reset_model.specs.Handler as model;
ghost use Rattle.stream_reset_handler.specs.Handler.{handler_of};
ghost use Rattle.host_handler.specs.Handler.{handler_numbers, GivesRequest, GivesResponse, GivesReset};

use host_handler::{
    HANDLER_NUMBERS, handler_in, put_ended, put_handler, tell_outcome, tell_request, tell_reset,
};
use out_array::OUT_WORDS;
use send_queue::QUEUE_WORDS;
use stream_reset_handler::{handle_response, make_request, reset, start};

// "Request numbers start at a given one".
#[unsafe(no_mangle)]
pub extern "C" fn dsq_start_reset_handler(handler: &mut [u32; HANDLER_NUMBERS], number: u32) -> u32
    ensures { (result ≡ 0) × (handler.new ≡ handler_numbers handler.old (handler_of (model.start number))) }
{
    let h = start(number);
    put_handler(handler, h);
    0
}

#[unsafe(no_mangle)]
pub extern "C" fn dsq_make_reset_request(
    queue: &mut [u64; QUEUE_WORDS],
    handler: &mut [u32; HANDLER_NUMBERS],
    output: &mut [u8],
    out: &mut [u64; OUT_WORDS],
    response_number: u32,
    last_tsn: u32,
) -> u32
    ensures { GivesRequest queue.old handler.old output.old response_number last_tsn out.old result queue.new handler.new output.new out.new }
{
    let h = handler_in(&*handler);
    let m = make_request(queue, h, output, response_number, last_tsn);
    tell_request(handler, out, m)
}

#[unsafe(no_mangle)]
pub extern "C" fn dsq_handle_reset_response(
    queue: &mut [u64; QUEUE_WORDS],
    handler: &mut [u32; HANDLER_NUMBERS],
    bytes: &[u8],
    out: &mut [u64; OUT_WORDS],
) -> u32
    ensures { GivesResponse queue.old handler.old bytes.now out.old result queue.new handler.new out.new }
{
    let before = handler_in(&*handler);
    let h = handle_response(queue, before, bytes);
    let a = h.answer;
    put_ended(handler, h);
    tell_outcome(out, a)
}

// "Whole-queue reset goes through it and ends the request."
#[unsafe(no_mangle)]
pub extern "C" fn dsq_reset_through_handler(
    queue: &mut [u64; QUEUE_WORDS],
    handler: &mut [u32; HANDLER_NUMBERS],
) -> u32
    ensures { GivesReset queue.old handler.old result queue.new handler.new }
{
    let before = handler_in(&*handler);
    let r = reset(queue, before);
    tell_reset(handler, r)
}
