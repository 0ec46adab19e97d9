// Closing a stream: 0, or the refusal's number, which is 3 or 6.
ghost use Rattle.std.specs.Prelude.{◌≡◌};
ghost use Rattle.queue_streams.specs.Answers.{as_call};
ghost use Rattle.queue_closing.specs.Close.{close};
ghost use Rattle.owned_streams.specs.Own.{OwnWords};
ghost use Rattle.owned_closing.specs.Own.{closing_as};
ghost use Rattle.host_numbers.specs.Given.{GivesEvents};

use host_numbers::tell_call;
use out_array::OUT_WORDS;
use owned_closing::ClosingRefusal;
use queue_words::QUEUE_WORDS;
use types::Refusal;

// As the checked call says it.
fn closing_as(a: Result<usize, ClosingRefusal>) -> Result<usize, Refusal>
    ensures { as_call result ≡ closing_as a }
{
    Ok(a?)
}

#[unsafe(no_mangle)]
pub extern "C" fn dsq_owned_prepare_reset_stream(
    queue: &mut [u64; QUEUE_WORDS],
    events: &mut [u64],
    out: &mut [u64; OUT_WORDS],
    stream_id: u16,
) -> u32
    requires { OwnWords queue.old }
    ensures { GivesEvents (close queue.old events.old stream_id) out.old result queue.new events.new out.new }
{
    let a = owned_closing::prepare_reset_stream(queue, events, stream_id);
    let c = closing_as(a);
    tell_call(out, c)
}
