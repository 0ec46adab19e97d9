// Setting a stream's priority and its threshold: 0, or the refusal's number, which is 3 or 6.
ghost use Rattle.std.specs.Prelude.{◌≡◌};
ghost use Rattle.queue_streams.specs.Answers.{as_call, call_number};
ghost use Rattle.queue_streams.specs.Settings.{set_priority_words, set_threshold_words};
ghost use Rattle.owned_streams.specs.Own.{OwnWords};
ghost use Rattle.owned_streams.specs.Settings.{priority_set_as, threshold_set_as};
ghost use Rattle.host_numbers.specs.Given.{Gives, GivesEvents};

use host_numbers::tell_call;
use out_array::OUT_WORDS;
use owned_streams::{StreamsFull, ThresholdRefusal};
use queue_words::QUEUE_WORDS;
use types::Refusal;

fn priority_number(a: Result<(), StreamsFull>) -> u32
    ensures { result ≡ call_number (priority_set_as a) }
{
    match a {
        Ok(()) => 0,
        Err(full) => u8::from(Refusal::from(full)) as u32,
    }
}

#[unsafe(no_mangle)]
pub extern "C" fn dsq_owned_set_priority(
    queue: &mut [u64; QUEUE_WORDS],
    stream_id: u16,
    priority: u16,
) -> u32
    requires { OwnWords queue.old }
    ensures { Gives (set_priority_words queue.old stream_id priority) result queue.new }
{
    let a = owned_streams::set_priority(queue, stream_id, priority);
    priority_number(a)
}

// As the checked call says it.
fn threshold_set_as(a: Result<usize, ThresholdRefusal>) -> Result<usize, Refusal>
    ensures { as_call result ≡ threshold_set_as a }
{
    Ok(a?)
}

#[unsafe(no_mangle)]
pub extern "C" fn dsq_owned_set_buffered_amount_low_threshold(
    queue: &mut [u64; QUEUE_WORDS],
    events: &mut [u64],
    out: &mut [u64; OUT_WORDS],
    stream_id: u16,
    threshold: u64,
) -> u32
    requires { OwnWords queue.old }
    ensures { GivesEvents (set_threshold_words queue.old events.old stream_id threshold) out.old result queue.new events.new out.new }
{
    let a = owned_streams::set_buffered_amount_low_threshold(queue, events, stream_id, threshold);
    let c = threshold_set_as(a);
    tell_call(out, c)
}
