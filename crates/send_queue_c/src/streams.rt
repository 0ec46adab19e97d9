// Closing and restarting streams, and the settings.
ghost use Rattle.std.specs.Prelude.{◌≡◌, true, false, length, ◌≤◌};
ghost use Rattle.queue_closing.specs.Close.{close};
ghost use Rattle.queue_restarts.specs.Ready.{as_ready, ready};
ghost use Rattle.queue_restarts.specs.Reset.{reset_queue};
ghost use Rattle.queue_streams.specs.Restart.{reopen, set_interleaving_words};
ghost use Rattle.queue_streams.specs.Settings.{set_priority_words, set_threshold_words};
ghost use Rattle.send_queue_c.specs.Numbers.{is_yes, ready_number, ready_ids, ready_out};
ghost use Rattle.send_queue_c.specs.Given.{Gives, GivesEvents, GivesIds};

use host_numbers::{call_number, copy_first, is_yes, tell_call};
use out_array::{OUT_WORDS, VALUE};
use send_queue::{
    QUEUE_WORDS, ReadyStreams, Refusal, commit_reset_streams, enable_message_interleaving,
    get_streams_ready_to_reset, prepare_reset_stream, reset, rollback_reset_streams,
    set_buffered_amount_low_threshold, set_priority,
};

// Closes a stream.
#[unsafe(no_mangle)]
pub extern "C" fn dsq_prepare_reset_stream(
    queue: &mut [u64; QUEUE_WORDS],
    events: &mut [u64],
    out: &mut [u64; OUT_WORDS],
    stream_id: u16,
) -> u32
    ensures { GivesEvents (close queue.old events.old stream_id) out.old result queue.new events.new out.new }
{
    let c = prepare_reset_stream(queue, events, stream_id);
    tell_call(out, c)
}

// Does nothing at run time; gives a proof that there are 256 places.
fn whole(ids: &[u16; 256])
    ensures { length ids.now ≡ 256 }
{
    let _ids: &[u16] = ids;
}

fn tell_ready(
    ids: &mut [u16; 256],
    out: &mut [u64; OUT_WORDS],
    a: Result<ReadyStreams, Refusal>,
) -> u32
    requires { (as_ready a).count ≤ 256 }
    ensures { (result ≡ ready_number (as_ready a)) × (ids.new ≡ ready_ids ids.old (as_ready a)) × (out.new ≡ ready_out out.old (as_ready a)) }
{
    match a {
        Ok(ready) => {
            let from = ready.ids;
            whole(&*ids);
            whole(&from);
            copy_first(ids, &from, ready.count);
            out[VALUE] = ready.count as u64;
            0
        }
        Err(refusal) => u8::from(refusal) as u32,
    }
}

// "Ready ids, at most 256, come by value with their count in ascending order [..] and become resetting."
#[unsafe(no_mangle)]
pub extern "C" fn dsq_get_streams_ready_to_reset(
    queue: &mut [u64; QUEUE_WORDS],
    ids: &mut [u16; 256],
    out: &mut [u64; OUT_WORDS],
) -> u32
    ensures { GivesIds (ready queue.old) ids.old out.old result queue.new ids.new out.new }
{
    let a = get_streams_ready_to_reset(queue);
    tell_ready(ids, out, a)
}

#[unsafe(no_mangle)]
pub extern "C" fn dsq_commit_reset_streams(queue: &mut [u64; QUEUE_WORDS]) -> u32
    ensures { Gives (reopen true queue.old) result queue.new }
{
    let c = commit_reset_streams(queue);
    call_number(c)
}

#[unsafe(no_mangle)]
pub extern "C" fn dsq_rollback_reset_streams(queue: &mut [u64; QUEUE_WORDS]) -> u32
    ensures { Gives (reopen false queue.old) result queue.new }
{
    let c = rollback_reset_streams(queue);
    call_number(c)
}

// The whole-queue reset.
#[unsafe(no_mangle)]
pub extern "C" fn dsq_reset(queue: &mut [u64; QUEUE_WORDS]) -> u32
    ensures { Gives (reset_queue queue.old) result queue.new }
{
    let c = reset(queue);
    call_number(c)
}

#[unsafe(no_mangle)]
pub extern "C" fn dsq_enable_message_interleaving(
    queue: &mut [u64; QUEUE_WORDS],
    enabled: u8,
) -> u32
    ensures { Gives (set_interleaving_words (is_yes enabled) queue.old) result queue.new }
{
    let yes = is_yes(enabled);
    let c = enable_message_interleaving(queue, yes);
    call_number(c)
}

#[unsafe(no_mangle)]
pub extern "C" fn dsq_set_priority(
    queue: &mut [u64; QUEUE_WORDS],
    stream_id: u16,
    priority: u16,
) -> u32
    ensures { Gives (set_priority_words queue.old stream_id priority) result queue.new }
{
    let c = set_priority(queue, stream_id, priority);
    call_number(c)
}

#[unsafe(no_mangle)]
pub extern "C" fn dsq_set_buffered_amount_low_threshold(
    queue: &mut [u64; QUEUE_WORDS],
    events: &mut [u64],
    out: &mut [u64; OUT_WORDS],
    stream_id: u16,
    threshold: u64,
) -> u32
    ensures { GivesEvents (set_threshold_words queue.old events.old stream_id threshold) out.old result queue.new events.new out.new }
{
    let c = set_buffered_amount_low_threshold(queue, events, stream_id, threshold);
    tell_call(out, c)
}
