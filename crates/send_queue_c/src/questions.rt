// The questions: "the calls that only ask".
ghost use Rattle.std.specs.Prelude.{◌≡◌};
ghost use Rattle.queue_questions.specs.Questions.{priority_of_words, amount_of_words, threshold_of, total_of, empty_of, data_of, ready_of, readiness_of, room_of};
ghost use Rattle.queue_model.specs.Questions.{free_store, waiting_messages, known_streams};
ghost use Rattle.queue_restarts.specs.Ready.{ready_count};
ghost use Rattle.queue_words.specs.Flags.{bit};
ghost use Rattle.send_queue_c.specs.Given.{GivesNumber, GivesFlag};

use crate::numbers::{tell_flag, tell_number};
use out_array::OUT_WORDS;
use send_queue::{
    QUEUE_WORDS, buffered_amount, buffered_amount_low_threshold, count_streams_ready_to_reset,
    free_bytes, get_handover_readiness, get_priority, has_data_to_send,
    has_streams_ready_to_be_reset, is_empty, known_streams, total_buffered_amount,
    waiting_messages,
};

#[unsafe(no_mangle)]
pub extern "C" fn dsq_get_priority(
    queue: &[u64; QUEUE_WORDS],
    out: &mut [u64; OUT_WORDS],
    stream_id: u16,
) -> u32
    ensures { GivesNumber (priority_of_words queue.now stream_id) out.old result out.new }
{
    let a = get_priority(queue, stream_id);
    tell_number(out, a)
}

#[unsafe(no_mangle)]
pub extern "C" fn dsq_buffered_amount(
    queue: &[u64; QUEUE_WORDS],
    out: &mut [u64; OUT_WORDS],
    stream_id: u16,
) -> u32
    ensures { GivesNumber (amount_of_words queue.now stream_id) out.old result out.new }
{
    let a = buffered_amount(queue, stream_id);
    tell_number(out, a)
}

#[unsafe(no_mangle)]
pub extern "C" fn dsq_buffered_amount_low_threshold(
    queue: &[u64; QUEUE_WORDS],
    out: &mut [u64; OUT_WORDS],
    stream_id: u16,
) -> u32
    ensures { GivesNumber (threshold_of queue.now stream_id) out.old result out.new }
{
    let a = buffered_amount_low_threshold(queue, stream_id);
    tell_number(out, a)
}

#[unsafe(no_mangle)]
pub extern "C" fn dsq_total_buffered_amount(queue: &[u64; QUEUE_WORDS]) -> u64
    ensures { result ≡ total_of queue.now }
{
    total_buffered_amount(queue)
}

// 1 for empty, else 0.
#[unsafe(no_mangle)]
pub extern "C" fn dsq_is_empty(queue: &[u64; QUEUE_WORDS]) -> u32
    ensures { result ≡ bit (empty_of queue.now) }
{
    let b = is_empty(queue);
    b as u32
}

#[unsafe(no_mangle)]
pub extern "C" fn dsq_has_data_to_send(
    queue: &[u64; QUEUE_WORDS],
    out: &mut [u64; OUT_WORDS],
) -> u32
    ensures { GivesFlag (data_of queue.now) out.old result out.new }
{
    let a = has_data_to_send(queue);
    tell_flag(out, a)
}

#[unsafe(no_mangle)]
pub extern "C" fn dsq_has_streams_ready_to_be_reset(
    queue: &[u64; QUEUE_WORDS],
    out: &mut [u64; OUT_WORDS],
) -> u32
    ensures { GivesFlag (ready_of queue.now) out.old result out.new }
{
    let a = has_streams_ready_to_be_reset(queue);
    tell_flag(out, a)
}

#[unsafe(no_mangle)]
pub extern "C" fn dsq_count_streams_ready_to_reset(
    queue: &[u64; QUEUE_WORDS],
    out: &mut [u64; OUT_WORDS],
) -> u32
    ensures { GivesNumber (ready_count queue.now) out.old result out.new }
{
    let a = count_streams_ready_to_reset(queue);
    tell_number(out, a)
}

#[unsafe(no_mangle)]
pub extern "C" fn dsq_get_handover_readiness(queue: &[u64; QUEUE_WORDS]) -> u64
    ensures { result ≡ readiness_of queue.now }
{
    get_handover_readiness(queue)
}

#[unsafe(no_mangle)]
pub extern "C" fn dsq_free_bytes(queue: &[u64; QUEUE_WORDS]) -> u64
    ensures { result ≡ room_of free_store queue.now }
{
    free_bytes(queue)
}

#[unsafe(no_mangle)]
pub extern "C" fn dsq_waiting_messages(queue: &[u64; QUEUE_WORDS]) -> u64
    ensures { result ≡ room_of waiting_messages queue.now }
{
    waiting_messages(queue)
}

#[unsafe(no_mangle)]
pub extern "C" fn dsq_known_streams(queue: &[u64; QUEUE_WORDS]) -> u64
    ensures { result ≡ room_of known_streams queue.now }
{
    known_streams(queue)
}
