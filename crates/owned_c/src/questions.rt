// The questions: the answer is the value.
ghost use Rattle.std.specs.Prelude.{◌≡◌};
ghost use Rattle.queue_words.specs.Flags.{bit};
ghost use Rattle.queue_streams.specs.Answers.{flag_number, flag_value};
ghost use Rattle.queue_streams.specs.Number.{Value};
ghost use Rattle.queue_questions.specs.Questions.{priority_of_words, amount_of_words, threshold_of, data_of, ready_of};
ghost use Rattle.queue_restarts.specs.Ready.{ready_count};
ghost use Rattle.owned_streams.specs.Own.{OwnWords};

use queue_words::QUEUE_WORDS;

#[unsafe(no_mangle)]
pub extern "C" fn dsq_owned_get_priority(queue: &[u64; QUEUE_WORDS], stream_id: u16) -> u16
    requires { OwnWords queue.now }
    ensures { Value result ≡ priority_of_words queue.now stream_id }
{
    owned_streams::get_priority(queue, stream_id)
}

#[unsafe(no_mangle)]
pub extern "C" fn dsq_owned_buffered_amount(queue: &[u64; QUEUE_WORDS], stream_id: u16) -> u64
    requires { OwnWords queue.now }
    ensures { Value result ≡ amount_of_words queue.now stream_id }
{
    owned_streams::buffered_amount(queue, stream_id)
}

#[unsafe(no_mangle)]
pub extern "C" fn dsq_owned_buffered_amount_low_threshold(
    queue: &[u64; QUEUE_WORDS],
    stream_id: u16,
) -> u64
    requires { OwnWords queue.now }
    ensures { Value result ≡ threshold_of queue.now stream_id }
{
    owned_streams::buffered_amount_low_threshold(queue, stream_id)
}

// 1 for yes, else 0.
#[unsafe(no_mangle)]
pub extern "C" fn dsq_owned_has_data_to_send(queue: &[u64; QUEUE_WORDS]) -> u32
    requires { OwnWords queue.now }
    ensures { (result ≡ bit (flag_value (data_of queue.now))) × (flag_number (data_of queue.now) ≡ 0) }
{
    let b = owned_streams::has_data_to_send(queue);
    b as u32
}

#[unsafe(no_mangle)]
pub extern "C" fn dsq_owned_has_streams_ready_to_be_reset(queue: &[u64; QUEUE_WORDS]) -> u32
    requires { OwnWords queue.now }
    ensures { (result ≡ bit (flag_value (ready_of queue.now))) × (flag_number (ready_of queue.now) ≡ 0) }
{
    let b = owned_streams::has_streams_ready_to_be_reset(queue);
    b as u32
}

#[unsafe(no_mangle)]
pub extern "C" fn dsq_owned_count_streams_ready_to_reset(queue: &[u64; QUEUE_WORDS]) -> u64
    requires { OwnWords queue.now }
    ensures { Value result ≡ ready_count queue.now }
{
    owned_streams::count_streams_ready_to_reset(queue)
}
