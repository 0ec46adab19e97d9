// The questions: "the calls that only ask".
ghost use Rattle.queue_model.specs.Questions.{free_store, waiting_messages, known_streams};
ghost use Rattle.queue_streams.specs.Answers.{as_flag, as_number};
ghost use Rattle.linked_streams.specs.Questions.{PriorityMeets, AmountMeets, ThresholdMeets, TotalMeets, EmptyMeets, DataMeets, ReadyMeets, ReadinessMeets, RoomMeets};

use queue_words::QUEUE_WORDS;
use types::Refusal;

// "A call of its own answers the priority last set or restored, the default where there is none, and changes nothing."
pub fn get_priority(queue: &[u64; QUEUE_WORDS], id: u16) -> Result<u64, Refusal>
    ensures { PriorityMeets queue.now id (as_number result) }
{
    queue_questions::get_priority(queue, id)
}

// A stream's amount.
pub fn buffered_amount(queue: &[u64; QUEUE_WORDS], id: u16) -> Result<u64, Refusal>
    ensures { AmountMeets queue.now id (as_number result) }
{
    queue_questions::buffered_amount(queue, id)
}

// A stream's threshold.
pub fn buffered_amount_low_threshold(queue: &[u64; QUEUE_WORDS], id: u16) -> Result<u64, Refusal>
    ensures { ThresholdMeets queue.now id (as_number result) }
{
    queue_questions::buffered_amount_low_threshold(queue, id)
}

// The total.
pub fn total_buffered_amount(queue: &[u64; QUEUE_WORDS]) -> u64
    ensures { TotalMeets queue.now result }
{
    queue_questions::total_buffered_amount(queue)
}

pub fn is_empty(queue: &[u64; QUEUE_WORDS]) -> bool
    ensures { EmptyMeets queue.now result }
{
    queue_questions::is_empty(queue)
}

// Whether a stream waits.
pub fn has_data_to_send(queue: &[u64; QUEUE_WORDS]) -> Result<bool, Refusal>
    ensures { DataMeets queue.now (as_flag result) }
{
    queue_questions::has_data_to_send(queue)
}

// Whether a stream is paused.
pub fn has_streams_ready_to_be_reset(queue: &[u64; QUEUE_WORDS]) -> Result<bool, Refusal>
    ensures { ReadyMeets queue.now (as_flag result) }
{
    queue_questions::has_streams_ready_to_be_reset(queue)
}

// "Readiness is 2 if handover with waiting data is off and the total is above 0, else 0."
pub fn get_handover_readiness(queue: &[u64; QUEUE_WORDS]) -> u64
    ensures { ReadinessMeets queue.now result }
{
    queue_questions::get_handover_readiness(queue)
}

// How many bytes of the store are free.
pub fn free_bytes(queue: &[u64; QUEUE_WORDS]) -> u64
    ensures { RoomMeets free_store queue.now result }
{
    queue_questions::free_bytes(queue)
}

// How many messages wait.
pub fn waiting_messages(queue: &[u64; QUEUE_WORDS]) -> u64
    ensures { RoomMeets waiting_messages queue.now result }
{
    queue_questions::waiting_messages(queue)
}

// How many streams are known.
pub fn known_streams(queue: &[u64; QUEUE_WORDS]) -> u64
    ensures { RoomMeets known_streams queue.now result }
{
    queue_questions::known_streams(queue)
}
