// Setting a stream's priority and its threshold.
ghost use Rattle.std.specs.Prelude.{◌<◌};
ghost use Rattle.linked_streams.specs.Settings.{SetPriorityMeets, SetThresholdMeets};
ghost use Rattle.owned_streams.specs.Own.{OwnWords};
ghost use Rattle.owned_streams.specs.Settings.{priority_set_as, threshold_set_as};

use crate::refusals::{StreamsFull, ThresholdRefusal};
use queue_streams::events::EVENT_WORDS;
use queue_streams::known::Place;
use queue_streams::owned::look_up_own;
use queue_streams::settings::{
    set_priority_in, set_priority_of_new, set_threshold_in, set_threshold_of_new,
};
use queue_words::QUEUE_WORDS;

pub fn set_priority(
    queue: &mut [u64; QUEUE_WORDS],
    id: u16,
    priority: u16,
) -> Result<(), StreamsFull>
    requires { OwnWords queue.old }
    ensures { SetPriorityMeets queue.old id priority (priority_set_as result) queue.new }
{
    let Some(place) = look_up_own(&*queue, id) else {
        return Err(StreamsFull);
    };
    match place {
        Place::Row(row) => set_priority_in(queue, priority, row),
        Place::New(position) => set_priority_of_new(queue, id, priority, position),
    }
    Ok(())
}

// How many events are written.
pub fn set_buffered_amount_low_threshold(
    queue: &mut [u64; QUEUE_WORDS],
    events: &mut [u64],
    id: u16,
    threshold: u64,
) -> Result<usize, ThresholdRefusal>
    requires { OwnWords queue.old }
    ensures { SetThresholdMeets queue.old events.old id threshold (threshold_set_as result) queue.new events.new }
{
    if events.len() < EVENT_WORDS {
        return Err(ThresholdRefusal::EventListShort);
    }
    let Some(place) = look_up_own(&*queue, id) else {
        return Err(ThresholdRefusal::StreamsFull);
    };
    match place {
        Place::Row(row) => Ok(set_threshold_in(queue, events, id, threshold, row)),
        Place::New(position) => {
            set_threshold_of_new(queue, id, threshold, position);
            Ok(0)
        }
    }
}
