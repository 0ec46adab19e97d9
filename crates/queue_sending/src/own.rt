// A look at the scheduler's choice in words of which it is known that they are not broken: nothing is tested.
ghost use Rattle.std.specs.Prelude.{◌≡◌, ◌<◌};
ghost use Rattle.queue_words.specs.Streams.{stream_at_words};
ghost use Rattle.queue_sending.specs.Choice.{look_at_words, look_for_words, look_ahead};
ghost use Rattle.queue_sending.specs.Own.{look_of, Unbroken};

pub use crate::choice::Ahead;
use crate::choice::expired;
use queue_words::QUEUE_WORDS;
use queue_words::active::load_active;
use queue_words::items::load_item;
use queue_words::known::row_known;
use queue_words::streams::load_stream;
use stream_scheduler::own::{Front, peek_own};

fn look_own_at(queue: &[u64; QUEUE_WORDS], time: u64, at: usize, id: u16, row: usize) -> Ahead
    requires { (row < 256) × ((stream_at_words queue.now row).first < 1024) }
    ensures { look_of result ≡ look_at_words queue.now time at id row }
{
    let s = load_stream(queue, row);
    let m = load_item(queue, s.first as usize);
    let gone = expired(m, time);
    if gone {
        return Ahead::Expired(id, row);
    }
    Ahead::Chosen(at, id, row)
}

fn look_own_for(queue: &[u64; QUEUE_WORDS], time: u64, at: usize, id: u16) -> Ahead
    requires { Unbroken (look_for_words queue.now time at id) }
    ensures { look_of result ≡ look_for_words queue.now time at id }
{
    let row = row_known(queue, id);
    look_own_at(queue, time, at, id, row)
}

pub fn look_own(queue: &[u64; QUEUE_WORDS], time: u64) -> Ahead
    requires { Unbroken (look_ahead queue.now time) }
    ensures { look_of result ≡ look_ahead queue.now time }
{
    let p = peek_own(queue);
    match p {
        Front::Row(at) => {
            let a = load_active(queue, at);
            look_own_for(queue, time, at, a.stream_id.0)
        }
        Front::Nothing => Ahead::Nothing,
    }
}
