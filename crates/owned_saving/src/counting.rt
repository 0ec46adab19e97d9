// What the image counts, without a look at a message.
ghost use Rattle.std.specs.Prelude.{◌≡◌, ℕ, ◌≤◌, ◌<◌, length};
ghost use Rattle.queue_state.specs.Chains.{sum_to};
ghost use Rattle.queue_state.specs.Good.{Good};
ghost use Rattle.queue_state.specs.Model.{row_at};
ghost use Rattle.saving.specs.Measure.{records_of, counts_of, tally_queue};

use queue_words::QUEUE_WORDS;
use queue_words::header::{load_options, load_totals};
use queue_words::known::load_known;
use queue_words::streams::load_stream;
use saving::measuring::{Counts, is_plain};

// How many of the first n known streams have a record.
fn count_records(queue: &[u64; QUEUE_WORDS], n: usize) -> u64
    requires { (n ≤ 256) × ((i : ℕ) → i < n → row_at queue.now i < 256) }
    ensures { result ≡ sum_to (records_of queue.now) n }
{
    let o = load_options(queue);
    let mut count: u64 = 0;
    for i in 0..n {
        let k = load_known(queue, i);
        let s = load_stream(queue, k.place as usize);
        let plain = is_plain(s, o.default_priority);
        if !plain {
            count += 1;
        }
    }
    count
}

// What the checked call's first pass counts: each waiting message has a record of 44 bytes and its payload. The store is not read: it
// says which queue the words are.
pub fn count_own(queue: &[u64; QUEUE_WORDS], store: &[u8]) -> Counts
    requires { Good queue.now store.now }
    ensures { result ≡ counts_of (tally_queue queue.now (length store.now)) }
{
    let t = load_totals(queue);
    let streams = count_records(queue, t.known as usize);
    Counts {
        streams: streams,
        messages: t.waiting,
        bytes: t.waiting * 44 + t.used,
    }
}
