// The known streams: 256 rows of 2 words from word 32 on, in the order of their ids, and the search among them.
ghost use Rattle.std.specs.Prelude.{◌≡◌, true, ◌+◌, ◌<◌, ◌≤◌};
ghost use Rattle.queue_words.specs.Known.{known_out, known_in, known_at, put_known, FitsKnown, known_count};
ghost use Rattle.queue_words.specs.declared.known.Found.TheVariants.{At};
ghost use Rattle.queue_words.specs.Find.{is_known, position_of, probed, all, probes, found_among, place_tested, find_stream_words, Findable, found_by};

use crate::QUEUE_WORDS;
use crate::header::load_totals;
use crate::limits::{LAST_STREAM_ROW, STREAMS};
use types::StreamId;

const BASE: usize = 32;

// A known stream's id, and the place of its row in the table of streams.
#[derive(Clone, Copy, Debug, PartialEq, Eq)]
pub struct Known {
    pub id: StreamId,
    pub place: u64,
}

fn known_out(queue: &[u64; QUEUE_WORDS], i: usize) -> Known
    requires { i < 256 }
    ensures { result ≡ known_out queue.now i }
{
    let at = BASE + i * 2;
    Known {
        id: StreamId((queue[at + 0] % 65536) as u16),
        place: queue[at + 1],
    }
}

fn known_in(queue: &mut [u64; QUEUE_WORDS], i: usize, k: Known)
    requires { i < 256 }
    ensures { queue.new ≡ known_in queue.old i k }
{
    let at = BASE + i * 2;
    queue[at + 0] = k.id.0 as u64;
    queue[at + 1] = k.place;
}

pub fn load_known(queue: &[u64; QUEUE_WORDS], i: usize) -> Known
    requires { i < 256 }
    ensures { result ≡ known_at queue.now i }
{
    known_out(queue, i)
}

pub fn store_known(queue: &mut [u64; QUEUE_WORDS], i: usize, k: Known)
    requires { i < 256 }
    ensures { queue.new ≡ put_known queue.old i k }
{
    known_in(queue, i, k)
}

pub fn known_fits(k: Known)
    ensures { FitsKnown k }
{}

// Where a stream is: its position among the known and the place of its row, or the position at which it would be put in.
// Broken: more than 256 streams are said to be known, or the place found is no row.
#[derive(Clone, Copy, Debug, PartialEq, Eq)]
pub enum Found {
    At(usize, usize),
    Gap(usize),
    Broken,
}

// A search half done: the ids before low are below the one sought, those behind the size positions from low on are not.
#[derive(Clone, Copy, Debug, PartialEq, Eq)]
pub struct Probe {
    pub low: usize,
    pub size: usize,
}

// One step: the middle one of the positions left is looked at.
fn probe_once(queue: &[u64; QUEUE_WORDS], id: u16, p: Probe) -> Probe
    requires { (0 < p.size) × (p.low + p.size ≤ 256) }
    ensures { result ≡ probed queue.now id p }
{
    let half = p.size / 2;
    let mid = p.low + half;
    let row = load_known(queue, mid);
    if row.id.0 < id {
        return Probe {
            low: mid + 1,
            size: p.size - half - 1,
        };
    }
    Probe { size: half, ..p }
}

// Steps until no position is left.
fn probe_all(queue: &[u64; QUEUE_WORDS], id: u16, known: usize) -> Probe
    requires { known ≤ 256 }
    ensures { result ≡ probes queue.now id known (all known) }
{
    let mut p = Probe {
        low: 0,
        size: known,
    };
    while p.size > 0 {
        p = probe_once(queue, id, p);
    }
    p
}

// Where a stream of a queue is. The place is the one told, a row or not.
#[derive(Clone, Copy, Debug, PartialEq, Eq)]
pub enum Spot {
    At(usize, usize),
    Gap(usize),
}

// The search among a number of known streams for which there are rows.
fn search_known(queue: &[u64; QUEUE_WORDS], id: u16, known: usize) -> Spot
    requires { (known ≡ known_count queue.now) × (known ≤ 256) }
    ensures { place_tested result ≡ found_among queue.now id }
{
    let p = probe_all(queue, id, known);
    let at = p.low;
    if at >= known {
        return Spot::Gap(at);
    }
    let row = load_known(queue, at);
    if row.id.0 != id {
        return Spot::Gap(at);
    }
    Spot::At(at, row.place as usize)
}

// The search where it is known to find a row or a gap.
pub fn find_own(queue: &[u64; QUEUE_WORDS], id: u16) -> Spot
    requires { Findable queue.now id }
    ensures { found_by result ≡ find_stream_words queue.now id }
{
    let t = load_totals(queue);
    search_known(queue, id, t.known as usize)
}

// The row of a stream that is known: the search ends at it.
pub fn row_known(queue: &[u64; QUEUE_WORDS], id: u16) -> usize
    requires { is_known queue.now id ≡ true }
    ensures { At (position_of queue.now id) result ≡ find_stream_words queue.now id }
{
    let t = load_totals(queue);
    let p = probe_all(queue, id, t.known as usize);
    let k = load_known(queue, p.low);
    k.place as usize
}

pub fn find_stream(queue: &[u64; QUEUE_WORDS], id: u16) -> Found
    ensures { result ≡ find_stream_words queue.now id }
{
    let t = load_totals(queue);
    if t.known > STREAMS {
        return Found::Broken;
    }
    let spot = search_known(queue, id, t.known as usize);
    match spot {
        Spot::At(at, row) => {
            if row > LAST_STREAM_ROW {
                return Found::Broken;
            }
            Found::At(at, row)
        }
        Spot::Gap(at) => Found::Gap(at),
    }
}
