// What is tested before a chunk is accepted; nothing here writes.
ghost use Rattle.std.specs.Prelude.{◌≡◌, ◌<◌};
ghost use Rattle.types.specs.Refusal.{check_number};
ghost use Rattle.receiver_fragments.specs.Checks.{last_of, same_marks, same_fields, held_code, is_ahead, holds_place, repeats, admit_code};

use receiver_store::{room_code, same_code};
use receiver_words::RECEIVER_WORDS;
use receiver_words::ahead::load_ahead;
use receiver_words::cells::{HELD, LAST_TSN, load_header};
use receiver_words::fragments::{Fragment, load_fragment};
use receiver_words::index::find_row;
use tsn::{after, far};
use types::Refusal;

// "the last one received without a gap".
pub fn last_tsn(receiver: &[u64; RECEIVER_WORDS]) -> u32
    ensures { result ≡ last_of receiver.now }
{
    let word = load_header(receiver, LAST_TSN);
    (word % 4294967296) as u32
}

fn same_marks(f: Fragment, g: Fragment) -> bool
    ensures { result ≡ same_marks f g }
{
    if f.unordered as u64 != g.unordered as u64 {
        return false;
    }
    if f.first as u64 != g.first as u64 {
        return false;
    }
    f.last as u64 == g.last as u64
}

// Whether two fragments with one TSN have the same of each "field read".
fn same_fields(f: Fragment, g: Fragment) -> bool
    ensures { result ≡ same_fields f g }
{
    if f.stream.0 != g.stream.0 {
        return false;
    }
    if f.ssn.0 != g.ssn.0 {
        return false;
    }
    if f.mid.0 != g.mid.0 {
        return false;
    }
    if f.fsn.0 != g.fsn.0 {
        return false;
    }
    if f.ppid != g.ppid {
        return false;
    }
    same_marks(f, g)
}

// "24 when a fragment at a TSN already held differs in payload or a field read": row j is held at f's TSN.
pub fn held_code(
    receiver: &[u64; RECEIVER_WORDS],
    store: &[u8],
    j: usize,
    f: Fragment,
    payload: &[u8],
) -> Result<(), Refusal>
    requires { j < 4096 }
    ensures { check_number result ≡ held_code receiver.now store.now j f payload.now }
{
    let g = load_fragment(receiver, j);
    let same = same_fields(g, f);
    if same {
        return same_code(receiver, store, j, payload);
    }
    Err(Refusal::FragmentOther)
}

// "one accepted, fetched or not, that it has not yet passed".
fn is_ahead(receiver: &[u64; RECEIVER_WORDS], last: u32, tsn: u32) -> bool
    ensures { result ≡ is_ahead receiver.now last tsn }
{
    let beyond = far(tsn, last);
    if beyond {
        return false;
    }
    load_ahead(receiver, tsn)
}

// "an I-DATA fragment whose stream, order mark, MID and FSN are held".
fn holds_place(receiver: &[u64; RECEIVER_WORDS], interleaved: bool, f: Fragment) -> bool
    ensures { result ≡ holds_place receiver.now interleaved f }
{
    if interleaved {
        let j = find_row(receiver, 1, f);
        return j < 4096;
    }
    false
}

// Whether a fragment at a TSN that is not held is a repeat.
pub fn repeats(receiver: &[u64; RECEIVER_WORDS], interleaved: bool, last: u32, f: Fragment) -> bool
    ensures { result ≡ repeats receiver.now interleaved last f }
{
    let new = after(f.tsn, last);
    if new {
        let ahead = is_ahead(receiver, last, f.tsn);
        if ahead {
            return true;
        }
        return holds_place(receiver, interleaved, f);
    }
    true
}

// "23 when the payload is longer than the free store or it would be the 4,097th held fragment or from the 257th stream"; t is the
// stream's row.
pub fn admit_code(
    receiver: &[u64; RECEIVER_WORDS],
    len: u64,
    n: u64,
    t: usize,
) -> Result<(), Refusal>
    ensures { check_number result ≡ admit_code receiver.now len n t }
{
    let held = load_header(receiver, HELD);
    if held >= 4096 {
        return Err(Refusal::ReceiverFull);
    }
    if t > 256 {
        return Err(Refusal::WordsBroken);
    }
    if t == 256 {
        return Err(Refusal::ReceiverFull);
    }
    room_code(receiver, len, n)
}
