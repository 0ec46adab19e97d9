// Receiving a fragment, as 1/13's reader gives it.
ghost use Rattle.std.specs.Prelude.{◌≡◌, ◌<◌};
ghost use Rattle.receiver_words.specs.Tables.{Header, word_at};
ghost use Rattle.receiver_fragments.specs.Answers.{as_received};
ghost use Rattle.receiver_fragments.specs.Holding.{kept};
ghost use Rattle.receiver_fragments.specs.Receiving.{received, accept, receive_new, receive_fragment};

use crate::answers::Received;
use crate::checks::{admit_code, held_code, last_tsn, repeats};
use crate::holding::{hold, pass_tsn, settle};
use receiver_words::RECEIVER_WORDS;
use receiver_words::cells::{FREE, HELD, load_header};
use receiver_words::fragments::Fragment;
use receiver_words::index::find_row;
use receiver_words::search::find_turn;
use tsn::far;
use types::Refusal;

// The fragment f is accepted into the free row i, from the stream of row t.
fn accept(
    receiver: &mut [u64; RECEIVER_WORDS],
    store: &mut [u8],
    interleaved: bool,
    f: Fragment,
    payload: &[u8],
    i: usize,
    t: usize,
)
    requires { (i < 4096) × ((t < 256) × (word_at Header receiver.old 0 4 < 4096)) }
    ensures { kept receiver.new store.new ≡ accept receiver.old store.old interleaved f payload.now i t }
{
    let held = load_header(&*receiver, HELD);
    let last = last_tsn(&*receiver);
    hold(receiver, store, interleaved, f, payload, i, held);
    pass_tsn(receiver, f.tsn, last);
    settle(receiver, interleaved, f.stream.0, t, i);
}

// A fragment that is no repeat: 22, 23, 16 on damaged words, or accepted.
fn receive_new(
    receiver: &mut [u64; RECEIVER_WORDS],
    store: &mut [u8],
    interleaved: bool,
    last: u32,
    f: Fragment,
    payload: &[u8],
) -> Result<Received, Refusal>
    ensures { received (as_received result) receiver.new store.new ≡ receive_new receiver.old store.old interleaved last f payload.now }
{
    let beyond = far(f.tsn, last);
    if beyond {
        return Err(Refusal::TsnFar);
    }
    let t = find_turn(&*receiver, f.stream.0);
    let len = store.len() as u64;
    let n = payload.len() as u64;
    admit_code(&*receiver, len, n, t)?;
    let i = load_header(&*receiver, FREE);
    if i >= 4096 {
        return Err(Refusal::WordsBroken);
    }
    accept(receiver, store, interleaved, f, payload, i as usize, t);
    Ok(Received::Accepted)
}

// A fragment of the receiver's kind: 24, repeats, then what a new one gets.
pub fn receive_fragment(
    receiver: &mut [u64; RECEIVER_WORDS],
    store: &mut [u8],
    interleaved: bool,
    f: Fragment,
    payload: &[u8],
) -> Result<Received, Refusal>
    ensures { received (as_received result) receiver.new store.new ≡ receive_fragment receiver.old store.old interleaved f payload.now }
{
    let j = find_row(&*receiver, 0, f);
    if j < 4096 {
        held_code(&*receiver, &*store, j, f, payload)?;
        return Ok(Received::Repeated);
    }
    let last = last_tsn(&*receiver);
    let again = repeats(&*receiver, interleaved, last, f);
    if again {
        return Ok(Received::Repeated);
    }
    receive_new(receiver, store, interleaved, last, f, payload)
}
