// The store of the receiving head (7/13): the payloads of the held fragments lie whole in one lent slice of bytes.
//
// A row's links say where its payload lies and how long it is; the header says how many bytes are used and where the used part ends. A
// new payload goes to that end, so the places rise along the age chain, from the oldest row to the newest, and when rows leave, the used part
// ends with the newest that is left. Where the end has no room and the free bytes suffice, the newest payloads are first moved together
// (src/packing), from the first row on below which no gap is needed: half of the bytes that stay free are at the end then, so as many bytes come
// before it happens again. Every function is total: words that no receiver has get refusal 16, and nothing is changed.
#![tactic(auto)]

pub mod comparing;
pub mod packing;
pub mod places;

ghost use Rattle.std.specs.Prelude.{◌≡◌, ◌+◌, ◌<◌, ◌≤◌, length};
ghost use Rattle.types.specs.Refusal.{check_number, broken_number};
ghost use Rattle.payload_store.specs.Putting.{outcome};
ghost use Rattle.receiver_store.specs.Words.{used_of, end_of};
ghost use Rattle.receiver_store.specs.Putting.{room_code, placed, put_payload};
ghost use Rattle.receiver_store.specs.Reading.{read_code, read_payload, same_code};
ghost use Rattle.receiver_store.specs.Dropping.{drop_code_words, held_end, drop_payload};

use comparing::same_bytes;
use packing::{move_together, pack_code};
use payload_store::write_part;
use places::misplaced;
use receiver_words::cells::{
    END, LENGTH, NEWEST, PLACE, USED, load_header, load_link, store_header, store_link,
};
use receiver_words::{RECEIVER_WORDS, whole};
use types::refusal::{Broken, Refusal};

// May a payload of n bytes be put into a store of len bytes: refused with 23 for no room, 16 for damaged words. Reads only.
pub fn room_code(receiver: &[u64; RECEIVER_WORDS], len: u64, n: u64) -> Result<(), Refusal>
    ensures { check_number result ≡ room_code receiver.now len n }
{
    let used = load_header(receiver, USED);
    if used > len {
        return Err(Refusal::WordsBroken);
    }
    if n > len - used {
        return Err(Refusal::ReceiverFull);
    }
    let end = load_header(receiver, END);
    if end > len {
        return Err(Refusal::WordsBroken);
    }
    if n <= len - end {
        return Ok(());
    }
    pack_code(receiver, len, n)?;
    Ok(())
}

// The payload goes to the end of the used part.
fn place_payload(receiver: &mut [u64; RECEIVER_WORDS], store: &mut [u8], i: usize, payload: &[u8])
    requires { (i < 4096) × (end_of receiver.old + length payload.now ≤ length store.old) × (used_of receiver.old + length payload.now ≤ length store.old) }
    ensures { outcome 0 receiver.new store.new ≡ placed receiver.old store.old i payload.now }
{
    let n = payload.len() as u64;
    let end = load_header(&*receiver, END);
    let used = load_header(&*receiver, USED);
    write_part(store, end as usize, payload);
    store_link(receiver, i, PLACE, end);
    store_link(receiver, i, LENGTH, n);
    store_header(receiver, USED, used + n);
    store_header(receiver, END, end + n);
}

// Puts a payload into row i, which is not held yet. Refused, as room_code says: nothing is changed.
pub fn put_payload(
    receiver: &mut [u64; RECEIVER_WORDS],
    store: &mut [u8],
    i: usize,
    payload: &[u8],
) -> Result<(), Refusal>
    requires { i < 4096 }
    ensures { outcome (check_number result) receiver.new store.new ≡ put_payload receiver.old store.old i payload.now }
{
    whole(receiver);
    let len = store.len() as u64;
    let n = payload.len() as u64;
    room_code(receiver, len, n)?;
    let end = load_header(&*receiver, END);
    if n <= len - end {
        place_payload(receiver, store, i, payload);
        return Ok(());
    }
    move_together(receiver, store, n);
    place_payload(receiver, store, i, payload);
    Ok(())
}

// May row i's payload be copied to the places from `at` on of `room` bytes. Reads only.
pub fn read_code(
    receiver: &[u64; RECEIVER_WORDS],
    len: u64,
    i: usize,
    room: u64,
    at: u64,
) -> Result<(), Broken>
    requires { i < 4096 }
    ensures { broken_number result ≡ read_code receiver.now len i room at }
{
    let place = load_link(receiver, i, PLACE);
    let size = load_link(receiver, i, LENGTH);
    let out = misplaced(0, len, place, size);
    if out {
        return Err(Broken);
    }
    if at > room {
        return Err(Broken);
    }
    if size > room - at {
        return Err(Broken);
    }
    Ok(())
}

// Row i's payload goes to dst, from `at` on. Refused where it lies outside the store, or dst has no room for it: nothing is changed.
pub fn read_payload(
    receiver: &[u64; RECEIVER_WORDS],
    store: &[u8],
    i: usize,
    dst: &mut [u8],
    at: usize,
) -> Result<(), Broken>
    requires { i < 4096 }
    ensures { (broken_number result ≡ read_code receiver.now (length store.now) i (length dst.old) at) × (dst.new ≡ read_payload receiver.now store.now i dst.old at) }
{
    read_code(receiver, store.len() as u64, i, dst.len() as u64, at as u64)?;
    let place = load_link(receiver, i, PLACE) as usize;
    let size = load_link(receiver, i, LENGTH) as usize;
    let end = place + size;
    write_part(dst, at, &store[place..end]);
    Ok(())
}

// Is row i's payload the given one: refused with 24 where it differs, 16 where it lies outside the store. Reads only.
pub fn same_code(
    receiver: &[u64; RECEIVER_WORDS],
    store: &[u8],
    i: usize,
    payload: &[u8],
) -> Result<(), Refusal>
    requires { i < 4096 }
    ensures { check_number result ≡ same_code receiver.now store.now i payload.now }
{
    let place = load_link(receiver, i, PLACE);
    let size = load_link(receiver, i, LENGTH);
    let out = misplaced(0, store.len() as u64, place, size);
    if out {
        return Err(Refusal::WordsBroken);
    }
    let from = place as usize;
    let end = from + size as usize;
    let same = same_bytes(&store[from..end], payload);
    if same {
        return Ok(());
    }
    Err(Refusal::FragmentOther)
}

// May row i's bytes be freed. Reads only.
pub fn drop_code(receiver: &[u64; RECEIVER_WORDS], i: usize) -> Result<(), Broken>
    requires { i < 4096 }
    ensures { broken_number result ≡ drop_code_words receiver.now i }
{
    let size = load_link(receiver, i, LENGTH);
    let used = load_header(receiver, USED);
    if size > used {
        return Err(Broken);
    }
    Ok(())
}

// Where the payload of the newest held row ends: 0 where none is held; the used part's end, where it lies outside that. Reads only.
fn held_end(receiver: &[u64; RECEIVER_WORDS]) -> u64
    ensures { result ≡ held_end receiver.now }
{
    let newest = load_header(receiver, NEWEST);
    if newest >= 4096 {
        return 0;
    }
    let end = load_header(receiver, END);
    let place = load_link(receiver, newest as usize, PLACE);
    let size = load_link(receiver, newest as usize, LENGTH);
    let out = misplaced(0, end, place, size);
    if out {
        return end;
    }
    place + size
}

// Frees the bytes of row i, which has left the age chain. Refused where they are more than are used: nothing is changed.
pub fn drop_payload(receiver: &mut [u64; RECEIVER_WORDS], i: usize) -> Result<(), Broken>
    requires { i < 4096 }
    ensures { (broken_number result ≡ drop_code_words receiver.old i) × (receiver.new ≡ drop_payload receiver.old i) }
{
    drop_code(&*receiver, i)?;
    let size = load_link(&*receiver, i, LENGTH);
    let used = load_header(&*receiver, USED);
    let end = held_end(&*receiver);
    store_header(receiver, USED, used - size);
    store_header(receiver, END, end);
    Ok(())
}
