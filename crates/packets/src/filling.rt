// Filling a packet: a loop of calls for the next fragment, each payload read from the store to its place in the packet.
ghost use Rattle.std.specs.Prelude.{◌≡◌, ◌+◌, ◌≤◌, length};
ghost use Rattle.types.specs.Refusal.{check_number};
ghost use Rattle.queue_model.specs.Chunks.{padded};
ghost use Rattle.queue_model.specs.Fill.{common_header_length};
ghost use Rattle.queue_streams.specs.Events.{event_words};
ghost use Rattle.queue_sending.specs.Answers.{as_produced};
ghost use Rattle.queue_sending.specs.Data.{produced_with};
ghost use Rattle.chunks.specs.Layout.{header_size};
ghost use Rattle.packets.specs.Answers.{as_filling, as_filled};
ghost use Rattle.packets.specs.Filling.{fill_code, one_filled, filling_with, fill_on_words, filled_with_words, finished_answer, finished_packet, fill_packet};

use crate::packet::{COMMON_HEADER, Filled, Packet, put_common_header};
use crate::parts::{events_code, kind_of, next_tsn, packet_code, put_around, size_asked};
use chunks::{ChunkKind, header_size, padded};
use queue_sending::{Produced, produce_after};
use queue_words::QUEUE_WORDS;
use queue_words::header::{load_options, load_totals};
use types::Refusal;

// The refusals that the arguments decide: 20, 21, then document 01's 2, 3, 4.
fn fill_code(
    queue: &[u64; QUEUE_WORDS],
    len: u64,
    places: u64,
    room: usize,
    time: u64,
    limit: usize,
) -> Result<(), Refusal>
    ensures { check_number result ≡ fill_code queue.now len places room time limit }
{
    packet_code(room, limit)?;
    let o = load_options(queue);
    if o.store_length != len {
        return Err(Refusal::StoreWrong);
    }
    events_code(places, time)
}

// One call for the next fragment, after k events: its fragment buffer is the part of the packet in which the payload lies.
fn fill_one(
    queue: &mut [u64; QUEUE_WORDS],
    store: &[u8],
    events: &mut [u64],
    packet: &mut [u8],
    kind: ChunkKind,
    time: u64,
    at: usize,
    k: usize,
    tsn: u32,
    size: usize,
) -> Result<Produced, Refusal>
    requires { (event_words ≤ length events.old) × ((header_size kind + size ≤ 65535) × (at + padded (header_size kind + size) ≤ length packet.old)) }
    ensures { produced_with (as_produced result) queue.new events.new packet.new ≡ one_filled kind store.now time queue.old events.old packet.old at k tsn size }
{
    let start = at + header_size(kind);
    let end = start + size;
    let made = produce_after(
        queue,
        store,
        events,
        &mut packet[start..end],
        time,
        size as u64,
        k,
    )?;
    match made {
        Produced::Fragment(j, d) => {
            let data = d.data;
            put_around(packet, at, kind, tsn, data);
            Ok(Produced::Fragment(j, d))
        }
        Produced::Nothing(j) => Ok(Produced::Nothing(j)),
    }
}

// How far a filling has come: the bytes used, how many events and chunks are written, and the refusal that ended it, if one did.
#[derive(Clone, Copy, Debug, PartialEq, Eq)]
pub struct Filling {
    pub used: usize,
    pub events: usize,
    pub chunks: usize,
    pub refusal: Option<Refusal>,
}

// The chunks, from behind the common header on. "Filling ends when that size is 0 or less or nothing is waiting." Each fragment uses at
// least a chunk header, so as many turns as the limit suffice.
fn fill_chunks(
    queue: &mut [u64; QUEUE_WORDS],
    store: &[u8],
    events: &mut [u64],
    packet: &mut [u8],
    kind: ChunkKind,
    time: u64,
    limit: usize,
    most: u16,
    first: u32,
) -> Filling
    requires { (event_words ≤ length events.old) × ((common_header_length ≤ limit) × ((limit ≤ 65535) × (limit ≤ length packet.old))) }
    ensures { filling_with (as_filling result) queue.new events.new packet.new ≡ fill_on_words limit kind store.now time limit most queue.old events.old packet.old common_header_length 0 0 first }
{
    let header = header_size(kind);
    let mut used = COMMON_HEADER;
    let mut count = 0;
    let mut chunks = 0;
    let mut tsn = first;
    let mut left = limit;
    loop {
        if left == 0 {
            return Filling {
                used,
                events: count,
                chunks,
                refusal: None,
            };
        }
        let size = size_asked(limit, used + header, most);
        if size == 0 {
            return Filling {
                used,
                events: count,
                chunks,
                refusal: None,
            };
        }
        let made = fill_one(
            queue, store, events, packet, kind, time, used, count, tsn, size,
        );
        match made {
            Ok(Produced::Fragment(j, d)) => {
                let data = d.data;
                used = used + padded(header + data.length as usize);
                count = j;
                chunks += 1;
                tsn = next_tsn(tsn);
                left -= 1;
            }
            Ok(Produced::Nothing(j)) => {
                return Filling {
                    used,
                    events: j,
                    chunks,
                    refusal: None,
                };
            }
            Err(refusal) => {
                return Filling {
                    used,
                    events: count,
                    chunks,
                    refusal: Some(refusal),
                };
            }
        }
    }
}

// "without a fragment no packet is written and both are 0. A 16 refuses the filling only at its first call".
fn finish(packet: &mut [u8], p: Packet, r: Filling) -> Result<Filled, Refusal>
    requires { common_header_length ≤ length packet.old }
    ensures { (as_filled result ≡ finished_answer (as_filling r)) × (packet.new ≡ finished_packet p (as_filling r) packet.old) }
{
    if r.chunks == 0 {
        if let Some(refusal) = r.refusal {
            return Err(refusal);
        }
        return Ok(Filled {
            events: r.events,
            bytes: 0,
            chunks: 0,
        });
    }
    put_common_header(packet, p);
    Ok(Filled {
        events: r.events,
        bytes: r.used,
        chunks: r.chunks,
    })
}

// Fills the lent packet; the store and the event list are lent as for the next fragment.
pub fn fill_packet(
    queue: &mut [u64; QUEUE_WORDS],
    store: &[u8],
    events: &mut [u64],
    packet: &mut [u8],
    time: u64,
    p: Packet,
) -> Result<Filled, Refusal>
    ensures { filled_with_words (as_filled result) queue.new events.new packet.new ≡ fill_packet queue.old store.now events.old packet.old time p }
{
    fill_code(
        &*queue,
        store.len() as u64,
        events.len() as u64,
        packet.len(),
        time,
        p.limit,
    )?;
    let o = load_options(&*queue);
    let t = load_totals(&*queue);
    let kind = kind_of(t.interleaving);
    let r = fill_chunks(
        queue,
        store,
        events,
        packet,
        kind,
        time,
        p.limit,
        o.payload_limit,
        p.tsn,
    );
    finish(packet, p, r)
}
