// One call for a whole packet (document 02, 5/13): a loop of calls for the next fragment, each payload read from the store to its place
// in the packet.
ghost use Rattle.std.specs.Prelude.{◌≡◌, ◌+◌, ◌≤◌, length};
ghost use Rattle.types.specs.Refusal as types_refusal;
ghost use Rattle.types.specs.Refusal.{check_number};
ghost use Rattle.queue_model.specs.Chunks.{padded};
ghost use Rattle.queue_model.specs.Fill.{common_header_length};
ghost use Rattle.queue_sending.specs.Answers.{made_of};
ghost use Rattle.queue_sending.specs.Data.{produced_with};
ghost use Rattle.queue_state.specs.Good.{Good};
ghost use Rattle.chunks.specs.Layout.{header_size};
ghost use Rattle.packets.specs.Answers.{filled_of};
ghost use Rattle.packets.specs.Filling.{one_filled, filling_with, fill_on_words, finished_answer, finished_packet};
ghost use Rattle.linked_packets.specs.Meaning.{FillMeets};
ghost use Rattle.owned_sending.specs.Passing.{Payable};
ghost use Rattle.owned_packets.specs.Filling.{lent_code, Lent, OnlyLent, refusal_number, MayFill, filling_of, filled_as};

use crate::refusals::FillRefusal;
use chunks::{ChunkKind, header_size, padded};
use owned_sending::produce_after;
use packets::packet::{COMMON_HEADER, put_common_header};
use packets::parts::{events_code, kind_of, next_tsn, packet_code, put_around, size_asked};
use packets::{Filled, Packet};
use queue_sending::Produced;
use queue_words::QUEUE_WORDS;
use queue_words::header::{load_options, load_totals};
use types::Refusal;

// How far a filling has come: the bytes used, how many events and chunks are written.
#[derive(Clone, Copy, Debug, PartialEq, Eq)]
pub struct Progress {
    pub used: usize,
    pub events: usize,
    pub chunks: usize,
}

// The refusals that what is lent and asked for decides: 20, 21, 3, 4.
fn lent_code(places: u64, room: usize, time: u64, limit: usize) -> Result<(), Refusal>
    ensures { check_number result ≡ lent_code places room time limit }
{
    packet_code(room, limit)?;
    events_code(places, time)
}

// A refusal of what is lent and asked for, as the call's own.
fn refusal_of(r: Refusal) -> FillRefusal
    requires { Lent (types_refusal.refusal_number r) }
    ensures { refusal_number result ≡ types_refusal.refusal_number r }
{
    match r {
        Refusal::PacketLimitWrong => FillRefusal::PacketLimitWrong,
        Refusal::PacketBufferShort => FillRefusal::PacketBufferShort,
        Refusal::EventListShort => FillRefusal::EventListShort,
        _ => FillRefusal::TimeLate,
    }
}

// One call for the next fragment, after k events: its fragment buffer is the part of the packet in which the payload lies.
fn fill_one(
    queue: &mut [u64; QUEUE_WORDS],
    store: &[u8],
    events: &mut [u64],
    packet: &mut [u8],
    kind: ChunkKind,
    time: u64,
    at: usize,
    k: usize,
    tsn: u32,
    size: usize,
) -> Produced
    requires { Payable queue.old store.now events.old k × ((header_size kind + size ≤ 65535) × (at + padded (header_size kind + size) ≤ length packet.old)) }
    ensures { produced_with (made_of result) queue.new events.new packet.new ≡ one_filled kind store.now time queue.old events.old packet.old at k tsn size }
{
    let start = at + header_size(kind);
    let end = start + size;
    let made = produce_after(
        queue,
        store,
        events,
        &mut packet[start..end],
        time,
        size as u64,
        k,
    );
    match made {
        Produced::Fragment(j, d) => {
            let data = d.data;
            put_around(packet, at, kind, tsn, data);
            Produced::Fragment(j, d)
        }
        Produced::Nothing(j) => Produced::Nothing(j),
    }
}

// The chunks, from behind the common header on. "Filling ends when that size is 0 or less or nothing is waiting." Each fragment uses at
// least a chunk header, so as many turns as the limit suffice.
fn fill_chunks(
    queue: &mut [u64; QUEUE_WORDS],
    store: &[u8],
    events: &mut [u64],
    packet: &mut [u8],
    kind: ChunkKind,
    time: u64,
    limit: usize,
    most: u16,
    first: u32,
) -> Progress
    requires { MayFill queue.old store.now events.old packet.old time limit }
    ensures { filling_with (filling_of result) queue.new events.new packet.new ≡ fill_on_words limit kind store.now time limit most queue.old events.old packet.old common_header_length 0 0 first }
{
    let header = header_size(kind);
    let mut used = COMMON_HEADER;
    let mut count = 0;
    let mut chunks = 0;
    let mut tsn = first;
    let mut left = limit;
    loop {
        if left == 0 {
            return Progress {
                used,
                events: count,
                chunks,
            };
        }
        let size = size_asked(limit, used + header, most);
        if size == 0 {
            return Progress {
                used,
                events: count,
                chunks,
            };
        }
        let made = fill_one(
            queue, store, events, packet, kind, time, used, count, tsn, size,
        );
        match made {
            Produced::Fragment(j, d) => {
                let data = d.data;
                used = used + padded(header + data.length as usize);
                count = j;
                chunks += 1;
                tsn = next_tsn(tsn);
                left -= 1;
            }
            Produced::Nothing(j) => {
                return Progress {
                    used,
                    events: j,
                    chunks,
                };
            }
        }
    }
}

// "without a fragment no packet is written and both are 0."
fn finish(packet: &mut [u8], p: Packet, r: Progress) -> Filled
    requires { common_header_length ≤ length packet.old }
    ensures { (filled_of result ≡ finished_answer (filling_of r)) × (packet.new ≡ finished_packet p (filling_of r) packet.old) }
{
    if r.chunks == 0 {
        return Filled {
            events: r.events,
            bytes: 0,
            chunks: 0,
        };
    }
    put_common_header(packet, p);
    Filled {
        events: r.events,
        bytes: r.used,
        chunks: r.chunks,
    }
}

// Fills the lent packet; the store is the queue's own, the event list is lent as for the next fragment.
pub fn fill_packet(
    queue: &mut [u64; QUEUE_WORDS],
    store: &[u8],
    events: &mut [u64],
    packet: &mut [u8],
    time: u64,
    p: Packet,
) -> Result<Filled, FillRefusal>
    requires { Good queue.old store.now }
    ensures meets { FillMeets queue.old store.now events.old packet.old time p (filled_as result) queue.new events.new packet.new }
    ensures lent { OnlyLent (filled_as result) }
{
    if let Err(refused) = lent_code(events.len() as u64, packet.len(), time, p.limit) {
        return Err(refusal_of(refused));
    }
    let o = load_options(&*queue);
    let t = load_totals(&*queue);
    let kind = kind_of(t.interleaving);
    let r = fill_chunks(
        queue,
        store,
        events,
        packet,
        kind,
        time,
        p.limit,
        o.payload_limit,
        p.tsn,
    );
    Ok(finish(packet, p, r))
}
