// What the checked and the owned filling share: the judging of what is lent and asked for, sizes and TSNs, and a chunk around a payload
// that is in its place.
ghost use Rattle.std.specs.Prelude.{◌≡◌, ◌+◌, ◌-◌, ◌≤◌, min, length};
ghost use Rattle.types.specs.Refusal.{check_number};
ghost use Rattle.types.specs.Wrap.{wrap_suc};
ghost use Rattle.queue_model.specs.Chunks.{padded};
ghost use Rattle.queue_model.specs.Fill.{rounded_down};
ghost use Rattle.chunks.specs.Layout.{header_size};
ghost use Rattle.packets.specs.Filling.{kind_of, packet_code, events_code, chunk_around};

use crate::packet::{LEAST_LIMIT, MOST_LIMIT};
use chunks::{ChunkKind, header_size, padded, put_header, put_zeros};
use queue_sending::Data;
use queue_streams::events::EVENT_WORDS;
use queue_words::limits::MAX_TIME;
use types::Refusal;

// "20 when the packet limit is outside 36 to 65,535, 21 when the packet buffer is shorter than the limit".
pub fn packet_code(room: usize, limit: usize) -> Result<(), Refusal>
    ensures { check_number result ≡ packet_code room limit 0 }
{
    if limit < LEAST_LIMIT {
        return Err(Refusal::PacketLimitWrong);
    }
    if limit > MOST_LIMIT {
        return Err(Refusal::PacketLimitWrong);
    }
    if room < limit {
        return Err(Refusal::PacketBufferShort);
    }
    Ok(())
}

// Document 01's 3 for the event list and 4 for the time.
pub fn events_code(places: u64, time: u64) -> Result<(), Refusal>
    ensures { check_number result ≡ events_code places time }
{
    if places < EVENT_WORDS as u64 {
        return Err(Refusal::EventListShort);
    }
    if time > MAX_TIME {
        return Err(Refusal::TimeLate);
    }
    Ok(())
}

// "I-DATA while interleaving is on, else DATA".
pub fn kind_of(interleaving: bool) -> ChunkKind
    ensures { result ≡ kind_of interleaving }
{
    if interleaving {
        return ChunkKind::IData;
    }
    ChunkKind::Data
}

// "rounded down to a multiple of 4, at most the payload limit"; `start` is where the payload would begin.
pub fn size_asked(limit: usize, start: usize, most: u16) -> usize
    ensures { result ≡ min (rounded_down (limit - start)) most }
{
    if limit < start {
        return 0;
    }
    let room = (limit - start) / 4 * 4;
    if room > most as usize {
        return most as usize;
    }
    room
}

// "consecutive TSNs"; they wrap at 32 bits.
pub fn next_tsn(tsn: u32) -> u32
    ensures { result ≡ wrap_suc 32 tsn }
{
    if tsn == u32::MAX {
        return 0;
    }
    tsn + 1
}

// The chunk's header before a payload that is in its place, and the zeros behind it.
pub fn put_around(packet: &mut [u8], at: usize, kind: ChunkKind, tsn: u32, d: Data)
    requires { (header_size kind + d.length ≤ 65535) × (at + padded (header_size kind + d.length) ≤ length packet.old) }
    ensures { packet.new ≡ chunk_around kind tsn d packet.old at }
{
    let size = header_size(kind);
    let len = size + d.length as usize;
    let end = padded(len);
    let stop = at + size;
    put_header(&mut packet[at..stop], kind, tsn, d, len as u16);
    put_zeros(packet, at + len, end - len);
}
