// The records of an image, as plain numbers.
ghost use Rattle.std.specs.Prelude.{◌≡◌, ◌+◌, ◌≤◌, length, take, drop};
ghost use Rattle.queue_model.specs.Bytes.{row_bytes};
ghost use Rattle.queue_model.specs.Image.{stream_widths, message_widths, trailer_widths};
ghost use Rattle.big_endian.specs.Numbers.{wrote};
ghost use Rattle.handover_records.specs.Records.{stream_at_words, message_at, trailer_at, stream_row_words, message_row_words, trailer_row};

use big_endian::{put_u8, put_u16, put_u32, put_u64, read_u8, read_u16, read_u32, read_u64};

// 14 bytes.
#[derive(Clone, Copy)]
pub struct HandoverOutgoingStream {
    pub id: u16,
    pub next_ssn: u16,
    pub next_unordered_mid: u32,
    pub next_ordered_mid: u32,
    pub priority: u16,
}

// 44 bytes; the payload follows them.
#[derive(Clone, Copy)]
pub struct HandoverStreamMessage {
    pub id: u16,
    // A sum of 1 unordered, 2 MID given, 4 lifetime.
    pub flags: u8,
    pub zero: u8,
    pub ppid: u32,
    pub ms_left: u32,
    pub max_retransmissions: u16,
    pub ssn: u16,
    pub mid: u32,
    pub fsn: u32,
    pub lifecycle_id: u64,
    pub message_id: u32,
    pub offset: u32,
    pub length: u32,
}

// The image's last 20 bytes.
#[derive(Clone, Copy)]
pub struct Trailer {
    pub next_message_id: u32,
    pub default_priority: u16,
    pub streams: u16,
    pub messages: u16,
    pub form: u16,
    // The bytes of the message records, and of the stream records.
    pub messages_size: u32,
    pub streams_size: u32,
}

pub fn read_stream(image: &[u8], at: usize) -> HandoverOutgoingStream
    requires { at + 14 ≤ length image.now }
    ensures { result ≡ stream_at_words image.now at }
{
    HandoverOutgoingStream {
        id: read_u16(image, at + 0),
        next_ssn: read_u16(image, at + 2),
        next_unordered_mid: read_u32(image, at + 4),
        next_ordered_mid: read_u32(image, at + 8),
        priority: read_u16(image, at + 12),
    }
}

pub fn read_message(image: &[u8], at: usize) -> HandoverStreamMessage
    requires { at + 44 ≤ length image.now }
    ensures { result ≡ message_at image.now at }
{
    HandoverStreamMessage {
        id: read_u16(image, at + 0),
        flags: read_u8(image, at + 2),
        zero: read_u8(image, at + 3),
        ppid: read_u32(image, at + 4),
        ms_left: read_u32(image, at + 8),
        max_retransmissions: read_u16(image, at + 12),
        ssn: read_u16(image, at + 14),
        mid: read_u32(image, at + 16),
        fsn: read_u32(image, at + 20),
        lifecycle_id: read_u64(image, at + 24),
        message_id: read_u32(image, at + 32),
        offset: read_u32(image, at + 36),
        length: read_u32(image, at + 40),
    }
}

pub fn read_trailer(image: &[u8], at: usize) -> Trailer
    requires { at + 20 ≤ length image.now }
    ensures { result ≡ trailer_at image.now at }
{
    Trailer {
        next_message_id: read_u32(image, at + 0),
        default_priority: read_u16(image, at + 4),
        streams: read_u16(image, at + 6),
        messages: read_u16(image, at + 8),
        form: read_u16(image, at + 10),
        messages_size: read_u32(image, at + 12),
        streams_size: read_u32(image, at + 16),
    }
}

pub fn put_stream(buffer: &mut [u8], at: usize, s: HandoverOutgoingStream)
    requires { at + 14 ≤ length buffer.old }
    ensures { buffer.new ≡ wrote buffer.old at (row_bytes stream_widths (stream_row_words s)) }
{
    put_u16(buffer, at + 0, s.id);
    put_u16(buffer, at + 2, s.next_ssn);
    put_u32(buffer, at + 4, s.next_unordered_mid);
    put_u32(buffer, at + 8, s.next_ordered_mid);
    put_u16(buffer, at + 12, s.priority);
}

// Of a message record the first seven numbers, in 16 bytes.
fn put_message_start(buffer: &mut [u8], at: usize, m: HandoverStreamMessage)
    requires { at + 16 ≤ length buffer.old }
    ensures { buffer.new ≡ wrote buffer.old at (row_bytes (take 7 message_widths) (take 7 (message_row_words m))) }
{
    put_u16(buffer, at + 0, m.id);
    put_u8(buffer, at + 2, m.flags);
    put_u8(buffer, at + 3, m.zero);
    put_u32(buffer, at + 4, m.ppid);
    put_u32(buffer, at + 8, m.ms_left);
    put_u16(buffer, at + 12, m.max_retransmissions);
    put_u16(buffer, at + 14, m.ssn);
}

// The other six, in 28 bytes.
fn put_message_end(buffer: &mut [u8], at: usize, m: HandoverStreamMessage)
    requires { at + 28 ≤ length buffer.old }
    ensures { buffer.new ≡ wrote buffer.old at (row_bytes (drop 7 message_widths) (drop 7 (message_row_words m))) }
{
    put_u32(buffer, at + 0, m.mid);
    put_u32(buffer, at + 4, m.fsn);
    put_u64(buffer, at + 8, m.lifecycle_id);
    put_u32(buffer, at + 16, m.message_id);
    put_u32(buffer, at + 20, m.offset);
    put_u32(buffer, at + 24, m.length);
}

// The 44 bytes without the payload.
pub fn put_message(buffer: &mut [u8], at: usize, m: HandoverStreamMessage)
    requires { at + 44 ≤ length buffer.old }
    ensures { buffer.new ≡ wrote buffer.old at (row_bytes message_widths (message_row_words m)) }
{
    put_message_start(buffer, at, m);
    put_message_end(buffer, at + 16, m);
}

pub fn put_trailer(buffer: &mut [u8], at: usize, t: Trailer)
    requires { at + 20 ≤ length buffer.old }
    ensures { buffer.new ≡ wrote buffer.old at (row_bytes trailer_widths (trailer_row t)) }
{
    put_u32(buffer, at + 0, t.next_message_id);
    put_u16(buffer, at + 4, t.default_priority);
    put_u16(buffer, at + 6, t.streams);
    put_u16(buffer, at + 8, t.messages);
    put_u16(buffer, at + 10, t.form);
    put_u32(buffer, at + 12, t.messages_size);
    put_u32(buffer, at + 16, t.streams_size);
}
