// "The image reader is a record of the lent image and its position": thin calls read one record each.
#![tactic(auto)]

ghost use Rattle.std.specs.Prelude.{◌≡◌, ◌+◌, ◌≤◌, length};
ghost use Rattle.handover_records.specs.Records.{stream_at_words, message_at, trailer_at};

use handover_records::{HandoverOutgoingStream, HandoverStreamMessage, Trailer, records};

#[derive(Clone, Copy)]
pub struct ImageReader<'a> {
    pub image: &'a [u8],
    pub at: usize,
}

pub fn reader<'a>(image: &'a [u8], at: usize) -> ImageReader<'a>
    ensures { (result.image ≡ image.entry) × (result.at ≡ at) }
{
    ImageReader { image, at }
}

// 14 bytes.
pub fn stream_record<'a>(r: ImageReader<'a>) -> HandoverOutgoingStream
    requires { r.at + 14 ≤ length r.image.now }
    ensures { result ≡ stream_at_words r.entry.image.now r.entry.at }
{
    records::read_stream(r.image, r.at)
}

// 44 bytes; the payload follows them.
pub fn message_record<'a>(r: ImageReader<'a>) -> HandoverStreamMessage
    requires { r.at + 44 ≤ length r.image.now }
    ensures { result ≡ message_at r.entry.image.now r.entry.at }
{
    records::read_message(r.image, r.at)
}

// 20 bytes.
pub fn trailer_record<'a>(r: ImageReader<'a>) -> Trailer
    requires { r.at + 20 ≤ length r.image.now }
    ensures { result ≡ trailer_at r.entry.image.now r.entry.at }
{
    records::read_trailer(r.image, r.at)
}

// Plain parameters above: their callers need no walk.
pub fn read_stream(image: &[u8], at: usize) -> HandoverOutgoingStream
    requires { at + 14 ≤ length image.now }
    ensures { result ≡ stream_at_words image.now at }
{
    stream_record(reader(image, at))
}

pub fn read_message(image: &[u8], at: usize) -> HandoverStreamMessage
    requires { at + 44 ≤ length image.now }
    ensures { result ≡ message_at image.now at }
{
    message_record(reader(image, at))
}

pub fn read_trailer(image: &[u8], at: usize) -> Trailer
    requires { at + 20 ≤ length image.now }
    ensures { result ≡ trailer_at image.now at }
{
    trailer_record(reader(image, at))
}
