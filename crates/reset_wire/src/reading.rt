// The response. "The response is parameter 16: length 12, request number, result."
ghost use Rattle.std.specs.Prelude.{◌≡◌};
ghost use Rattle.reset_model.specs.Wire.{verdict_of, read_response};
ghost use Rattle.reset_wire.specs.Reading.{read_as, judged_as, response_of};

use crate::{RE_CONFIG, RESPONSE, RESPONSE_CHUNK, RESPONSE_LENGTH};
use big_endian::{read_u8, read_u16, read_u32};

// A response with its request number.
#[derive(Clone, Copy, Debug, PartialEq, Eq)]
pub enum Response {
    Commits(u32),
    RollsBack(u32),
    KeepsWaiting(u32),
}

// "Result 0 or 1 commits, 2 to 5 roll back, 6 keeps the same request waiting, and above 6 is malformed."
fn judge(number: u32, res: u32) -> Option<Response>
    ensures { read_as result ≡ judged_as number (verdict_of res) }
{
    match res {
        0..=1 => Some(Response::Commits(number)),
        2..=5 => Some(Response::RollsBack(number)),
        6 => Some(Response::KeepsWaiting(number)),
        7..=4294967295 => None,
    }
}

// None where the bytes break the layout. Flags are "any when read".
pub fn read_response(bytes: &[u8]) -> Option<Response>
    ensures { read_as result ≡ response_of (read_response bytes.now) }
{
    if bytes.len() != 16 {
        return None;
    }
    let kind = read_u8(bytes, 0);
    if kind != RE_CONFIG {
        return None;
    }
    let chunk_length = read_u16(bytes, 2);
    if chunk_length != RESPONSE_CHUNK {
        return None;
    }
    let parameter = read_u16(bytes, 4);
    if parameter != RESPONSE {
        return None;
    }
    let parameter_length = read_u16(bytes, 6);
    if parameter_length != RESPONSE_LENGTH {
        return None;
    }
    let number = read_u32(bytes, 8);
    let result = read_u32(bytes, 12);
    judge(number, result)
}
