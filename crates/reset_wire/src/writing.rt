// The outgoing request. "RE-CONFIG is chunk type 130: flags 0 (any when read), one parameter, padding as in 1/13."
ghost use Rattle.std.specs.Prelude.{◌≡◌, ◌+◌, ◌*◌, ◌≤◌, length, take, replicate};
ghost use Rattle.big_endian.specs.Numbers.{wrote};
ghost use Rattle.queue_model.specs.Chunks.{padding};
ghost use Rattle.reset_model.specs.Wire.{request_size, chunk_length, request_head, id_bytes, request_bytes};

use crate::{OUTGOING_REQUEST, RE_CONFIG};
use big_endian::{put_u8, put_u16, put_u32};

// The bytes before the stream ids, of the chunk and of its parameter.
const CHUNK_HEADER: usize = 20;

const PARAMETER_HEADER: usize = 16;

// The bytes of a request with so many stream ids, with its padding.
pub fn request_size(count: usize) -> usize
    requires { count ≤ 256 }
    ensures { result ≡ request_size count }
{
    CHUNK_HEADER + 2 * count + 2 * (count % 2)
}

// "The outgoing request is parameter 13: length, request number, response number, last TSN and the ready stream ids."
fn write_head(output: &mut [u8], count: usize, number: u32, response_number: u32, last_tsn: u32)
    requires { (count ≤ 256) × (20 ≤ length output.old) }
    ensures { output.new ≡ wrote output.old 0 (request_head count number response_number last_tsn) }
{
    let chunk_length = CHUNK_HEADER + 2 * count;
    let parameter_length = PARAMETER_HEADER + 2 * count;
    put_u8(output, 0, RE_CONFIG);
    put_u8(output, 1, 0);
    put_u16(output, 2, chunk_length as u16);
    put_u16(output, 4, OUTGOING_REQUEST);
    put_u16(output, 6, parameter_length as u16);
    put_u32(output, 8, number);
    put_u32(output, 12, response_number);
    put_u32(output, 16, last_tsn);
}

fn write_ids(output: &mut [u8], ids: &[u16; 256], count: usize)
    requires { (count ≤ 256) × (count ≤ length ids.now) × (20 + 2 * count ≤ length output.old) }
    ensures { output.new ≡ wrote output.old 20 (id_bytes (take count ids.now)) }
{
    for i in 0..count {
        put_u16(output, CHUNK_HEADER + 2 * i, ids[i]);
    }
}

// "Zeros pad to a multiple of 4" (1/13): two behind an odd number of ids.
fn write_padding(output: &mut [u8], count: usize)
    requires { (count ≤ 256) × (request_size count ≤ length output.old) }
    ensures { output.new ≡ wrote output.old (20 + 2 * count) (replicate (padding (chunk_length count)) 0) }
{
    if count % 2 == 1 {
        put_u16(output, CHUNK_HEADER + 2 * count, 0);
    }
}

// The whole message at the output's start; what is behind it stays.
pub fn write_request(
    output: &mut [u8],
    number: u32,
    response_number: u32,
    last_tsn: u32,
    ids: &[u16; 256],
    count: usize,
)
    requires { (count ≤ 256) × (count ≤ length ids.now) × (request_size count ≤ length output.old) }
    ensures { output.new ≡ wrote output.old 0 (request_bytes number response_number last_tsn (take count ids.now)) }
{
    write_head(output, count, number, response_number, last_tsn);
    write_ids(output, ids, count);
    write_padding(output, count);
}
