// Unsigned numbers, high byte first, by std's conversions of arrays of bytes.
#![tactic(auto)]

ghost use Rattle.std.specs.Prelude.{◌≡◌, ◌+◌, ◌≤◌, length, take, drop};
ghost use Rattle.queue_model.specs.Bytes.{number_bytes};
ghost use Rattle.big_endian.specs.Numbers.{number_at, wrote};

// The N bytes from `at` on.
fn bytes_at<const N: usize>(bytes: &[u8], at: usize) -> [u8; N]
    requires { at + N ≤ length bytes.now }
    ensures { result ≡ take N (drop at bytes.now) }
{
    let mut part = [0; N];
    part.copy_from_slice(&bytes[at..at + N]);
    part
}

pub fn read_u8(bytes: &[u8], at: usize) -> u8
    requires { at + 1 ≤ length bytes.now }
    ensures { result ≡ number_at bytes.now at 1 }
{
    bytes[at]
}

pub fn read_u16(bytes: &[u8], at: usize) -> u16
    requires { at + 2 ≤ length bytes.now }
    ensures { result ≡ number_at bytes.now at 2 }
{
    u16::from_be_bytes(bytes_at(bytes, at))
}

pub fn read_u32(bytes: &[u8], at: usize) -> u32
    requires { at + 4 ≤ length bytes.now }
    ensures { result ≡ number_at bytes.now at 4 }
{
    u32::from_be_bytes(bytes_at(bytes, at))
}

pub fn read_u64(bytes: &[u8], at: usize) -> u64
    requires { at + 8 ≤ length bytes.now }
    ensures { result ≡ number_at bytes.now at 8 }
{
    u64::from_be_bytes(bytes_at(bytes, at))
}

// These N bytes from `at` on.
fn put_bytes<const N: usize>(buffer: &mut [u8], at: usize, part: &[u8; N])
    requires { at + N ≤ length buffer.old }
    ensures { buffer.new ≡ wrote buffer.old at part.now }
{
    buffer[at..at + N].copy_from_slice(part);
}

pub fn put_u8(buffer: &mut [u8], at: usize, n: u8)
    requires { at + 1 ≤ length buffer.old }
    ensures { buffer.new ≡ wrote buffer.old at (number_bytes 1 n) }
{
    buffer[at] = n;
}

pub fn put_u16(buffer: &mut [u8], at: usize, n: u16)
    requires { at + 2 ≤ length buffer.old }
    ensures { buffer.new ≡ wrote buffer.old at (number_bytes 2 n) }
{
    put_bytes(buffer, at, &n.to_be_bytes());
}

pub fn put_u32(buffer: &mut [u8], at: usize, n: u32)
    requires { at + 4 ≤ length buffer.old }
    ensures { buffer.new ≡ wrote buffer.old at (number_bytes 4 n) }
{
    put_bytes(buffer, at, &n.to_be_bytes());
}

pub fn put_u64(buffer: &mut [u8], at: usize, n: u64)
    requires { at + 8 ≤ length buffer.old }
    ensures { buffer.new ≡ wrote buffer.old at (number_bytes 8 n) }
{
    put_bytes(buffer, at, &n.to_be_bytes());
}
