// The payload of a message, and the sum by which a fragment is compared.
ghost use Rattle.std.specs.Prelude.{◌≡◌, ◌%◌, ◌<◌, length, take};
ghost use Rattle.trace_text.specs.Payload.{next_of, byte_of, bytes_from, sum_with, sum_from};

fn next(x: u64) -> u64
    requires { x < 2147483648 }
    ensures { (result ≡ next_of x) × (result < 2147483648) }
{
    (x * 1103515245 + 12345) % 2147483648
}

fn byte_of(x: u64) -> u8
    ensures { result ≡ byte_of x }
{
    (x / 65536 % 256) as u8
}

// Fills the payload from a seed.
pub fn fill(payload: &mut [u8], seed: u64)
    ensures { payload.new ≡ bytes_from (seed % 2147483648) (length payload.old) }
{
    let mut x = seed % 2147483648;
    for i in 0..payload.len() {
        x = next(x);
        payload[i] = byte_of(x);
    }
}

fn add_byte(s: u64, b: u8) -> u64
    requires { s < 4294967296 }
    ensures { (result ≡ sum_with s b) × (result < 4294967296) }
{
    (s * 31 + b as u64) % 4294967296
}

// "s = 17; for each byte s = (s × 31 + byte) mod 4294967296".
pub fn sum(bytes: &[u8]) -> u64
    ensures { result ≡ sum_from 17 bytes.now }
{
    let mut s = 17;
    for &b in bytes {
        s = add_byte(s, b);
    }
    s
}

// The sum of the first n bytes; of all, if they are fewer.
pub fn sum_of(bytes: &[u8], n: usize) -> u64
    ensures { result ≡ sum_from 17 (take n bytes.now) }
{
    if n > bytes.len() {
        return sum(bytes);
    }
    sum(&bytes[..n])
}
