// What the program keeps between lines, in one array of 160 words.
//
//     words         holds
//       0 to 130    the numbers of the line, at most 131
//     131           how many they are
//     132           the line's letter
//     133 to 134    the next byte of the input buffer, and where its bytes end
//     135 to 138    the lengths lent: places of the event list, bytes of the fragment buffer, of the image buffer and of the store
//     139           1 if there is a queue
//     140           the length of the current image
//     141 to 147    the numbers of the line that created the queue; the last, the rule of a restart, is 0 where the line has none
//     148           the interleaving choice, 0 or 1
//     149           1 if there is a stream reset handler
//     150 to 152    its next number, 1 if a request is underway, and that one's number
//     153 to 156    of the receiving head (crate receiver_lines)
ghost use Rattle.std.specs.Prelude.{◌≡◌, ◌%◌};

pub const STATE: usize = 160;

pub const NUMBERS: usize = 131;

pub const COUNT: usize = 131;

pub const LETTER: usize = 132;

pub const INPUT_AT: usize = 133;

pub const INPUT_END: usize = 134;

pub const LENT_EVENTS: usize = 135;

pub const LENT_FRAGMENT: usize = 136;

pub const LENT_IMAGE: usize = 137;

pub const LENT_STORE: usize = 138;

pub const QUEUES: usize = 139;

pub const IMAGE_LENGTH: usize = 140;

pub const CREATED_LIMIT: usize = 141;

pub const CREATED_STORE: usize = 142;

pub const CREATED_PRIORITY: usize = 143;

pub const CREATED_THRESHOLD: usize = 144;

pub const CREATED_TOTAL: usize = 145;

pub const CREATED_HANDOVER: usize = 146;

pub const CREATED_RULE: usize = 147;

pub const CHOICE: usize = 148;

pub const STARTED: usize = 149;

pub const NEXT_NUMBER: usize = 150;

pub const IS_UNDERWAY: usize = 151;

pub const UNDERWAY_NUMBER: usize = 152;

// The most places of the event list that a trace can lend.
pub const MOST_PLACES: usize = 4096;

// The numbers of a line `n` with the rule of a restart, which it may leave out.
pub const NEW_WITH_RULE: u64 = 7;

// The largest number of 16 bits.
pub const BITS16: u64 = 65535;

// The lengths of the arrays. A fragment is written where the payload of the line `a` was.
pub const PAYLOAD: usize = 300000;

pub const STORE: usize = 2100000;

pub const IMAGE: usize = 2100000;

pub const LINE_BYTES: usize = 2048;

pub const BUFFER: usize = 65536;

// The low bits of a number. The ranges of a line's numbers are settled before.
pub fn low16(x: u64) -> u16
    ensures { result ≡ x % 65536 }
{
    (x % 65536) as u16
}

pub fn low32(x: u64) -> u32
    ensures { result ≡ x % 4294967296 }
{
    (x % 4294967296) as u32
}

pub fn low8(x: u64) -> u8
    ensures { result ≡ x % 256 }
{
    (x % 256) as u8
}

pub fn wide(b: u8) -> u64
    ensures { result ≡ b }
{
    b as u64
}

pub fn wide16(n: u16) -> u64
    ensures { result ≡ n }
{
    n as u64
}

pub fn bit(b: bool) -> u64 {
    if b { 1 } else { 0 }
}
