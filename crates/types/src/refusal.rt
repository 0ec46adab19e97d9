// Why a call is refused: document 01's list, and the numbers that document 02's requests add to it.
ghost use Rattle.std.specs.Prelude.{◌≡◌};
ghost use Rattle.types.specs.Refusal.{refusal_number};
ghost use Rattle.types.specs.declared.refusal.Refusal.TheVariants.{WordsBroken};

use std::convert::From;

// Each case has its sentence in specs/Refusal.
#[derive(Clone, Copy, Debug, PartialEq, Eq)]
pub enum Refusal {
    PayloadLimitWrong = 1,
    StoreWrong = 2,
    EventListShort = 3,
    TimeLate = 4,
    PayloadWrong = 5,
    StreamsFull = 6,
    MessagesFull = 7,
    StoreFull = 8,
    SizeWrong = 9,
    BufferShort = 10,
    ImageBufferShort = 11,
    QueueUsed = 12,
    ImageWrong = 13,
    PriorityOther = 14,
    ImageLarge = 15,
    WordsBroken = 16,
    ChunkPayloadWrong = 17,
    ChunkOutputShort = 18,
    ChunkWrong = 19,
    PacketLimitWrong = 20,
    PacketBufferShort = 21,
    TsnFar = 22,
    ReceiverFull = 23,
    FragmentOther = 24,
    RequestUnderway = 25,
    RequestOutputShort = 26,
    ResponseWrong = 27,
    OrderWrong = 28,
    OrderImpossible = 29,
}

// The documents' number of a refusal.
impl From<Refusal> for u8 {
    ghost from_gives = { λ r n. n ≡ refusal_number r };

    fn from(r: Refusal) -> u8 {
        r as u8
    }
}

// Refusal 16 alone: what a function answers that gives no other.
#[derive(Clone, Copy, Debug, PartialEq, Eq)]
pub struct Broken;

impl From<Broken> for Refusal {
    ghost from_gives = { λ _ r. r ≡ WordsBroken };

    fn from(_broken: Broken) -> Refusal {
        Refusal::WordsBroken
    }
}
