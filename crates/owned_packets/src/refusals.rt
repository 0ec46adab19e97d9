// Why filling a packet is refused; 2 and 16 are none of them.
ghost use Rattle.std.specs.Prelude.{◌≡◌};
ghost use Rattle.types.specs.Refusal as types_refusal;
ghost use Rattle.owned_packets.specs.Filling.{refusal_number};

use std::convert::From;
use types::Refusal;

// Refusals 20, 21, 3 and 4.
#[derive(Clone, Copy, Debug, PartialEq, Eq)]
pub enum FillRefusal {
    PacketLimitWrong,
    PacketBufferShort,
    EventListShort,
    TimeLate,
}

impl From<FillRefusal> for Refusal {
    ghost from_gives = { λ own r. types_refusal.refusal_number r ≡ refusal_number own };

    fn from(own: FillRefusal) -> Refusal {
        match own {
            FillRefusal::PacketLimitWrong => Refusal::PacketLimitWrong,
            FillRefusal::PacketBufferShort => Refusal::PacketBufferShort,
            FillRefusal::EventListShort => Refusal::EventListShort,
            FillRefusal::TimeLate => Refusal::TimeLate,
        }
    }
}
