// Why the next fragment is refused; 16 is none of them.
ghost use Rattle.std.specs.Prelude.{◌≡◌};
ghost use Rattle.types.specs.Refusal as types_refusal;
ghost use Rattle.owned_sending.specs.Produce.{refusal_number};

use std::convert::From;
use types::Refusal;

// Refusals 3, 4, 9 and 10.
#[derive(Clone, Copy, Debug, PartialEq, Eq)]
pub enum ProduceRefusal {
    EventListShort,
    TimeLate,
    SizeWrong,
    BufferShort,
}

impl From<ProduceRefusal> for Refusal {
    ghost from_gives = { λ own r. types_refusal.refusal_number r ≡ refusal_number own };

    fn from(own: ProduceRefusal) -> Refusal {
        match own {
            ProduceRefusal::EventListShort => Refusal::EventListShort,
            ProduceRefusal::TimeLate => Refusal::TimeLate,
            ProduceRefusal::SizeWrong => Refusal::SizeWrong,
            ProduceRefusal::BufferShort => Refusal::BufferShort,
        }
    }
}
