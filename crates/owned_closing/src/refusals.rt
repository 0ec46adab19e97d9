// Why discarding and closing are refused; 16 is none of them.
ghost use Rattle.std.specs.Prelude.{◌≡◌};
ghost use Rattle.types.specs.declared.refusal.Refusal.TheVariants as refusal;
ghost use Rattle.owned_closing.specs.Own.{closing_refusal};

use std::convert::From;
use types::Refusal;

// Refusal 3 alone.
#[derive(Clone, Copy, Debug, PartialEq, Eq)]
pub struct EventListShort;

impl From<EventListShort> for Refusal {
    ghost from_gives = { λ _ r. r ≡ refusal.EventListShort };

    fn from(_short: EventListShort) -> Refusal {
        Refusal::EventListShort
    }
}

// Refusals 3 and 6.
#[derive(Clone, Copy, Debug, PartialEq, Eq)]
pub enum ClosingRefusal {
    EventListShort,
    StreamsFull,
}

impl From<ClosingRefusal> for Refusal {
    ghost from_gives = { λ own r. r ≡ closing_refusal own };

    fn from(own: ClosingRefusal) -> Refusal {
        match own {
            ClosingRefusal::EventListShort => Refusal::EventListShort,
            ClosingRefusal::StreamsFull => Refusal::StreamsFull,
        }
    }
}
