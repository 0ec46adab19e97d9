// Why a setting is refused; 16 is none of them.
ghost use Rattle.std.specs.Prelude.{◌≡◌};
ghost use Rattle.types.specs.declared.refusal.Refusal.TheVariants as refusal;
ghost use Rattle.types.specs.Refusal.{refusal_number};
ghost use Rattle.owned_streams.specs.Settings.{threshold_number};

use std::convert::From;
use types::Refusal;

// Refusal 6 alone.
#[derive(Clone, Copy, Debug, PartialEq, Eq)]
pub struct StreamsFull;

impl From<StreamsFull> for Refusal {
    ghost from_gives = { λ _ r. r ≡ refusal.StreamsFull };

    fn from(_full: StreamsFull) -> Refusal {
        Refusal::StreamsFull
    }
}

// Refusals 3 and 6.
#[derive(Clone, Copy, Debug, PartialEq, Eq)]
pub enum ThresholdRefusal {
    EventListShort,
    StreamsFull,
}

impl From<ThresholdRefusal> for Refusal {
    ghost from_gives = { λ t r. refusal_number r ≡ threshold_number t };

    fn from(t: ThresholdRefusal) -> Refusal {
        match t {
            ThresholdRefusal::EventListShort => Refusal::EventListShort,
            ThresholdRefusal::StreamsFull => Refusal::StreamsFull,
        }
    }
}
