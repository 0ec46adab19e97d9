// The handler's state.
ghost use Rattle.std.specs.Prelude.{◌≡◌};
ghost use Rattle.types.specs.Wrap.{wrap_suc};
ghost use Rattle.reset_model.specs.Handler as model;
ghost use Rattle.stream_reset_handler.specs.Handler.{handler_of, is_underway, ended_as};

#[derive(Clone, Copy, Debug, PartialEq, Eq)]
pub struct StreamResetHandler {
    pub next_number: u32,
    // The number of the request underway.
    pub underway: Option<u32>,
}

// "Request numbers start at a given one".
pub fn start(number: u32) -> StreamResetHandler
    ensures { result ≡ handler_of (model.start number) }
{
    StreamResetHandler {
        next_number: number,
        underway: None,
    }
}

// "grow by one a message and wrap at 32 bits".
pub fn number_after(number: u32) -> u32
    ensures { result ≡ wrap_suc 32 number }
{
    number.wrapping_add(1)
}

pub fn is_underway(handler: StreamResetHandler, number: u32) -> bool
    ensures { result ≡ is_underway handler number }
{
    handler.underway == Some(number)
}

pub fn ended(handler: StreamResetHandler) -> StreamResetHandler
    ensures { result ≡ ended_as handler }
{
    StreamResetHandler {
        underway: None,
        ..handler
    }
}
