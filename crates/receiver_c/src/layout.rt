// The layout that a host is compiled for.
ghost use Rattle.std.specs.Prelude.{◌≡◌};
ghost use Rattle.receiver_c.specs.Layout.{layout};

// DSR_LAYOUT of c/receiver.h.
pub const LAYOUT: u64 = 2;

// A host compares it with the number that it was compiled with.
#[unsafe(no_mangle)]
pub extern "C" fn dsr_layout() -> u64
    ensures { result ≡ layout }
{
    LAYOUT
}

// The same under a name that carries the layout: a host compiled for another one names another function, and does not link.
#[unsafe(no_mangle)]
pub extern "C" fn dsr_layout_2() -> u64
    ensures { result ≡ layout }
{
    dsr_layout()
}
