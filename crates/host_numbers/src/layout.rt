// The layout that a host is compiled for.
ghost use Rattle.std.specs.Prelude.{◌≡◌};
ghost use Rattle.host_numbers.specs.Layout.{layout};

// DSQ_LAYOUT of c/send_queue.h.
pub const LAYOUT: u64 = 5;

// What each library tells under a name that carries it.
pub fn host_layout() -> u64
    ensures { result ≡ layout }
{
    LAYOUT
}
