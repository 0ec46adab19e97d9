// The layout that the Rust crate is written for.
ghost use Rattle.std.specs.Prelude.{◌≡◌};
ghost use Rattle.host_numbers.specs.Layout.{layout};

use host_numbers::host_layout;

// Its name carries it, as that of `dsq_layout_5` does: a crate written for another layout names another function, and does not link.
#[unsafe(no_mangle)]
pub extern "C" fn dsq_owned_packets_layout_5() -> u64
    ensures { result ≡ layout }
{
    host_layout()
}
