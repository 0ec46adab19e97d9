// The layout that a host is compiled for.
ghost use Rattle.std.specs.Prelude.{◌≡◌};
ghost use Rattle.host_numbers.specs.Layout.{layout};

use host_numbers::host_layout;

// A host compares it with the number that it was compiled with.
#[unsafe(no_mangle)]
pub extern "C" fn dsq_layout() -> u64
    ensures { result ≡ layout }
{
    host_layout()
}

// The same under a name that carries the layout: a host compiled for another one names another function, and does not link.
#[unsafe(no_mangle)]
pub extern "C" fn dsq_layout_5() -> u64
    ensures { result ≡ layout }
{
    host_layout()
}
