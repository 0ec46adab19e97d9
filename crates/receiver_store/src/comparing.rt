// Comparing payload bytes.
ghost use Rattle.std.specs.Prelude.{◌≡◌};
ghost use Rattle.receiver_model.specs.Lists.{same_list};

// Are all bytes the same?
pub fn same_bytes(a: &[u8], b: &[u8]) -> bool
    ensures { result ≡ same_list a.now b.now }
{
    a == b
}
