// Whether the lengths of lent areas are as they must be (document 01, "Operations"; refusal 1).
ghost use Rattle.std.specs.Prelude.{◌≡◌};
ghost use Rattle.monitor_spec.specs.State.{lengths_fit};

// Of the lengths of area 0 and area 1.
pub fn lengths_fit(a: usize, b: usize) -> bool
    ensures { result ≡ lengths_fit a b }
{
    if a != b {
        return false;
    }
    if a % 16 != 0 {
        return false;
    }
    if a < 16 {
        return false;
    }
    a <= 4096
}
