ghost use Rattle.std.specs.Prelude.{◌≡◌, ◌^◌, ◌<◌};
ghost use Rattle.rating.specs.Quotients.{RoundsUp, ceil};

// a divided by b, rounded up: one division, and no remainder.
pub(crate) fn rounded_up(a: u64, b: u32) -> u64
    requires { (0 < b) × (a < 2 ^ 33) }
    ensures value { result ≡ ceil a b }
    ensures law { RoundsUp a b result }
    ensures small { result < 2 ^ 33 }
{
    (a + (b as u64 - 1)) / b as u64
}
