ghost use Rattle.arrivals.specs.Ranges.{DistanceRead, InRange};
ghost use Rattle.std.specs.Prelude.{IfSome};

// The distance that a text writes: a decimal number from 1 to 1,000,000.
// Stays: a `Distance` would be taken apart again for the gate's `set`, which is told a number.
pub(crate) fn parse_distance(text: &str) -> Option<u32>
    ensures read { DistanceRead text.now result }
    ensures range { IfSome result InRange }
{
    let distance = text.parse::<u32>().ok()?;
    (1..=1_000_000).contains(&distance).then_some(distance)
}
