ghost use Rattle.std.specs.Prelude.{◌<◌};

mod rules;

// A row mark: the number of a row of some draft, always from 0 to 31.
#[derive(Clone, Copy)]
pub struct Mark {
    value: u8,
    ghost small: { value < 32 },
}
