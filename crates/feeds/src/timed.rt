ghost use Rattle.std.specs.Option.{option_map};
ghost use Rattle.std.specs.Prelude.{◌≡◌};

// What changes as the steps pass.
// Stays: three values lower a rest; one struct of a rest and the rest of them would give terms, distance and cursor one name.
pub trait Timed {
    ghost later: { Self → Self };

    // Goes on by one step, in its place: a table of many is not copied.
    fn pass(&mut self)
        ensures { self.new ≡ later self.old };
}

impl<T: Timed> Timed for Option<T> {
    ghost later = { option_map T.later };

    fn pass(&mut self) {
        if let Some(value) = self {
            value.pass();
        }
    }
}
