ghost use Rattle.std.specs.Prelude.{◌≡◌, ℕ, ◌≤◌};
ghost use Rattle.rating.specs.Curves.{Least, Rising, least_within};

// Says how much work is asked in a length of steps, and never asks less in a longer one.
pub trait Curve {
    ghost rising: { Self → Rising };

    fn ask(&self, w: u32) -> u64
        ensures { result ≡ (rising self.now).work w };
}

// The least length, up to the ceiling, in which exactly that much work is asked.
pub fn least<C: Curve>(curve: &C, ceiling: u32) -> Option<u32>
    ensures value { result ≡ least_within (C.rising curve.now).work ceiling }
    ensures least { Least (C.rising curve.now).work ceiling result }
{
    least_from(curve, 0, ceiling)
}

// The same where no solution is below `from`, and `from` asks for itself at least: the lengths below are spared.
// The curve never falls, so the work asked in a length at or below a solution is at or below it too.
// Stays: a loop that breaks with the solution found or none is a form of the project.
pub(crate) fn least_from<C: Curve>(curve: &C, from: u32, ceiling: u32) -> Option<u32>
    requires low { (v : ℕ) → (C.rising curve.now).work v ≡ v → from ≤ v }
    requires up { from ≤ (C.rising curve.now).work from }
    ensures value { result ≡ least_within (C.rising curve.now).work ceiling }
    ensures least { Least (C.rising curve.now).work ceiling result }
{
    let mut w = from;
    loop {
        let asked = curve.ask(w);
        if asked > ceiling as u64 {
            break None;
        }
        if asked <= w as u64 {
            break Some(w);
        }
        w = asked as u32;
    }
}
