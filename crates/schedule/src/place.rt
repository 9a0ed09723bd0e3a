// What the place of a row holds: nothing, a job that loads, or one that computes. A job keeps the steps that are left in
// its phase and the step in which it was admitted; while it loads, also what it will compute.
#[derive(Clone, Copy, PartialEq, Eq, Debug)]
pub enum Slot {
    Empty,
    Loading { left: u32, compute: u32, since: u32 },
    Computing { left: u32, since: u32 },
}
