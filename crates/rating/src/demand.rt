ghost use Rattle.std.specs.Prelude.{◌≡◌, ℕ, ◌<◌, true, slice_index_or};
ghost use Rattle.arrayvec.specs.ArrayVec.{array_vec_len};
ghost use Rattle.rating.specs.Sources.{blank, is_sound};

use arrayvec::ArrayVec;

pub mod rules;

// Jobs that come at least a period apart, each of them held back by at most a delay, and what each of them costs.
#[derive(Clone, Copy, Default)]
pub struct Source {
    pub cost: u32,
    pub period: u32,
    pub delay: u32,
}

// What is asked of one resource: an own cost, once, and what the sources ask, each of which is sound.
#[derive(Drop)]
pub struct Demand {
    own: u32,
    sources: ArrayVec<Source, 32>,
    ghost sound: { (i : ℕ) → i < array_vec_len sources → is_sound (slice_index_or sources.items i blank) ≡ true },
}
