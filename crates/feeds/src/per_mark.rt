ghost use Rattle.std.specs.Prelude.{◌≡◌, length};

mod rules;

// One value for each mark.
#[derive(Drop)]
pub struct PerMark<T> {
    entries: [T; 32],
    ghost full: { length entries ≡ 32 },
}
