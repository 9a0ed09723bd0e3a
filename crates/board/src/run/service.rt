ghost use Rattle.std.specs.Prelude.{◌≡◌, ℕ, ◌<◌, IfSome, if◌then◌else◌};
ghost use Rattle.board.specs.Rules.{ends, served_on, slot_at, waits_for};
ghost use Rattle.board.specs.Runs.{place};
ghost use Rattle.std.specs.List.{find};
ghost use Rattle.rating.specs.Ranked.{ranked};
ghost use Rattle.rating.specs.Ratings.{ranking_in};
ghost use Rattle.schedule.specs.Places.{names};

use super::{Run, Slot};
use rating::verdict::Phase;

// Whether a row waits for the resource of a phase.
// Stays: that the rules of a step match a place's cases is a form of the project; so a phase is told, and no closure.
fn waits(phase: Phase, place: Slot) -> bool
    ensures { result ≡ waits_for phase place }
{
    matches!(
        (phase, place),
        (Phase::Memory, Slot::Loading { .. }) | (Phase::Processor, Slot::Computing { .. })
    )
}

impl<A, B, P> Run<A, B, P> {
    // What the place of a row holds; there is nothing at a number without a place.
    fn slot(&self, k: u8) -> Slot
        ensures { result ≡ place self.now k }
    {
        self.places.get(k as usize).copied().unwrap_or(Slot::Empty)
    }

    // The second rule: the first row in a resource's order that waits for it.
    pub(super) fn served(&self, phase: Phase) -> Option<u8>
        ensures { result ≡ find (λ k. waits_for phase (place self.now k)) (ranked (ranking_in self.now.rating phase)) }
    {
        let order = self.rating.lent_ranking(phase).rows();
        order.iter().copied().find(|k| waits(phase, self.slot(*k)))
    }

    // The row that finishes in a step, if the processor serves it for the last time, with its response.
    pub(super) fn finishing(&self, row: Option<u8>) -> Option<(u8, u32)>
        ensures { result ≡ ends self.now.number self.now.places row }
    {
        let k = row?;
        match self.slot(k) {
            Slot::Computing { left: 1, since } => Some((
                k,
                (self.number + 1).saturating_sub(since),
            )),
            _ => None,
        }
    }
}

// A place that loses a step of a phase: loading with none left becomes computing, computing with none left is empty.
fn serve(phase: Phase, place: Slot) -> Slot
    ensures { result ≡ served_on phase place }
{
    match (phase, place) {
        (
            Phase::Memory,
            Slot::Loading {
                left: 1,
                compute,
                since,
            },
        ) => Slot::Computing {
            left: compute,
            since,
        },
        (
            Phase::Memory,
            Slot::Loading {
                left,
                compute,
                since,
            },
        ) => Slot::Loading {
            left: left.saturating_sub(1),
            compute,
            since,
        },
        (Phase::Processor, Slot::Computing { left: 1, .. }) => Slot::Empty,
        (Phase::Processor, Slot::Computing { left, since }) => Slot::Computing {
            left: left.saturating_sub(1),
            since,
        },
        _ => place,
    }
}

// The third rule on one resource: the row that has it, if any, loses a step.
pub(super) fn serve_row(phase: Phase, row: Option<u8>, places: &mut [Slot; 32])
    requires { IfSome row (λ k. k < 32) }
    ensures { (k : ℕ) → slot_at places.new k ≡ (if names row k then served_on phase (slot_at places.old k) else slot_at places.old k) }
{
    if let Some(k) = row {
        places[k as usize] = serve(phase, places[k as usize]);
    }
}
