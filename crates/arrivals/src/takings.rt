ghost use Rattle.arrivals.specs.Ranges.{InRange};
ghost use Rattle.arrivals.specs.Takings.{GateOver, Journal, StepTaken, taking_of, takings_below};
ghost use Rattle.feeds.specs.Meanings.{Taken};
ghost use Rattle.std.specs.Prelude.{◌≡◌, ◌++◌, IfOk, None, OnOk};

use feeds::feed::Feed;
use feeds::mark::Mark;
use layers::gate::Gate;
use std::alloc::{AllocError, Global};

// After so many steps the program stops, whatever is left.
const STEPS: u32 = 1_000_000;

// An arrival that was taken: the step and the mark, and what it costs.
#[derive(Clone, Copy)]
pub(crate) struct Taking {
    pub(crate) step: u32,
    pub(crate) mark: u8,
    pub(crate) memory: u32,
    pub(crate) processor: u32,
}

// A gate over a feed that has the distance at every mark.
pub(crate) fn gate_over<F: Feed>(below: F, distance: u32) -> Gate<F>
    requires { InRange distance }
    ensures { GateOver below distance result }
{
    let mut gate = Gate::new(below);
    for k in Mark::all() {
        gate.set(k, distance).unwrap();
    }
    gate
}

// Takes what is offered at one mark, if anything is.
fn take_mark<F: Feed>(
    feed: &mut F,
    k: Mark,
    step: u32,
    takings: &mut Vec<Taking>,
) -> Result<(), AllocError>
    ensures listed { OnOk result (takings.new.items ≡ takings.old.items ++ taking_of step k.value ((F.Pledge.view feed.old).offer k.value)) }
    ensures taken { Taken (F.Pledge.view feed.old) k.value ((F.Pledge.view feed.old).offer k.value) (F.Pledge.view feed.new) }
    ensures idle { (F.Pledge.view feed.old).offer k.value ≡ None → feed.new ≡ feed.old }
{
    let Some((memory, processor)) = feed.take(k) else {
        return Ok(());
    };
    takings.push(Taking {
        step,
        mark: k.index() as u8,
        memory,
        processor,
    })?;
    Ok(())
}

// Takes whatever is offered in a step, marks from 0 upward.
fn take_step<F: Feed>(feed: &mut F, step: u32, takings: &mut Vec<Taking>) -> Result<(), AllocError>
    ensures listed { OnOk result (takings.new.items ≡ takings.old.items ++ takings_below step (F.Pledge.view feed.old).offer 32) }
    ensures taken { OnOk result (StepTaken (F.Pledge.view feed.old) (F.Pledge.view feed.new)) }
{
    for k in Mark::all() {
        take_mark(feed, k, step, takings)?;
    }
    Ok(())
}

// Takes whatever is offered, step by step from 0, until so many arrivals are taken or the last step is over.
pub(crate) fn take_steps<F: Feed>(
    heap: Global,
    feed: &mut F,
    wanted: usize,
) -> Result<Vec<Taking>, AllocError>
    ensures { IfOk result (λ takings. Journal wanted (F.Pledge.view feed.old) takings.items (F.Pledge.view feed.new)) }
{
    let mut takings = Vec::new(heap);
    for step in 0..STEPS {
        if takings.len() >= wanted {
            break;
        }
        take_step(feed, step, &mut takings)?;
        feed.advance();
    }
    Ok(takings)
}
