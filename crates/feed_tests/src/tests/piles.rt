use super::{N, list_of, promised, takes};
use feeds::feed::Feed;
use feeds::mark::Mark;
use feeds::pledge::Pledge;
use layers::cutoff::CutOff;
use layers::gate::Gate;
use lists::list::List;
use std::process::Abort;
use std::test::Fail;

// A gate of 5 over a cut-off at (4, 2) over a gate of 3, all set at mark 7 alone, is taken through step by step.
fn takes_through<F: Feed + Drop>(
    rt: &impl Abort,
    below: F,
    wanted: &[(u32, u8, u32, u32)],
) -> Result<(), Fail> {
    let k = Mark::new(7)?;
    let mut inner = Gate::new(below);
    inner.set(k, 3)?;
    let mut cut = CutOff::new(inner);
    cut.set(k, 4, 2)?;
    let mut pile = Gate::new(cut);
    pile.set(k, 5)?;
    assert_eq!(rt; promised(&pile, k), (5, 4, 2));
    assert_eq!(rt; promised(&pile, Mark::new(2)?), (1, N, N));
    takes(rt, 0, &mut pile, 16, wanted)
}

// At the mark that is set the outer gate decides the distance and the cut-off the costs; at the others the list does.
#[test]
fn three_deep(rt: HostRuntime) -> Result<(), Fail> {
    let bytes = list_of(
        rt.alloc(),
        &[
            (0, 9, 1, 7),
            (0, 3, 7, 7),
            (1, 8, 8, 2),
            (1, 6, 6, 2),
            (2, 0, 2, 7),
            (14, N, N, 7),
        ],
    )?;
    takes_through(
        &rt,
        List::new(&bytes),
        &[
            (0, 7, 4, 1),
            (1, 2, 8, 8),
            (2, 2, 6, 6),
            (5, 7, 3, 2),
            (10, 7, 0, 2),
            (15, 7, 4, 2),
        ],
    )
}

// Two gates over a feed with arrivals (1, 1) at step 3 and (2, 2) at step 4 of mark 0: the distance of both, and the steps of
// the two takings.
fn takes_twice<F: Feed + Drop>(
    rt: &impl Abort,
    feed: F,
    below: u32,
    above: u32,
    both: u32,
    second: u32,
) -> Result<(), Fail> {
    let k = Mark::new(0)?;
    let mut inner = Gate::new(feed);
    inner.set(k, below)?;
    let mut outer = Gate::new(inner);
    outer.set(k, above)?;
    assert_eq!(rt; outer.distance(k), both, "case {both}");
    takes(rt, both, &mut outer, 12, &[(3, 0, 1, 1), (second, 0, 2, 2)])
}

// The greater distance decides, whichever gate is on top.
#[test]
fn two_gates(rt: HostRuntime) -> Result<(), Fail> {
    let bytes = list_of(rt.alloc(), &[(3, 1, 1, 0), (4, 2, 2, 0)])?;
    // distances below and above; the distance of both, the step of the second taking
    let cases = [(5, 7, 7, 10), (7, 5, 7, 10), (5, 1, 5, 8), (1, 1, 1, 4)];
    for (below, above, both, second) in cases {
        takes_twice(&rt, List::new(&bytes), below, above, both, second)?;
    }
    Ok(())
}
