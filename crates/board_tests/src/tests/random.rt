use dice::Dice;
use feeds::clockwork::Clockwork;
use feeds::feed::Feed;
use judge::Judge;
use limits::{Figure, limits};
use lists::list::List;
use piles::{arrivals, fewer, fitted, shut};
use rating::order::{ByDeadline, ByMemoryRank, ByPeriod, ByProcessorRank, Order};
use rating::rating::{Rating, close};
use rating::verdict::Verdict;
use rows::draft::Draft;
use rows::fault::EditFault;
use rows::row::{Label, Row};
use std::alloc::Global;
use std::process::Abort;
use std::test::*;

mod dice;
mod judge;
mod limits;
mod piles;

// A row with costs up to a ceiling, some slack below its deadline and some behind it.
fn row(dice: &mut Dice, cost: u32, slack: u32) -> Row {
    let memory = dice.below(cost);
    let compute = dice.below(cost).saturating_add(1);
    let least = memory.saturating_add(compute).saturating_add(slack);
    let deadline = least.saturating_add(dice.below(slack.saturating_add(1)));
    let period = deadline.saturating_add(dice.below(slack.saturating_add(1)));
    Row {
        memory,
        compute,
        deadline,
        period,
        memory_rank: dice.byte() % 16,
        processor_rank: dice.byte() % 16,
        label: Label::from(*b"TAGS"),
    }
}

// A draft of 1 to 32 rows. The slack of each grows with their number, so that about every second draft is accepted.
fn draft(dice: &mut Dice) -> Result<Draft, EditFault> {
    let count = dice.byte() % 32 + 1;
    let cost = dice.below(9).saturating_add(1);
    let slack = dice.below(6).saturating_mul(u32::from(count));
    let mut draft = Draft::new();
    for _ in 0..count {
        draft.add(row(dice, cost, slack))?;
    }
    Ok(draft)
}

// Every arrival is admitted in the step that it is offered in, no job is too old and no share too large, in runs over
// piles that fit an accepted rating. How many drafts are accepted, and the sum of their bounds, were computed apart from
// this repository's code, by trying every length.
#[test]
fn guarantee(rt: HostRuntime) -> Result<(), Fail> {
    let mut accepted: u32 = 0;
    let mut sum: u32 = 0;
    for seed in 0..400 {
        if let Some(bounds) = drawn(&rt, rt.alloc(), seed)? {
            accepted = accepted.saturating_add(1);
            sum = sum.saturating_add(bounds);
        }
    }
    assert_eq!(rt; (accepted, sum), (205, 122_993));
    Ok(())
}

// Draws a draft, and closes and runs it under two of the orders. The sum of its bounds, none if it is late.
fn drawn(rt: &impl Abort, heap: Global, seed: u32) -> Result<Option<u32>, Fail> {
    let mut dice = Dice::new(seed);
    let draft = draft(&mut dice)?;
    let trial = Trial {
        rt,
        heap,
        seed,
        dice,
    };
    let by_memory = (ByMemoryRank, Figure::MemoryRank);
    let by_processor = (ByProcessorRank, Figure::ProcessorRank);
    let by_deadline = (ByDeadline, Figure::Deadline);
    let by_period = (ByPeriod, Figure::Period);
    match seed % 4 {
        0 => trial.rated(draft, by_memory, by_processor),
        1 => trial.rated(draft, by_deadline, by_period),
        2 => trial.rated(draft, by_period, by_memory),
        _ => trial.rated(draft, by_processor, by_deadline),
    }
}

// What the runs of one draft share: who is told of a failure, the heap, the seed, and the dice after the draft was drawn.
#[derive(Drop)]
struct Trial<'a, R> {
    rt: &'a R,
    heap: Global,
    seed: u32,
    dice: Dice,
}

impl<R: Abort> Trial<'_, R> {
    // The sum of the bounds of a draft, none if it is late. An accepted one is run over each kind of pile.
    fn rated<A: Order + Drop, B: Order + Drop>(
        &self,
        draft: Draft,
        memory: (A, Figure),
        processor: (B, Figure),
    ) -> Result<Option<u32>, Fail> {
        let rating = close(draft, memory.0, processor.0);
        if rating.verdict() != Verdict::Accepted {
            assert_eq!(self.rt; bounds_of(&rating), 0, "seed {}", self.seed);
            return Ok(None);
        }
        let judge = Judge {
            rt: self.rt,
            heap: self.heap,
            seed: self.seed,
            limits: limits(&rating, (memory.1, processor.1))?,
        };
        let bounds = bounds_of(&rating);
        let rating = self.run(&judge, rating)?;
        let (rt, seed) = (self.rt, self.seed);
        assert_eq!(rt; bounds_of(&rating), bounds, "seed {seed}");
        Ok(Some(bounds))
    }

    // Runs a rating over each kind of pile.
    fn run<A: Drop, B: Drop>(
        &self,
        judge: &Judge<'_, R>,
        rating: Rating<A, B>,
    ) -> Result<Rating<A, B>, Fail> {
        let full = (
            Clockwork::at_full_cost(&rating),
            Clockwork::at_full_cost(&rating),
        );
        let rating = judge.watch(rating, full)?;
        let less = (fewer(&rating, self.dice)?, fewer(&rating, self.dice)?);
        let rating = judge.watch(rating, less)?;
        let bytes = arrivals(self.heap, &rating, self.dice)?;
        let lists = (List::new(&bytes), List::new(&bytes));
        let rating = layered(judge, rating, lists)?;
        // the same with a gate of other distances below them
        let gates = (
            shut(List::new(&bytes), self.dice)?,
            shut(List::new(&bytes), self.dice)?,
        );
        layered(judge, rating, gates)
    }
}

// Runs a rating over a feed under a cut-off and a gate, so that it fits.
fn layered<R: Abort, A: Drop, B: Drop, F: Feed + Drop>(
    judge: &Judge<'_, R>,
    rating: Rating<A, B>,
    feeds: (F, F),
) -> Result<Rating<A, B>, Fail> {
    let (feed, twin) = feeds;
    let piles = (fitted(feed, &rating)?, fitted(twin, &rating)?);
    judge.watch(rating, piles)
}

fn bounds_of<A, B>(rating: &Rating<A, B>) -> u32 {
    (0..32)
        .filter_map(|k| rating.bounds(k))
        .fold(0u32, |sum, (load, rest)| {
            sum.saturating_add(load).saturating_add(rest)
        })
}
