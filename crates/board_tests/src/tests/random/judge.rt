use super::limits::Limit;
use board::run::{Answer, Run, Slot};
use feeds::feed::Feed;
use feeds::fit::fit;
use feeds::mark::Mark;
use rating::rating::Rating;
use rating::verdict::Phase;
use std::alloc::Global;
use std::process::Abort;
use std::test::*;

// How many steps each run takes.
const STEPS: u32 = 1_000;

// Judges the runs of one rating by the limits of its rows, and names the seed that the rating was drawn from.
#[derive(Drop)]
pub(super) struct Judge<'a, R> {
    pub(super) rt: &'a R,
    pub(super) heap: Global,
    pub(super) seed: u32,
    pub(super) limits: [Limit; 32],
}

impl<R: Abort> Judge<'_, R> {
    // Runs a rating over a pile and judges each step by the four rules, where a second pile like it tells what is offered;
    // then judges the shares. Gives the rating back.
    pub(super) fn watch<A: Drop, B: Drop, P: Feed + Drop>(
        &self,
        rating: Rating<A, B>,
        piles: (P, P),
    ) -> Result<Rating<A, B>, Fail> {
        let (pile, mut twin) = piles;
        fit(&rating, &pile)?;
        let mut run = Run::begin(rating, pile);
        let mut answers = Vec::new(self.heap);
        for _ in 0..STEPS {
            answers.push(self.judged(&mut run, &mut twin)?)?;
        }
        self.shares(&answers)?;
        Ok(run.end())
    }

    // Takes a step, and compares its answer and what it leaves with the rules.
    fn judged<A, B, P: Feed>(&self, run: &mut Run<A, B, P>, twin: &mut P) -> Result<Answer, Fail> {
        let (rt, seed) = (self.rt, self.seed);
        let step = run.number();
        let places = self.entered(run, twin)?;
        let processor = chosen(Phase::Processor, &places, &self.limits);
        let wanted = Answer {
            step,
            memory: chosen(Phase::Memory, &places, &self.limits),
            processor,
            finished: ending(processor, &places, step),
        };
        let answer = run.step()?;
        assert_eq!(rt; answer, wanted, "seed {seed}");
        twin.advance();
        assert_eq!(rt; run.number(), step.saturating_add(1), "seed {seed}");
        self.in_time(&answer)?;
        self.left(run, &places, &answer)?;
        Ok(answer)
    }

    // The places after the first rule. An arrival that comes to a place that isn't empty fails.
    fn entered<A, B, P: Feed>(&self, run: &Run<A, B, P>, twin: &mut P) -> Result<[Slot; 32], Fail> {
        let (rt, seed) = (self.rt, self.seed);
        let mut places = [Slot::Empty; 32];
        for k in Mark::all() {
            if let Some(place) = run.place(k.index() as u8) {
                let offer = twin.look(k);
                places[k.index()] = arrived(seed, place, offer, run.number())?;
                assert_eq!(rt; twin.take(k), offer, "seed {seed}");
            }
        }
        Ok(places)
    }

    // No response is above the sum of the row's bounds.
    fn in_time(&self, answer: &Answer) -> Result<(), Fail> {
        let (rt, seed) = (self.rt, self.seed);
        if let Some((k, response)) = answer.finished {
            let limit = self.limits.get(k as usize).ok_or("no such row")?;
            assert!(rt; response <= limit.response, "seed {seed}: response");
        }
        Ok(())
    }

    // What a step leaves in the places, and that no job is too old.
    fn left<A, B, P: Feed>(
        &self,
        run: &Run<A, B, P>,
        places: &[Slot; 32],
        answer: &Answer,
    ) -> Result<(), Fail> {
        let (rt, seed) = (self.rt, self.seed);
        for ((k, held), limit) in (0..32u8).zip(places).zip(&self.limits) {
            if let Some(place) = run.place(k) {
                assert_eq!(rt; place, served(k, *held, answer), "seed {seed}: {k}");
                assert!(rt; is_young(place, run.number(), limit), "seed {seed}: {k}");
            }
        }
        Ok(())
    }

    // In windows of several lengths no row holds a resource more often than it may.
    fn shares(&self, answers: &[Answer]) -> Result<(), Fail> {
        for length in [1, 2, 3, 7, 20, 33, 64, 150, 400, 1_000] {
            self.share(Phase::Memory, length, answers)?;
            self.share(Phase::Processor, length, answers)?;
        }
        Ok(())
    }

    // Goes through the windows of one length: one step enters at the front and one leaves at the back.
    fn share(&self, phase: Phase, length: usize, answers: &[Answer]) -> Result<(), Fail> {
        let (rt, seed) = (self.rt, self.seed);
        let mut held = [0; 32];
        for (i, answer) in answers.iter().enumerate() {
            if let Some(gone) = i.checked_sub(length).and_then(|back| answers.get(back)) {
                leave(&mut held, holder(phase, gone));
            }
            if let Some(k) = holder(phase, answer) {
                let limit = self.limits.get(k as usize).ok_or("no such row")?;
                let steps = enter(&mut held, k);
                assert!(rt;
                    steps <= limit.share(phase, length),
                    "seed {seed}: {length}: {k}"
                );
            }
        }
        Ok(())
    }
}

fn arrived(seed: u32, place: Slot, offer: Option<(u32, u32)>, since: u32) -> Result<Slot, Fail> {
    match (place, offer) {
        (_, None) => Ok(place),
        (Slot::Empty, Some((0, left))) => Ok(Slot::Computing { left, since }),
        (Slot::Empty, Some((left, compute))) => Ok(Slot::Loading {
            left,
            compute,
            since,
        }),
        _ => Err(Fail::new(format_args!("seed {seed}: an arrival has to wait"))),
    }
}

// The row that waits for a resource with the least figure, of several the smallest number.
fn chosen(phase: Phase, places: &[Slot; 32], limits: &[Limit; 32]) -> Option<u8> {
    let (k, _) = (0..32u8)
        .zip(places)
        .zip(limits)
        .filter(|((_, place), _)| waits(phase, **place))
        .map(|((k, _), limit)| (k, limit.figure(phase)))
        .min_by_key(|(_, figure)| *figure)?;
    Some(k)
}

// Stays: the judge shares nothing with what it judges, not even `waits` and `holder`.
fn waits(phase: Phase, place: Slot) -> bool {
    match place {
        Slot::Empty => false,
        Slot::Loading { .. } => phase == Phase::Memory,
        Slot::Computing { .. } => phase == Phase::Processor,
    }
}

// The row that computes its last step, with its response.
fn ending(row: Option<u8>, places: &[Slot; 32], step: u32) -> Option<(u8, u32)> {
    let k = row?;
    match places.get(k as usize)? {
        Slot::Computing { left: 1, since } => {
            Some((k, step.saturating_add(1).saturating_sub(*since)))
        }
        _ => None,
    }
}

// What a step with this answer leaves in the place of row k.
fn served(k: u8, place: Slot, answer: &Answer) -> Slot {
    match place {
        Slot::Loading {
            left: 1,
            compute,
            since,
        } if answer.memory == Some(k) => Slot::Computing {
            left: compute,
            since,
        },
        Slot::Loading {
            left,
            compute,
            since,
        } if answer.memory == Some(k) => Slot::Loading {
            left: left.saturating_sub(1),
            compute,
            since,
        },
        Slot::Computing { left: 1, .. } if answer.processor == Some(k) => Slot::Empty,
        Slot::Computing { left, since } if answer.processor == Some(k) => Slot::Computing {
            left: left.saturating_sub(1),
            since,
        },
        _ => place,
    }
}

// A job that loads is younger than the bound of its loading, and every job younger than that of its response.
fn is_young(place: Slot, number: u32, limit: &Limit) -> bool {
    match place {
        Slot::Empty => true,
        Slot::Loading { since, .. } => {
            let age = number.saturating_sub(since);
            since <= number && age < limit.load && age < limit.response
        }
        Slot::Computing { since, .. } => {
            since <= number && number.saturating_sub(since) < limit.response
        }
    }
}

fn holder(phase: Phase, answer: &Answer) -> Option<u8> {
    match phase {
        Phase::Memory => answer.memory,
        Phase::Processor => answer.processor,
    }
}

// Counts a step of a row, and answers its new count.
fn enter(held: &mut [u64; 32], k: u8) -> u64 {
    let Some(steps) = held.get_mut(k as usize) else {
        return 0;
    };
    *steps = steps.saturating_add(1);
    *steps
}

// Takes a step back from the row that held the resource.
fn leave(held: &mut [u64; 32], row: Option<u8>) {
    if let Some(k) = row
        && let Some(steps) = held.get_mut(k as usize)
    {
        *steps = steps.saturating_sub(1);
    }
}
