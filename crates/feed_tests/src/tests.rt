use feeds::feed::Feed;
use feeds::mark::Mark;
use feeds::pledge::Pledge;
use std::alloc::{AllocError, Global};
use std::process::Abort;
use std::slice::Iter;
use std::test::Fail;

mod fits;
mod list_files;
mod piles;
mod settings;

const N: u32 = 1_000_000;

// A record of a list.
fn record(step: u32, memory: u32, processor: u32, row: u8) -> [u8; 16] {
    let s = step.to_be_bytes();
    let m = memory.to_be_bytes();
    let c = processor.to_be_bytes();
    [
        s[0], s[1], s[2], s[3], m[0], m[1], m[2], m[3], c[0], c[1], c[2], c[3], row, 0, 0, 0,
    ]
}

// The bytes of a list of such records.
fn list_of(heap: Global, records: &[(u32, u32, u32, u8)]) -> Result<Vec<u8>, AllocError> {
    let mut bytes = Vec::new(heap);
    for (step, memory, processor, row) in records {
        bytes.extend_from_slice(&record(*step, *memory, *processor, *row))?;
    }
    Ok(bytes)
}

// Takes whatever is offered, step by step and marks from 0 upward, and compares it with what is wanted: step, mark, m and c.
// The case is named if they differ.
// Stays: a struct of the handle and a case's number would be made anew for each case.
fn takes<F: Feed>(
    rt: &impl Abort,
    case: u32,
    feed: &mut F,
    steps: u32,
    wanted: &[(u32, u8, u32, u32)],
) -> Result<(), Fail> {
    let mut left = wanted.iter();
    for step in 0..steps {
        takes_step(rt, case, feed, step, &mut left)?;
        feed.advance();
    }
    assert_eq!(rt; left.next().copied(), None, "case {case}");
    Ok(())
}

// The same in one step, against what is left of what is wanted.
fn takes_step<F: Feed>(
    rt: &impl Abort,
    case: u32,
    feed: &mut F,
    step: u32,
    left: &mut Iter<'_, (u32, u8, u32, u32)>,
) -> Result<(), Fail> {
    for k in Mark::all() {
        let offer = feed.look(k);
        assert_eq!(rt; feed.take(k), offer, "case {case}");
        if let Some((memory, processor)) = offer {
            let taking = (step, k.index() as u8, memory, processor);
            assert_eq!(rt; left.next().copied(), Some(taking), "case {case}");
        }
    }
    Ok(())
}

// What a pledge promises at a mark.
fn promised<P: Pledge>(pledge: &P, k: Mark) -> (u32, u32, u32) {
    (
        pledge.distance(k),
        pledge.memory_ceiling(k),
        pledge.processor_ceiling(k),
    )
}
