use super::{N, promised};
use feeds::clockwork::Clockwork;
use feeds::fault::SettingFault;
use feeds::feed::Feed;
use feeds::mark::Mark;
use feeds::pledge::Pledge;
use feeds::sheet::DataSheet;
use layers::cutoff::CutOff;
use layers::gate::Gate;
use std::process::Abort;
use std::test::Fail;

// The number of a setting's fault, 0 for none.
// Stays: a test keeps its values, among them 0 where there is nothing.
fn told(res: Result<(), SettingFault>) -> u8 {
    res.err().map_or(0, |fault| fault.number())
}

// Only numbers up to 31 are marks.
#[test]
fn marks(rt: HostRuntime) {
    // number; fault, 0 for none
    let cases = [
        (0, 0),
        (1, 0),
        (31, 0),
        (32, 23),
        (33, 23),
        (128, 23),
        (255, 23),
    ];
    for (number, fault) in cases {
        match Mark::new(number) {
            Ok(k) => assert_eq!(rt; (k.index(), 0), (number as usize, fault), "{}", number),
            Err(refusal) => assert_eq!(rt; refusal.number(), fault, "{}", number),
        }
    }
}

// Whether a pledge promises this at a mark, and that at the marks beside it.
fn promises<P: Pledge>(
    rt: &impl Abort,
    case: u32,
    pledge: &P,
    here: (u32, u32, u32),
    others: (u32, u32, u32),
) -> Result<(), Fail> {
    assert_eq!(rt; promised(pledge, Mark::new(9)?), here, "case {case}");
    assert_eq!(rt; promised(pledge, Mark::new(8)?), others, "case {case}");
    assert_eq!(rt; promised(pledge, Mark::new(10)?), others, "case {case}");
    Ok(())
}

// A sheet that has (3, 4, 5) at mark 9.
#[test]
fn sheets(rt: HostRuntime) -> Result<(), Fail> {
    // distance, memory, processor; fault
    let cases = [
        ((1, 0, 1), 0),
        ((N, N, N), 0),
        ((0, 0, 1), 51),
        ((N + 1, 0, 1), 51),
        ((u32::MAX, 0, 1), 51),
        ((1, N + 1, 1), 52),
        ((1, u32::MAX, 1), 52),
        ((1, 0, 0), 53),
        ((1, 0, N + 1), 53),
        ((1, 0, u32::MAX), 53),
        ((0, N + 1, 0), 51),
        ((1, N + 1, 0), 52),
    ];
    for (figures, fault) in cases {
        let mut sheet = DataSheet::new();
        sheet.set(Mark::new(9)?, 3, 4, 5)?;
        let (distance, memory, processor) = figures;
        assert_eq!(rt;
            told(sheet.set(Mark::new(9)?, distance, memory, processor)),
            fault,
            "{}",
            distance
        );
        let after = if fault == 0 { figures } else { (3, 4, 5) };
        promises(&rt, distance, &sheet, after, (1, N, N))?;
    }
    Ok(())
}

// A clockwork that has a job of (4, 5) at mark 9 now, and then at each third step.
#[test]
fn clockworks(rt: HostRuntime) -> Result<(), Fail> {
    // offset, interval, memory, processor; fault
    let cases = [
        (0, (1, 0, 1), 0),
        (1, (N, N, N), 0),
        (N, (1, 0, 1), 0),
        (N + 1, (1, 0, 1), 54),
        (u32::MAX, (1, 0, 1), 54),
        (0, (0, 0, 1), 51),
        (0, (N + 1, 0, 1), 51),
        (0, (u32::MAX, 0, 1), 51),
        (0, (1, N + 1, 1), 52),
        (0, (1, u32::MAX, 1), 52),
        (0, (1, 0, 0), 53),
        (0, (1, 0, N + 1), 53),
        (0, (1, 0, u32::MAX), 53),
        (N + 1, (0, N + 1, 0), 54),
        (N, (0, N + 1, 0), 51),
        (N, (1, N + 1, 0), 52),
    ];
    for (offset, figures, fault) in cases {
        let mut clockwork = Clockwork::new();
        clockwork.set(Mark::new(9)?, 0, 3, 4, 5)?;
        let (interval, memory, processor) = figures;
        let answer = clockwork.set(Mark::new(9)?, offset, interval, memory, processor);
        assert_eq!(rt; told(answer), fault, "{}", offset);
        let after = if fault == 0 { figures } else { (3, 4, 5) };
        promises(&rt, offset, &clockwork, after, (N, 0, 1))?;
        let offer = if offset > 0 && fault == 0 {
            None
        } else {
            Some((after.1, after.2))
        };
        assert_eq!(rt; clockwork.look(Mark::new(9)?), offer, "{}", offset);
        assert_eq!(rt; clockwork.look(Mark::new(8)?), None, "{}", offset);
    }
    Ok(())
}

// A clockwork that offers (6, 7) at mark 9 whenever it does not rest, in steps of 1.
fn steady() -> Result<Clockwork, Fail> {
    let mut clockwork = Clockwork::new();
    clockwork.set(Mark::new(9)?, 0, 1, 6, 7)?;
    Ok(clockwork)
}

// A gate of distance 3 at mark 9, over a steady feed.
#[test]
fn gates(rt: HostRuntime) -> Result<(), Fail> {
    // distance; fault
    let cases = [(1, 0), (2, 0), (N, 0), (0, 51), (N + 1, 51), (u32::MAX, 51)];
    for (distance, fault) in cases {
        let mut gate = Gate::new(steady()?);
        gate.set(Mark::new(9)?, 3)?;
        assert_eq!(rt;
            told(gate.set(Mark::new(9)?, distance)),
            fault,
            "{}",
            distance
        );
        let after = if fault == 0 { distance } else { 3 };
        promises(&rt, distance, &gate, (after, 6, 7), (N, 0, 1))?;
        assert_eq!(rt; gate.look(Mark::new(9)?), Some((6, 7)), "{}", distance);
    }
    Ok(())
}

// A cut-off at (3, 2) at mark 9, over a steady feed.
#[test]
fn cut_offs(rt: HostRuntime) -> Result<(), Fail> {
    // memory, processor; fault
    let cases = [
        ((0, 1), 0),
        ((5, 6), 0),
        ((N, N), 0),
        ((N + 1, 1), 52),
        ((u32::MAX, 1), 52),
        ((0, 0), 53),
        ((0, N + 1), 53),
        ((0, u32::MAX), 53),
        ((N + 1, 0), 52),
    ];
    for (ceilings, fault) in cases {
        let mut cut = CutOff::new(steady()?);
        cut.set(Mark::new(9)?, 3, 2)?;
        let (memory, processor) = ceilings;
        assert_eq!(rt;
            told(cut.set(Mark::new(9)?, memory, processor)),
            fault,
            "{}",
            memory
        );
        let (m, c) = if fault == 0 { ceilings } else { (3, 2) };
        promises(&rt, memory, &cut, (1, m.min(6), c.min(7)), (N, 0, 1))?;
        assert_eq!(rt;
            cut.look(Mark::new(9)?),
            Some((m.min(6), c.min(7))),
            "{}",
            memory
        );
    }
    Ok(())
}

// Setting a gate's distance leaves its rest: it stays shut for the distance it was taken at.
#[test]
fn gate_keeps_rest(rt: HostRuntime) -> Result<(), Fail> {
    let k = Mark::new(9)?;
    let mut gate = Gate::new(steady()?);
    gate.set(k, 2)?;
    assert_eq!(rt; gate.take(k), Some((6, 7)));
    gate.set(k, 5)?;
    // the offer in each step after the taking: the next taking comes after 2 steps, the one after that 5 steps later
    let offers = [None, Some((6, 7)), None, None, None, None, Some((6, 7))];
    for offer in offers {
        gate.advance();
        assert_eq!(rt; gate.take(k), offer);
    }
    Ok(())
}
