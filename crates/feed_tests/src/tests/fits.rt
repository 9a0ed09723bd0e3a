use super::N;
use feeds::clockwork::Clockwork;
use feeds::feed::Feed;
use feeds::fit::fit;
use feeds::mark::Mark;
use feeds::pledge::Pledge;
use feeds::sheet::DataSheet;
use layers::cutoff::CutOff;
use layers::gate::Gate;
use lists::list::List;
use rating::order::ByDeadline;
use rating::rating::close;
use rows::draft::Draft;
use rows::row::{Label, Row};
use std::test::Fail;

fn task(memory: u32, compute: u32, deadline: u32, period: u32) -> Row {
    Row {
        memory,
        compute,
        deadline,
        period,
        label: Label::from(*b"TASK"),
        ..Row::default()
    }
}

// The first n of two rows: (1, 2, 10, 10) and (2, 3, 20, 20).
fn draft(n: u8) -> Result<Draft, Fail> {
    let mut draft = Draft::new();
    let rows = [task(1, 2, 10, 10), task(2, 3, 20, 20)];
    for row in rows.iter().take(n as usize) {
        draft.add(*row)?;
    }
    Ok(draft)
}

// What the fit check tells of a pledge and the first n rows: fault, row and letter, or zeros.
// Stays: a test keeps its values, among them 0 where there is nothing.
fn told<P: Pledge>(n: u8, pledge: &P) -> Result<(u8, u8, u8), Fail> {
    let rating = close(draft(n)?, ByDeadline, ByDeadline);
    match fit(&rating, pledge) {
        Ok(()) => Ok((0, 0, 0)),
        Err(misfit) => Ok((misfit.number(), misfit.row, misfit.letter)),
    }
}

// Distance and ceilings for the two rows; a figure that fails, and the first row that does.
#[test]
fn sheets(rt: HostRuntime) -> Result<(), Fail> {
    // distance, memory and processor for each row; fault, row, letter
    let cases = [
        ((10, 1, 2), (20, 2, 3), (0, 0, 0)),
        ((11, 0, 1), (N, 0, 1), (0, 0, 0)),
        ((9, 1, 2), (20, 2, 3), (62, 0, b'S')),
        ((10, 2, 2), (20, 2, 3), (62, 0, b'S')),
        ((10, 1, 3), (20, 2, 3), (62, 0, b'S')),
        ((10, 1, 2), (19, 2, 3), (62, 1, b'S')),
        ((10, 1, 2), (20, 3, 3), (62, 1, b'S')),
        ((10, 1, 2), (20, 2, 4), (62, 1, b'S')),
        ((9, 1, 2), (19, 2, 3), (62, 0, b'S')),
    ];
    for (first, second, wanted) in cases {
        let mut sheet = DataSheet::new();
        sheet.set(Mark::new(0)?, first.0, first.1, first.2)?;
        sheet.set(Mark::new(1)?, second.0, second.1, second.2)?;
        assert_eq!(rt; told(2, &sheet)?, wanted);
    }
    Ok(())
}

// Without rows everything fits. A list fits no row, and a clockwork that is not set fits every row.
#[test]
fn letters(rt: HostRuntime) -> Result<(), Fail> {
    let none = (0, 0, 0);
    // rows; what the check tells of a new sheet, clockwork and list
    let cases = [
        (0, none, none, none),
        (1, (62, 0, b'S'), none, (62, 0, b'L')),
        (2, (62, 0, b'S'), none, (62, 0, b'L')),
    ];
    for (n, sheet, clockwork, list) in cases {
        assert_eq!(rt; told(n, &DataSheet::new())?, sheet, "{}", n);
        assert_eq!(rt; told(n, &Clockwork::new())?, clockwork, "{}", n);
        assert_eq!(rt; told(n, &List::new(b""))?, list, "{}", n);
    }
    Ok(())
}

// Intervals of a clockwork with full costs; the first row whose period is longer.
#[test]
fn clockworks(rt: HostRuntime) -> Result<(), Fail> {
    // intervals; fault, row, letter
    let cases = [
        (10, 20, (0, 0, 0)),
        (11, 21, (0, 0, 0)),
        (10, 19, (62, 1, b'K')),
        (9, 20, (62, 0, b'K')),
        (9, 19, (62, 0, b'K')),
    ];
    for (first, second, wanted) in cases {
        let mut clockwork = Clockwork::new();
        clockwork.set(Mark::new(0)?, 0, first, 1, 2)?;
        clockwork.set(Mark::new(1)?, 5, second, 2, 3)?;
        assert_eq!(rt; told(2, &clockwork)?, wanted);
    }
    Ok(())
}

// A gate at the periods, but for the second, over a feed.
fn gated<F: Feed + Drop>(below: F, second: u32) -> Result<Gate<F>, Fail> {
    let mut gate = Gate::new(below);
    gate.set(Mark::new(0)?, 10)?;
    gate.set(Mark::new(1)?, second)?;
    Ok(gate)
}

// A cut-off at the costs, but for the second processor cost, over a feed.
fn cut<F: Feed + Drop>(below: F, processor: u32) -> Result<CutOff<F>, Fail> {
    let mut cut = CutOff::new(below);
    cut.set(Mark::new(0)?, 1, 2)?;
    cut.set(Mark::new(1)?, 2, processor)?;
    Ok(cut)
}

// A gate at the periods and a cut-off at the costs make any feed fit, whichever is on top; the letter is that of the top.
#[test]
fn piles(rt: HostRuntime) -> Result<(), Fail> {
    // the gate's distance and the cut-off's ceiling for the second row; what is told with the gate and with the cut-off on top
    let cases = [
        (20, 3, (0, 0, 0), (0, 0, 0)),
        (21, 1, (0, 0, 0), (0, 0, 0)),
        (19, 3, (62, 1, b'G'), (62, 1, b'C')),
        (20, 4, (62, 1, b'G'), (62, 1, b'C')),
    ];
    for (distance, processor, gate_on_top, cut_on_top) in cases {
        let gate_over_cut = gated(cut(List::new(b""), processor)?, distance)?;
        let cut_over_gate = cut(gated(List::new(b""), distance)?, processor)?;
        assert_eq!(rt; told(2, &gate_over_cut)?, gate_on_top);
        assert_eq!(rt; told(2, &cut_over_gate)?, cut_on_top);
    }
    assert_eq!(rt; told(2, &gated(List::new(b""), 20)?)?, (62, 0, b'G'));
    assert_eq!(rt; told(2, &cut(List::new(b""), 3)?)?, (62, 0, b'C'));
    Ok(())
}
