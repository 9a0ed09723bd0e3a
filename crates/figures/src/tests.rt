use rows::draft::Draft;
use rows::fault::EditFault;
use rows::row::{Label, Row};

mod books;
mod drafts;
mod listings;
mod single;

// A row with both ranks 0.
// Stays: one for this crate, feed_tests and board_tests would be a public function of one more crate, with a contract.
fn task(memory: u32, compute: u32, deadline: u32, period: u32, label: Label) -> Row {
    Row {
        memory,
        compute,
        deadline,
        period,
        label,
        ..Row::default()
    }
}

// A label that shows but for one byte, which may be any.
fn label_with(place: u8, byte: u8) -> Label {
    let mut bytes = *b"TAGS";
    if let Some(spot) = bytes.get_mut(place as usize) {
        *spot = byte;
    }
    Label::from(bytes)
}

// A valid row for each i up to 98, and no two of them are the same.
fn nth(i: u8) -> Row {
    task(u32::from(i), 1, 99, 99, label_with(0, b'T'))
}

// A row whose costs are above its deadline, so that its fault is 14.
fn too_costly() -> Row {
    task(99, 1, 99, 99, label_with(0, b'T'))
}

// The number of a row's or a draft's fault, 0 for none.
// Stays: a test keeps its values, among them 0 where there is nothing.
fn fault_of<T: Drop, F: Drop>(res: Result<T, F>) -> u8
where
    EditFault: From<F>,
{
    res.err().map_or(0, |fault| EditFault::from(fault).number())
}

// A draft of the first n rows.
fn filled(n: u8) -> Result<Draft, EditFault> {
    let mut draft = Draft::new();
    for row in (0..n).map(nth) {
        draft.add(row)?;
    }
    Ok(draft)
}
