ghost use Rattle.arrivals.specs.Texts.{ShowsArrivals, counts_text, line_text, lines_text, word_text};
ghost use Rattle.arrivals.specs.Ranges.{InRange};
ghost use Rattle.std.specs.Prelude.{◌≡◌, ◌++◌, IfOk, string_bytes, OnOk};

use crate::takings::{Taking, gate_over, take_steps};
use lists::list::List;
use lists::records::check_list;
use lists::records::fault::CheckFault;
use rows::fault::Refusal;
use std::alloc::{AllocError, Global};

// The line of the list check.
fn put_word(text: &mut String, word: Result<usize, CheckFault>) -> Result<(), AllocError>
    ensures { OnOk result (string_bytes text.new ≡ string_bytes text.old ++ word_text word) }
{
    match word {
        Ok(count) => writeln!(text, "faultless {count}"),
        Err(fault) => {
            let refusal = Refusal::from(fault);
            writeln!(text, "{refusal}")
        }
    }
}

// The line of a taking: step, mark in two digits, memory and processor steps.
fn put_taking(text: &mut String, taking: Taking) -> Result<(), AllocError>
    ensures { OnOk result (string_bytes text.new ≡ string_bytes text.old ++ line_text taking) }
{
    let Taking {
        step,
        mark,
        memory,
        processor,
    } = taking;
    writeln!(text, "{step} {mark:02} {memory} {processor}")
}

fn put_takings(text: &mut String, takings: &[Taking]) -> Result<(), AllocError>
    ensures { OnOk result (string_bytes text.new ≡ string_bytes text.old ++ lines_text takings.now) }
{
    for taking in takings {
        put_taking(text, *taking)?;
    }
    Ok(())
}

// The last line: how many arrivals were taken, and how many records the list took in.
fn put_counts(text: &mut String, taken: usize, count: usize) -> Result<(), AllocError>
    ensures { OnOk result (string_bytes text.new ≡ string_bytes text.old ++ counts_text taken count) }
{
    writeln!(text, "taken {taken} of {count}")
}

// What is taken of a list through a gate of a distance, with the word of the list check before it.
pub(crate) fn list_arrivals(heap: Global, bytes: &[u8], distance: u32) -> anyhow::Result<String>
    requires { InRange distance }
    ensures { IfOk result (λ text. ShowsArrivals bytes.now distance (string_bytes text)) }
{
    let list = List::new(bytes);
    let count = list.count();
    let mut gate = gate_over(list, distance);
    let takings = take_steps(heap, &mut gate, count)?;
    let mut text = String::new(heap);
    put_word(&mut text, check_list(bytes))?;
    put_takings(&mut text, &takings)?;
    put_counts(&mut text, takings.len(), count)?;
    Ok(text)
}
