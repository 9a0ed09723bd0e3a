ghost use Rattle.board.specs.Example.{DraftMade, Gone, PremisesMet, task_of};
ghost use Rattle.board.specs.Runs.{New};
ghost use Rattle.std.specs.Prelude.{◌≡◌};

use crate::run::Run;
use feeds::clockwork::Clockwork;
use feeds::feed::Feed;
use feeds::pledge::Pledge;
use rating::order::{ByMemoryRank, ByProcessorRank};
use rating::rating::close;
use rows::draft::Draft;
use rows::fault::EditFault;
use rows::row::{Label, Row};

// Book A under the two rank orders, after so many steps over its clockwork at full cost. Its rating is accepted and the
// clockwork fits it, so the guarantee speaks of this run. It never refuses.
pub fn book_a_run(steps: u32) -> Result<Run<ByMemoryRank, ByProcessorRank, Clockwork>, EditFault>
    ensures { PremisesMet steps result }
{
    let rating = close(book_a_draft()?, ByMemoryRank, ByProcessorRank);
    let clock = Clockwork::at_full_cost(&rating);
    let mut run = Run::begin(rating, clock);
    go(&mut run, steps);
    Ok(run)
}

// Steps a run so many times; at the last step number it stays as it is.
fn go<A, B, P: Feed>(run: &mut Run<A, B, P>, steps: u32)
    requires { New run.old }
    ensures { Gone P.Pledge.view run.old steps run.new }
{
    for _step in 0..steps {
        let _ = run.step();
    }
}

// The rows of Book A.
fn book_a_draft() -> Result<Draft, EditFault>
    ensures { DraftMade result }
{
    let mut draft = Draft::new();
    draft.add(task(Label::from(*b"TAGS"), 9, 1, 20, 1))?;
    draft.add(task(Label::from(*b"CENT"), 1, 9, 24, 0))?;
    draft.add(task(Label::from(*b"DARK"), 5, 5, 35, 2))?;
    Ok(draft)
}

// A row whose deadline is its period, with one rank for both resources.
fn task(label: Label, memory: u32, compute: u32, period: u32, rank: u8) -> Row
    ensures { result ≡ task_of label memory compute period rank }
{
    Row {
        memory,
        compute,
        deadline: period,
        period,
        memory_rank: rank,
        processor_rank: rank,
        label,
    }
}
