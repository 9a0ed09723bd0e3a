#![tactic(auto)]

ghost use Rattle.simulate.specs.Counts.{KeepsBounds, Simulated};
ghost use Rattle.std.specs.Prelude.{◌≤◌, IfOk, OnOk};

use crate::beginning::begin;
use crate::pile::clockwork;
use crate::request::{Request, sample};
use crate::stepping::Simulation;
use crate::stop::Stop;
use crate::table::Report;
use feeds::feed::Feed;
use feeds::pledge::Pledge;
use listing::fault::ListingFault;
use listing::listing::{list_fault, list_rating};
use lists::list::List;
use lists::records::check_list;
use rows::draft::Draft;
use rows::fault::Refusal;
use std::fs::File;
use std::io::{Read, Write};
use std::process::ExitCode;
use std::{fs, io};

mod beginning;
mod column;
mod journal;
mod pile;
mod request;
mod stepping;
mod stop;
mod table;
mod tally;
mod text;
mod timeline;

// At most this much of a book is read.
const BOOK_BYTES: u64 = 65_520;

// A run of more steps tells on standard error how far it is.
const LONG: u32 = 1_000_000;

// Tells on standard error why it ends, if it fails, and ends with status 1 then.
fn main(rt: HostRuntime) -> ExitCode {
    match work(&rt) {
        Ok(()) => ExitCode::SUCCESS,
        Err(stop) => {
            let _ = eprint!(rt; "{stop}");
            ExitCode::FAILURE
        }
    }
}

// Reads what the arguments name, and simulates it.
fn work(rt: &HostRuntime) -> Result<(), Stop> {
    let Request { book, list, steps } = Request::read(rt)?;
    let book = read_book(rt, book)?;
    let mut draft = Draft::new();
    if let Err(fault) = draft.load(&book) {
        print_listing(rt, |out| list_fault(&fault, out))?;
        return Err(Stop::TurnedDown);
    }
    match list {
        Some(name) => {
            let bytes = read_list(rt, name)?;
            show(rt, draft, List::new(&bytes), steps)
        }
        None => {
            let (draft, clock) = clockwork(draft);
            show(rt, draft, clock, steps)
        }
    }
}

// The bytes of the book that is asked for, or of the sample.
fn read_book(rt: &HostRuntime, book: Option<String>) -> Result<Vec<u8>, Stop> {
    let mut bytes = Vec::new(rt.alloc());
    let Some(name) = book else {
        bytes.extend_from_slice(sample())?;
        return Ok(bytes);
    };
    take_in(rt, name.as_str(), &mut bytes).map_err(|error| Stop::Unreadable(name, error))?;
    Ok(bytes)
}

// The first bytes of a file.
fn take_in(rt: &HostRuntime, name: &str, bytes: &mut Vec<u8>) -> io::Result<()> {
    File::open(rt, name)?.take(BOOK_BYTES).read_to_end(bytes)?;
    Ok(())
}

// The bytes of a list. If it has a fault, that is told, and the records before the fault will be used.
fn read_list(rt: &HostRuntime, name: String) -> Result<Vec<u8>, Stop> {
    let bytes = match fs::read(rt, name.as_str()) {
        Ok(bytes) => bytes,
        Err(error) => return Err(Stop::Unreadable(name, error)),
    };
    if let Err(fault) = check_list(&bytes) {
        let refusal = Refusal::from(fault);
        eprintln!(rt;
            "simulate: {name}: {refusal}; the records before the first faulty one are used"
        )?;
    }
    Ok(bytes)
}

// Runs a draft over a feed, and prints the listing and what the run showed.
fn show<F: Feed + Drop>(rt: &HostRuntime, draft: Draft, below: F, steps: u32) -> Result<(), Stop> {
    let mut simulation = Simulation::new(begin(draft, below));
    print_listing(rt, |out| list_rating(simulation.run.rating(), out))?;
    if steps > LONG {
        advance_long(rt, &mut simulation, steps)?;
    } else {
        simulation.advance(steps);
    }
    let report = Report {
        rating: simulation.run.rating(),
        journal: &simulation.journal,
    };
    let text = report.text(rt.alloc())?;
    rt.stdout().write_all(text.as_bytes())?;
    Ok(())
}

// Steps a run so many times, and tells after each tenth of them how far it is.
fn advance_long<A, B, P: Feed>(
    rt: &HostRuntime,
    simulation: &mut Simulation<A, B, P>,
    steps: u32,
) -> io::Result<()>
    ensures done { OnOk result (Simulated P.Pledge.view steps simulation.old.run simulation.old.journal simulation.new.run simulation.new.journal) }
    ensures kept { OnOk result (KeepsBounds P.Pledge.view simulation.old.run simulation.old.journal simulation.new.journal) }
{
    simulation.advance(steps % 10);
    for tenth in 1..11u8 {
        simulation.advance(steps / 10);
        eprintln!(rt; "simulate: {tenth}0 %")?;
    }
    Ok(())
}

// Prints what a listing puts into its buffer.
fn print_listing<F: FnOnce(&mut [u8]) -> Result<usize, ListingFault>>(
    rt: &HostRuntime,
    list: F,
) -> io::Result<()>
    requires callable { F.IsAlwaysCallable list }
    requires short { (x : _) (r : _) (y : _) → F.post list x r y → IfOk r (λ n. n ≤ 1292) }
{
    let mut out = [0; 1292];
    match list(&mut out) {
        Ok(n) => rt.stdout().write_all(&out[..n]),
        Err(_) => Ok(()),
    }
}
