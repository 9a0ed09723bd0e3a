#![tactic(auto)]

use run::{Failed, make, show};
use std::process::ExitCode;
use std::{env, io};

mod run;

// What the program is asked to do.
#[derive(Drop)]
enum Command {
    Make,
    Show,
}

// The command that the only argument names.
fn asked(rt: &HostRuntime) -> io::Result<Option<Command>> {
    let mut args = env::args(rt)?;
    let _program = args.next();
    let Some(word) = args.next() else {
        return Ok(None);
    };
    if args.next().is_some() {
        return Ok(None);
    }
    match word.as_str() {
        "make" => Ok(Some(Command::Make)),
        "show" => Ok(Some(Command::Show)),
        _ => Ok(None),
    }
}

// A filter between a text table and a book: `book make` reads the one and writes the other, `book show` the reverse.
fn work(rt: &HostRuntime) -> Result<(), Failed> {
    match asked(rt)? {
        Some(Command::Make) => make(rt),
        Some(Command::Show) => show(rt),
        None => {
            eprintln!(rt; "usage: book make < TABLE > BOOK, or book show < BOOK > TABLE")?;
            Err(Failed)
        }
    }
}

// Ends with status 1 where the filter stopped, of which it has told all that it could: no word more.
fn main(rt: HostRuntime) -> ExitCode {
    match work(&rt) {
        Ok(()) => ExitCode::SUCCESS,
        Err(_) => ExitCode::FAILURE,
    }
}
