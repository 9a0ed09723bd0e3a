#![tactic(auto)]

use filter::convert::show_book;
use std::io;
use std::io::{Read, Write};
use std::process::ExitCode;

// What `book show` writes of a book, so that this direction is run and compared too.
fn show(rt: &HostRuntime) -> io::Result<()> {
    let mut book = Vec::new(rt.alloc());
    rt.stdin().take(65_520).read_to_end(&mut book)?;
    match show_book(rt.alloc(), &book) {
        Ok(table) => rt.stdout().write_all(&table),
        Err(_) => Ok(()),
    }
}

// Ends with status 1 if reading or writing fails, and says nothing of it.
fn main(rt: HostRuntime) -> ExitCode {
    match show(&rt) {
        Ok(()) => ExitCode::SUCCESS,
        Err(_) => ExitCode::FAILURE,
    }
}
