use filter::convert::{make_book, show_book};
use filter::fault::ConvertFault;
use lines::fault::BadWord;
use lines::word::word;
use rows::fault::{EditFault, LoadFault, Refusal};
use std::io;
use std::io::{Read, Write};
use tables::fault::{BadLine, LineFault};
use tables::split::line;

// The filter has told why it stops, or could not even do that.
#[derive(Drop)]
pub(crate) struct Failed;

impl From<io::Error> for Failed {
    fn from(_value: io::Error) -> Failed {
        Failed
    }
}

// Reads a table on standard input, at most 65,520 bytes, and writes its book to standard output.
pub(crate) fn make(rt: &HostRuntime) -> Result<(), Failed> {
    let text = input(rt, 65_521)?;
    if text.len() > 65_520 {
        eprintln!(rt; "the table has more than 65520 bytes")?;
        return Err(Failed);
    }
    let book = make_book(rt.alloc(), &text);
    output(rt, book, |bad| tell_line(rt, &text, bad))
}

// Reads a book on standard input, at most 65,520 bytes of it, and writes its table to standard output.
pub(crate) fn show(rt: &HostRuntime) -> Result<(), Failed> {
    let book = input(rt, 65_520)?;
    let table = show_book(rt.alloc(), &book);
    output(rt, table, |fault| tell_fault(rt, fault))
}

// What stands on standard input, or so many bytes of it.
fn input(rt: &HostRuntime, limit: u64) -> io::Result<Vec<u8>> {
    let mut bytes = Vec::new(rt.alloc());
    rt.stdin().take(limit).read_to_end(&mut bytes)?;
    Ok(bytes)
}

// Writes what a file was converted to, or tells why it was not.
fn output<F, T: FnOnce(F) -> io::Result<()>>(
    rt: &HostRuntime,
    converted: Result<Vec<u8>, ConvertFault<F>>,
    tell: T,
) -> Result<(), Failed>
    requires { T.IsAlwaysCallable tell }
{
    match converted {
        Ok(bytes) => {
            rt.stdout().write_all(&bytes)?;
            return Ok(());
        }
        Err(ConvertFault::Input(fault)) => tell(fault)?,
        Err(ConvertFault::Memory) => eprintln!(rt; "not enough memory")?,
    }
    Err(Failed)
}

// Tells what is wrong with a line: its number, the word and the reason.
fn tell_line(rt: &HostRuntime, text: &[u8], bad: BadLine) -> io::Result<()> {
    let number = bad.line;
    let line = line(text, number.saturating_sub(1));
    eprint!(rt; "line {number}, ")?;
    match bad.fault {
        LineFault::Word(bad) => tell_word(rt, line, bad),
        LineFault::Edit(fault) => tell_edit(rt, line, fault),
    }
}

fn tell_word(rt: &HostRuntime, line: &[u8], bad: BadWord) -> io::Result<()> {
    let number = bad.word.saturating_add(1);
    let reason = bad.reason;
    eprint!(rt; "word {number}")?;
    let word = word(line, bad.word);
    if !word.is_empty() {
        eprint!(rt; ", ")?;
        rt.stderr().write_all(word)?;
    }
    eprintln!(rt; ": {reason}")
}

fn tell_edit(rt: &HostRuntime, line: &[u8], fault: EditFault) -> io::Result<()> {
    let number = fault.number();
    rt.stderr().write_all(word(line, 0))?;
    eprintln!(rt; ": turned down {number}")
}

// Tells why a book is turned down, as a listing does.
fn tell_fault(rt: &HostRuntime, fault: LoadFault) -> io::Result<()> {
    let refusal = Refusal::from(fault);
    eprintln!(rt; "{refusal}")
}
