ghost use Rattle.board.specs.Example.{book_a};
ghost use Rattle.rows.specs.Books.{first_rows, load_of};
ghost use Rattle.simulate.specs.Requests.{NamedAs, StepsIn};
ghost use Rattle.std.specs.Prelude.{◌≡◌, Ok};

use crate::stop::Stop;
use std::env;

// Book A, which is simulated if no book is named: the bytes of samples/book-a.book.
const SAMPLE: &[u8; 72] = b"\0\0\0\x09\0\0\0\x01\0\0\0\x14\0\0\0\x14\x01\x01\0\0TAGS\
    \0\0\0\x01\0\0\0\x09\0\0\0\x18\0\0\0\x18\0\0\0\0CENT\
    \0\0\0\x05\0\0\0\x05\0\0\0\x23\0\0\0\x23\x02\x02\0\0DARK";

// The greatest number of steps.
const MOST: u32 = 2_000_000_000;

// The number of steps where none is given.
const USUAL: u32 = 1_000;

// The sample book.
pub(crate) fn sample() -> &'static [u8; 72]
    ensures loads { load_of 0 result.now ≡ Ok tt }
    ensures rows { first_rows result.now 3 ≡ book_a }
{
    SAMPLE
}

// What the arguments ask for: the name of a book, or the sample; the name of a list, or clockwork; and the steps.
#[derive(Drop)]
pub(crate) struct Request {
    pub(crate) book: Option<String>,
    pub(crate) list: Option<String>,
    pub(crate) steps: u32,
}

impl Request {
    pub(crate) fn read(rt: &HostRuntime) -> Result<Request, Stop> {
        let mut args = env::args(rt)?;
        let _program = args.next();
        let book = args.next();
        let list = args.next();
        let steps = args.next();
        if args.next().is_some() {
            return Err(Stop::Usage);
        }
        let steps = match steps {
            Some(text) => steps_in(text.as_str()).ok_or(Stop::Steps(text))?,
            None => USUAL,
        };
        Ok(Request {
            book,
            list: named(list),
            steps,
        })
    }
}

// The name of a list, unless there is none or it is `-`.
fn named(list: Option<String>) -> Option<String>
    ensures { NamedAs list result }
{
    list.filter(|name| name.as_str() != "-")
}

// The number that a text writes in decimal digits, if it is at most 2,000,000,000. A plus sign before it, which `parse` would
// pass over, is no digit.
fn steps_in(text: &str) -> Option<u32>
    ensures { StepsIn text.now result }
{
    if text.starts_with('+') {
        return None;
    }
    text.parse::<u32>().ok().filter(|n| *n <= MOST)
}
