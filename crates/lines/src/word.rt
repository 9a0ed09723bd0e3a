ghost use Rattle.std.specs.Prelude.{◌≡◌, ◌≤◌, [], get_or, length};
ghost use Rattle.std.specs.List.{prefix_len};
ghost use Rattle.lines.specs.Words.{after_word, first_word, from_word, is_blank, is_solid, word_in, words};

// A space, a tab, or the carriage return that some systems put before a line's end.
fn is_blank(byte: u8) -> bool
    ensures { result ≡ is_blank byte }
{
    matches!(byte, b' ' | b'\t' | b'\r')
}

// How many bytes in front are blanks.
fn blanks(line: &[u8]) -> usize
    ensures value { result ≡ prefix_len is_blank line.now }
    ensures within { result ≤ length line.now }
{
    line.iter()
        .position(|byte| !is_blank(*byte))
        .unwrap_or(line.len())
}

// How many bytes in front are none.
fn solids(line: &[u8]) -> usize
    ensures value { result ≡ prefix_len is_solid line.now }
    ensures within { result ≤ length line.now }
{
    line.iter()
        .position(|byte| is_blank(*byte))
        .unwrap_or(line.len())
}

// The line from its first word on.
fn from_word(line: &[u8]) -> &[u8]
    ensures { result.now ≡ from_word line.now }
{
    &line[blanks(line)..]
}

// The first word of a line; it is empty if there is none.
fn first_word(line: &[u8]) -> &[u8]
    ensures { result.now ≡ first_word line.now }
{
    let rest = from_word(line);
    &rest[..solids(rest)]
}

// What stands behind the first word of a line.
fn after_word(line: &[u8]) -> &[u8]
    ensures { result.now ≡ after_word line.now }
{
    let rest = from_word(line);
    &rest[solids(rest)..]
}

// The word of a number, counted from 0; it is empty if the line has fewer. A split would make a piece of each blank,
// which costs twice as much where columns are padded.
pub fn word(line: &[u8], number: usize) -> &[u8]
    ensures value { result.now ≡ word_in line.now number }
    ensures pieces { result.now ≡ get_or (words line.now) number [] }
{
    let mut rest = line;
    for _passed in 0..number {
        rest = after_word(rest);
    }
    first_word(rest)
}
