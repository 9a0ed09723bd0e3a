ghost use Rattle.lines.specs.Fields.{end_of, label_of, number_of, rank_of};
ghost use Rattle.std.specs.Str.{all_ascii_digits};
ghost use Rattle.std.specs.Prelude.{◌≡◌};

use crate::fault::Reason;
use rows::row::Label;

fn all_digits(word: &[u8]) -> bool
    ensures { result ≡ all_ascii_digits word.now }
{
    word.iter().all(u8::is_ascii_digit)
}

// The number that a word writes: decimal digits and nothing else, though the library reads a sign too.
pub(crate) fn number(word: &[u8]) -> Result<u32, Reason>
    ensures { result ≡ number_of word.now }
{
    if word.is_empty() {
        return Err(Reason::Missing);
    }
    if !all_digits(word) {
        return Err(Reason::NotANumber);
    }
    let Ok(digits) = str::from_utf8(word) else {
        return Err(Reason::NotANumber);
    };
    digits.parse().map_err(|_| Reason::TooLarge)
}

// The rank that a word writes.
pub(crate) fn rank(word: &[u8]) -> Result<u8, Reason>
    ensures { result ≡ rank_of word.now }
{
    u8::try_from(number(word)?).map_err(|_| Reason::RankAbove)
}

// The label that a word is.
pub(crate) fn label(word: &[u8]) -> Result<Label, Reason>
    ensures { result ≡ label_of word.now }
{
    if word.is_empty() {
        return Err(Reason::Missing);
    }
    let bytes = <[u8; 4]>::try_from(word).map_err(|_| Reason::NotALabel)?;
    let label = Label::from(bytes);
    if label.is_printable() {
        Ok(label)
    } else {
        Err(Reason::NotALabel)
    }
}

// Whether there is no word.
pub(crate) fn end(word: &[u8]) -> Result<(), Reason>
    ensures { result ≡ end_of word.now }
{
    if word.is_empty() {
        Ok(())
    } else {
        Err(Reason::Extra)
    }
}
