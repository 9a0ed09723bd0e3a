ghost use Rattle.std.specs.Prelude.{◌≡◌, ◌<◌, true, ◌∷◌, ◌++◌, length, codes, string_bytes, decimal, OnOk};
ghost use Rattle.listing.specs.Text.{two_digits};
ghost use Rattle.rows.specs.Rows.{is_labelled, label_bytes};
ghost use Rattle.simulate.specs.Tables.{at_right, word_of};

use rows::row::Label;
use std::alloc::AllocError;

// Puts a row's number, which has two digits, two spaces and the row's label.
pub(crate) fn put_row_head(text: &mut String, k: u8, label: Label) -> Result<(), AllocError>
    requires { (k < 100) × (is_labelled label ≡ true) }
    ensures { OnOk result (string_bytes text.new ≡ string_bytes text.old ++ (two_digits k ++ (codes "  " ++ label_bytes label))) }
{
    write!(text, "{k:02}  {label}")
}

// Puts a figure, or a dash for none, at the right of a field, with a space before it.
pub(crate) fn put_figure(
    text: &mut String,
    figure: Option<u32>,
    width: usize,
) -> Result<(), AllocError>
    ensures { OnOk result (string_bytes text.new ≡ string_bytes text.old ++ (32 ∷ at_right width (word_of figure))) }
{
    match figure {
        Some(n) => write!(text, " {n:>width$}"),
        None => write!(text, " {:>width$}", "-"),
    }
}

// How many bytes the word of a figure has.
pub(crate) fn word_width(figure: Option<u32>) -> usize
    ensures { result ≡ length (word_of figure) }
{
    figure.map_or(1, digits)
}

// How many digits a number has in decimal.
fn digits(n: u32) -> usize
    ensures { result ≡ length (decimal n) }
{
    match n.checked_ilog10() {
        Some(tens) => tens as usize + 1,
        None => 1,
    }
}
