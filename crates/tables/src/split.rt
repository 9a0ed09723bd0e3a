ghost use Rattle.std.specs.Prelude.{◌≡◌};
ghost use Rattle.tables.specs.Texts.{line_in};

// The line of a number, counted from 0, without its end; it is empty if the text has fewer.
pub fn line(text: &[u8], number: usize) -> &[u8]
    ensures { result.now ≡ line_in text.now number }
{
    text.split(|byte| *byte == b'\n')
        .nth(number)
        .unwrap_or_default()
}
