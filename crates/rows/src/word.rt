ghost use Rattle.rows.specs.Books.{word_at};
ghost use Rattle.std.specs.Prelude.{◌≡◌, slice_index};

// The byte at a place, or 0 behind the end.
// Stays: bytes and a place are what is read by; a struct of both would be made for one call.
fn byte_at(bytes: &[u8], at: usize) -> u8
    ensures { result ≡ slice_index bytes.now at }
{
    bytes.get(at).copied().unwrap_or(0)
}

// The big-endian number of four bytes that reach past the end. No slice is so long that a place in it would saturate.
fn last_word(bytes: &[u8], at: usize) -> u32
    ensures { result ≡ word_at bytes.now at }
{
    u32::from_be_bytes([
        byte_at(bytes, at),
        byte_at(bytes, at.saturating_add(1)),
        byte_at(bytes, at.saturating_add(2)),
        byte_at(bytes, at.saturating_add(3)),
    ])
}

// The big-endian number of the four bytes from a place on, where those behind the end count as 0. One test finds
// whether all four are there, since files of many records are read by this.
pub fn word_at(bytes: &[u8], at: usize) -> u32
    ensures { result ≡ word_at bytes.now at }
{
    match bytes.get(at..).and_then(|rest| rest.first_chunk::<4>()) {
        Some(word) => u32::from_be_bytes(*word),
        None => last_word(bytes, at),
    }
}
