//! The lines of a text.
ghost use Rattle.std.specs.Prelude.{◌≡◌, ◌∷◌};
ghost use Rattle.iloc_text.specs.Lines.{line_end, lines_of, lines_left};

use memchr::memchr;

/// The place of the first line end.
fn line_end(text: &[u8]) -> Option<usize>
    ensures { result ≡ line_end text.now }
{
    memchr(b'\n', text)
}

/// Promise: the first line of a text, and what follows its line end, if it has one.
#[inline(always)]
pub fn split_line(text: &[u8]) -> (&[u8], Option<&[u8]>)
    ensures { lines_of text.now ≡ result.0.now ∷ lines_left result.1 }
{
    match line_end(text) {
        Some(end) => (&text[..end], Some(&text[end + 1..])),
        None => (text, None),
    }
}
