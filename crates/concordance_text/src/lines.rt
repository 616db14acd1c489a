//! The lines of a text.

ghost use Rattle.std.specs.Prelude.{◌+◌, ◌<◌, ◌≤◌, length};
ghost use Rattle.concordance_text.specs.Lines.{BeginsWithLine};

/// The first line of a text, without its end, and what comes behind it.
pub fn first_line(text: &[u8]) -> (&[u8], &[u8])
    requires some { 0 < length text.now }
    ensures line { BeginsWithLine text.now result.0.now result.1.now }
    ensures bytes { length result.0.now + length result.1.now ≤ length text.now }
    ensures behind { length result.1.now < length text.now }
{
    let end = text
        .iter()
        .position(|byte| *byte == b'\n')
        .unwrap_or(text.len());
    match text.split_at(end) {
        (line, [_, behind @ ..]) => (line, behind),
        (line, rest) => (line, rest),
    }
}
