//! The division of an input into the text of a program and what should be its output.

ghost use Rattle.std.specs.Prelude.{◌≡◌, ◌+◌, ◌≤◌, length};
ghost use Rattle.ael_jobs.specs.Tasks.Division.{divided};

use concordance_text::first_line;

/// The text before the first line that is `.output`, and the part behind that line. If there is no such line the text is all of the input.
pub fn divided(input: &[u8]) -> (&[u8], &[u8])
    ensures parts { (result.0.now, result.1.now) ≡ divided input.now }
    ensures no_longer { length result.0.now + length result.1.now ≤ length input.now }
{
    let mut rest = input;
    while !rest.is_empty() {
        let (line, behind) = first_line(rest);
        if line == b".output".as_slice() {
            let (text, _) = input.split_at(input.len() - rest.len());
            return (text, behind);
        }
        rest = behind;
    }
    (input, rest)
}
