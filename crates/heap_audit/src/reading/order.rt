//! The line of an order.

ghost use Rattle.std.specs.Prelude.{◌≡◌, ◌<◌, ◌^◌, ◌++◌, List, ℕ, IfErr, IfOk, option_map};
ghost use Rattle.std.specs.List.{AllByRecursion};
ghost use Rattle.plain_heap.specs.declared.mark.Mark.{Mark};
ghost use Rattle.plain_heap.specs.Print.{order_line};
ghost use Rattle.heap_audit.specs.Texts.FirstWrong.{NamesWrong};
ghost use Rattle.heap_audit.specs.Texts.Pieces.{name_at};
ghost use Rattle.heap_audit.specs.Texts.Order.{ReadsAs, MarkFits};

use crate::reading::mark::mark;
use crate::reading::reading_error::ReadingError;
use dump_text::after;
use plain_heap::Mark;
use std::alloc::Global;

/// What stands behind the word `order`.
fn name(bytes: &[u8]) -> Option<&[u8]>
    ensures { option_map (λ x. x.now) result ≡ name_at bytes.now }
{
    match bytes {
        [b'o', b'r', b'd', b'e', b'r', rest @ ..] => Some(rest),
        _ => None,
    }
}

/// The marks of the order whose line the bytes begin with, and the bytes behind that line. So many lines stand before it.
pub fn read_order(
    alloc: Global,
    before: usize,
    bytes: &[u8],
) -> Result<(Vec<Mark>, &[u8]), ReadingError>
    requires { before < 2 ^ 32 }
    // The line is that of the marks.
    ensures found { IfOk result (λ x. AllByRecursion MarkFits x.0.items × (bytes.now ≡ order_line x.0.items ++ x.1.now)) }
    // Bytes that begin with an order's line are read as that order, unless memory runs out.
    ensures only { (marks : List Mark) (rest : List ℕ) → AllByRecursion MarkFits marks → bytes.now ≡ order_line marks ++ rest → ReadsAs {Y = List Mark × List ℕ} (λ x. (x.0.items, x.1.now)) result (marks, rest) }
    // Else the first wrong line is told, which is the only one.
    ensures first_wrong { IfErr result (NamesWrong order_line (AllByRecursion MarkFits) bytes.now before) }
{
    let wrong = ReadingError::Bad { line: before + 1 };
    let Some(body) = name(bytes) else {
        return Err(wrong);
    };
    let mut found = Vec::new(alloc);
    let mut rest = body;
    while let Some(text) = after(b' ', rest) {
        let Some(read) = mark(text) else {
            return Err(wrong);
        };
        let (mark, behind) = read;
        found.push(mark)?;
        rest = behind;
    }
    let Some(behind) = after(b'\n', rest) else {
        return Err(wrong);
    };
    Ok((found, behind))
}
