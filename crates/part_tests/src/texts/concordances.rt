ghost use Rattle.std.specs.Prelude.{◌≤◌, ◌<◌, ◌^◌, length};

use crate::asserting::assert_same;
use concordance_text::{Letters, MOST_PARTS, WordMap, first_too_long, lower_cased, parts, told};
use std::alloc::Global;
use std::collections::BTreeMap;
use std::process::Abort;

/// Notes that a word stands in these lines.
fn note(rt: &impl Abort, alloc: Global, words: &mut WordMap, word: &[u8], lines: &[u32]) {
    let word = Vec::from_slice(alloc, word).expect(rt, "no word");
    let lines = Vec::from_slice(alloc, lines).expect(rt, "no lines");
    let noted: Result<_, _> = words.insert(word, lines);
    noted.expect(rt, "no entry");
}

/// This is told of the words.
fn check_told(rt: &impl Abort, alloc: Global, words: &WordMap, wanted: &[u8]) {
    let told = told(alloc, words).expect(rt, "no text");
    assert_same(rt, &told.as_slice(), &wanted);
}

#[test]
fn rows_are_told_in_order(rt: HostRuntime) {
    let mut words: WordMap = BTreeMap::new(rt.alloc());
    check_told(&rt, rt.alloc(), &words, b"");
    note(&rt, rt.alloc(), &mut words, b"b", &[1]);
    note(&rt, rt.alloc(), &mut words, b"a", &[1, 2]);
    check_told(&rt, rt.alloc(), &words, b"a: 1, 2\nb: 1\n");
}

#[test]
fn long_words_are_found_by_their_lines(rt: HostRuntime) {
    assert_same(&rt, &first_too_long(b""), &None);
    let longest = b"xxxxxxxxxxxxxxxxxxxxxxxxxxxxxxxxxxxxxxxxxxxxxxxxxxxxxxxxxxxxxxxx\n";
    assert_same(&rt, &first_too_long(longest), &None);
    let longer =
        b"\nxxxxxxxxxxxxxxxxxxxxxxxxxxxxxxxxxxxxxxxxxxxxxxxxxxxxxxxxxxxxxxxx0\r\nxxxxxxxxxxxxxxxxxxxxxxxxxxxxxxxxxxxxxxxxxxxxxxxxxxxxxxxxxxxxxxxxx\nxxxxxxxxxxxxxxxxxxxxxxxxxxxxxxxxxxxxxxxxxxxxxxxxxxxxxxxxxxxxxxxxxx";
    assert_same(&rt, &first_too_long(longer), &Some(3));
}

#[test]
fn words_are_lower_cased(rt: HostRuntime) {
    let letters: Letters = lower_cased(b"aZ");
    assert_same(&rt, &letters.as_slice(), &b"az".as_slice());
}

/// Of each part the wanted shape has the number of its first line, and how many bytes it has.
fn check_parts(rt: &impl Abort, alloc: Global, text: &[u8], count: usize, wanted: &[(u32, usize)])
    requires some { 0 < count }
    requires few { count ≤ MOST_PARTS }
    requires short { length text.now < 2 ^ 31 }
{
    let mut shape = Vec::new(alloc);
    for part in parts(text, count).as_slice() {
        let part = (part.line, part.text.len());
        shape.push(part).expect(rt, "no shape");
    }
    assert_same(rt, &shape.as_slice(), &wanted);
}

#[test]
fn texts_are_cut_at_ends_of_lines(rt: HostRuntime) {
    let many = [(1, 2), (2, 1), (3, 1), (3, 0)];
    check_parts(&rt, rt.alloc(), b"b a\nA", 2, &[(1, 4), (2, 1)]);
    check_parts(&rt, rt.alloc(), b"a\n\nb", 4, &many);
    check_parts(&rt, rt.alloc(), b"", 2, &[(1, 0), (1, 0)]);
}
