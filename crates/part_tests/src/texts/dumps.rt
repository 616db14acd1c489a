use super::repeated;
use crate::asserting::assert_same;
use dump_text::{Dump, DumpError, Kept, read};
use std::alloc::Global;
use std::process::Abort;

/// The lines before the words of a dump of 4 pages with one mutator and one worker.
const HEAD: &str = "\
dump 4 1 1
0000000000000401 000000000000001c 0000000000000601 0000000000000000 0000000000000000 0000000000000000 0000000000000000 fedcba9876543210
0000000000010022 0000000000000101
";

/// A dump whose table has so many words, each 0.
fn printed(rt: &impl Abort, alloc: Global, words: usize) -> String {
    repeated(rt, alloc, HEAD, "0000000000000000\n", words, "")
}

/// The dump has what was printed.
fn check_dump(rt: &impl Abort, dump: &Dump) {
    let registers = [0x401, 0x1c, 0x601, 0, 0, 0, 0, 0xfedc_ba98_7654_3210];
    let kept = Kept {
        header: 0x10022,
        place: 0x101,
    };
    assert_same(rt, &(dump.pages, dump.words.len()), &(4, 633));
    assert_same(rt, &dump.registers.as_slice(), &[registers].as_slice());
    assert_same(rt, &dump.kept.as_slice(), &[kept].as_slice());
}

#[test]
fn a_dump_is_read_back(rt: HostRuntime) {
    let text = printed(&rt, rt.alloc(), 633);
    let dump = read(rt.alloc(), text.as_bytes()).expect(&rt, "no dump");
    check_dump(&rt, &dump);
}

/// Texts that are no dumps, each with its first wrong line.
const WRONG_LINES: [(&str, u32); 10] = [
    ("", 1),
    ("dump 4 1 1", 1),
    ("dump 4 1\n", 1),
    ("dump 04 1 1\n", 1),
    ("dump 3 1 1\n", 1),
    ("dump 4 17 17\n", 1),
    ("dump 4 1 10\n", 1),
    ("dump 4 1 1\n", 2),
    ("dump 4 1 1\n0000000000000000\n", 2),
    ("dump 4 1 1\n000000000000000G", 2),
];

/// This line is the first wrong one.
fn check_wrong(rt: &impl Abort, alloc: Global, text: &str, line: u32) {
    let error = read(alloc, text.as_bytes()).err();
    assert_same(rt, &error, &Some(DumpError::Bad { line }));
}

#[test]
fn the_first_wrong_line_is_told(rt: HostRuntime) {
    for (text, line) in &WRONG_LINES {
        check_wrong(&rt, rt.alloc(), text, *line);
    }
    check_wrong(&rt, rt.alloc(), &printed(&rt, rt.alloc(), 632), 636);
    check_wrong(&rt, rt.alloc(), &printed(&rt, rt.alloc(), 634), 637);
}
