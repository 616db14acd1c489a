use crate::asserting::assert_same;
use heap_words::{Tag, Word};

#[test]
fn words_are_spelled_as_their_format_says(rt: HostRuntime) {
    let spelled = [Word::number(7).0, Word::pointer(300).0];
    assert_same(
        &rt,
        &spelled,
        &[0x0000_0000_0000_001c, 0x0000_0000_0000_04b1],
    );
}

/// Words, each with its tag, and the number or the pointer that it is.
const WORDS: [(u64, Tag, Option<u64>, Option<u32>); 5] = [
    (0x1c, Tag::Number, Some(7), None),
    (0x4b1, Tag::Pointer, None, Some(300)),
    (0x0000_0004_0000_0001, Tag::Pointer, None, None),
    (0x0100_0000_0003_0646, Tag::Header, None, None),
    (0x0000_0000_0200_0023, Tag::Forward, None, None),
];

#[test]
fn words_are_read_by_their_tags(rt: HostRuntime) {
    for (word, tag, number, pointer) in &WORDS {
        let read = Word(*word);
        let found = (*word, read.tag(), read.as_number(), read.as_pointer());
        assert_same(&rt, &found, &(*word, *tag, *number, *pointer));
    }
}
