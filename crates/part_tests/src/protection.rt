use crate::asserting::assert_same;
use crate::memory::smallest;
use mmu_model::{PageWord, Protection, check, pack, protect_all, read, second_map, unprotect};

/// Page words, each with its one spelling.
const SPELLINGS: [(PageWord, u64); 4] = [
    (PageWord::Unset, 0),
    (PageWord::Open(0), 1),
    (PageWord::Open(1), 65537),
    (PageWord::Scanning(1, 3), 65550),
];

const NO_PAGE_WORDS: [u64; 6] = [3, 4, 5, 65536, 1 << 10 | 2, 1 << 48 | 1];

#[test]
fn page_words_are_spelled_as_their_format_says(rt: HostRuntime) {
    for (page_word, word) in &SPELLINGS {
        let found = (pack(*page_word), read(*word));
        assert_same(&rt, &found, &(*word, Some(*page_word)));
    }
    for word in &NO_PAGE_WORDS {
        assert_same(&rt, &(*word, read(*word)), &(*word, None));
    }
}

#[test]
fn pages_are_open_in_their_epoch_alone(rt: HostRuntime) {
    let open = unprotect(6);
    let scanning = pack(PageWord::Scanning(6, 1));
    let answers = [
        check(5, open, 6),
        check(5, open, protect_all(6)),
        check(5, scanning, 6),
    ];
    let wanted = [
        Protection::Allowed,
        Protection::Fault(5),
        Protection::Fault(5),
    ];
    assert_same(&rt, &answers, &wanted);
    assert_same(&rt, &second_map(smallest(&rt), 192), &(33 + 192));
}
