ghost use Rattle.std.specs.Prelude.{◌≡◌, false};

use crate::asserting::assert_same;
use space_map::{AreaWord, BadPages, GateWord, Spaces};
use std::process::Abort;

#[test]
fn gate_words_are_spelled_as_their_format_says(rt: HostRuntime) {
    let gate = GateWord {
        epoch: 1,
        live: 2,
        running: 0,
        behind: 2,
        request: false,
        left: 0,
    };
    assert_same(&rt, &gate.pack(), &0x0002_0002_0000_0001);
    let read = [
        GateWord::read(0x0002_0002_0000_0001),
        GateWord::read(1 << 62),
    ];
    assert_same(&rt, &read, &[Some(gate), None]);
}

#[test]
fn area_words_are_spelled_as_their_format_says(rt: HostRuntime) {
    let empty = AreaWord {
        front: 0,
        low: 256,
        owed: 64,
    };
    let filled = AreaWord {
        front: 3,
        low: 256,
        owed: 61,
    };
    let spelled = [empty.pack(), filled.pack()];
    assert_same(
        &rt,
        &spelled,
        &[0x0000_0400_0400_0000, 0x0000_03d0_0400_0003],
    );
    let read = [
        AreaWord::read(0x0000_03d0_0400_0003),
        AreaWord::read(1 << 54),
    ];
    assert_same(&rt, &read, &[Some(filled), None]);
}

/// The spaces of the smallest heap.
pub fn smallest(rt: &impl Abort) -> Spaces
    ensures pages { result.pages ≡ 4 }
    ensures without { result.checkpoints ≡ false }
{
    Spaces::new(4).expect(rt, "no spaces")
}

#[test]
fn spaces_have_4_to_2048_pages(rt: HostRuntime) {
    let refused = [Spaces::new(3), Spaces::new(2049)];
    assert_same(&rt, &refused, &[Err(BadPages), Err(BadPages)]);
    assert_same(&rt, &smallest(&rt).pages(), &4);
}

#[test]
fn places_of_every_heap(rt: HostRuntime) {
    let spaces = smallest(&rt);
    let gate_and_traced = [spaces.gate_place(), spaces.traced_place()];
    assert_same(&rt, &gate_and_traced, &[0, 2]);
    let areas = [spaces.area_place(0), spaces.area_place(1)];
    assert_same(&rt, &areas, &[4, 5]);
    let cells = [spaces.weak_place(), spaces.weak_turn_place()];
    assert_same(&rt, &cells, &[6, 7]);
    let sizes = [spaces.size_place(0), spaces.size_place(1)];
    assert_same(&rt, &sizes, &[12, 13]);
}

#[test]
fn places_of_the_smallest_heap(rt: HostRuntime) {
    let spaces = smallest(&rt);
    assert_same(&rt, &spaces.table_len(), &633);
    let pages = [spaces.page_place(8), spaces.cross_place(4)];
    assert_same(&rt, &pages, &[24, 29]);
    let words = [spaces.word_place(575), spaces.announce_place(23)];
    assert_same(&rt, &words, &[33 + 575, 609 + 23]);
}

#[test]
fn pages_and_spaces_of_the_smallest_heap(rt: HostRuntime) {
    let spaces = smallest(&rt);
    let pages = [spaces.page_of(576), spaces.board_page()];
    assert_same(&rt, &pages, &[9, 8]);
    let words = [
        spaces.first_word(8),
        spaces.space_start(0),
        spaces.space_start(1),
    ];
    assert_same(&rt, &words, &[512, 0, 256]);
    let of_epochs = [spaces.to_space(0), spaces.to_space(7)];
    assert_same(&rt, &of_epochs, &[0, 1]);
    // The last word of each space lies in it, and neither what is before the second space nor what is behind it does.
    let in_first = spaces.in_space(255, 0);
    let in_second = [
        spaces.in_space(255, 1),
        spaces.in_space(511, 1),
        spaces.in_space(512, 1),
    ];
    assert_same(&rt, &(in_first, in_second), &(true, [false, true, false]));
}

#[test]
fn a_refusal_tells_the_range(rt: HostRuntime) {
    let text = BadPages.to_string(rt.alloc()).expect(&rt, "no text");
    assert_same(&rt, &text.as_str(), &"a space has 4 to 2048 pages");
}
