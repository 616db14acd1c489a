ghost use Rattle.std.specs.Prelude.{◌*◌, ◌≤◌, length};
ghost use Rattle.space_map.specs.Table.{table_length};

use crate::asserting::assert_same;
use crate::memory::smallest;
use crossing_map::{Area, Walked, crossed, walk_next};
use space_map::Spaces;
use std::process::Abort;

#[test]
fn pages_that_begin_in_a_record(rt: HostRuntime) {
    let found = [
        crossed(256, 3),
        crossed(257, 63),
        crossed(318, 3),
        crossed(0, 4096),
    ];
    assert_same(&rt, &found, &[(4, 5), (5, 5), (5, 6), (0, 64)]);
}

/// From an address in epoch 1 the walk comes to this.
fn check_walk(
    rt: &impl Abort,
    spaces: Spaces,
    words: &[u64],
    area: &Area,
    at: u32,
    kept: &[(u64, u64)],
    wanted: Walked,
)
    requires whole { table_length spaces.pages ≤ length words.now }
    requires low_behind { area.now.front ≤ area.now.low }
    requires end_behind { area.now.low ≤ area.now.end }
    requires in_heap { area.now.end ≤ 128 * spaces.pages }
    requires inside { at ≤ area.now.end }
{
    assert_same(rt, &walk_next(spaces, words, area, 1, at, kept), &wanted);
}

/// The words of a table with one open page, two records at its front, and three at the end of the space.
fn table() -> [u64; 633] {
    let mut words = [0; 633];
    words[16 + 6] = 0x1_0001;
    words[33 + 256] = 0x1_0022;
    words[33 + 384] = 0x4_0002;
    words[33 + 385] = 0x5_0022;
    words[33 + 448] = 0x6_0022;
    words
}

#[test]
fn a_walk_leaves_out_what_is_reserved_or_closed(rt: HostRuntime) {
    let spaces = smallest(&rt);
    let words = table();
    let area = Area {
        front: 261,
        low: 384,
        end: 512,
    };
    let kept = [(0, 0), (0x2_0016, 260)];
    let first = Walked::Record { at: 256, size: 3 };
    check_walk(&rt, spaces, &words, &area, 256, &kept, first);
    let second = Walked::Record { at: 384, size: 1 };
    check_walk(&rt, spaces, &words, &area, 259, &kept, second);
    let third = Walked::Record { at: 385, size: 3 };
    check_walk(&rt, spaces, &words, &area, 385, &kept, third);
    check_walk(&rt, spaces, &words, &area, 388, &kept, Walked::Ended);
}

#[test]
fn a_walk_breaks_at_what_is_no_record(rt: HostRuntime) {
    let spaces = smallest(&rt);
    let mut words = [0; 633];
    words[33 + 256] = 0x1_0022;
    words[33 + 257] = 0x1c;
    let area = Area {
        front: 258,
        low: 512,
        end: 512,
    };
    check_walk(
        &rt,
        spaces,
        &words,
        &area,
        256,
        &[],
        Walked::Broken { at: 256 },
    );
    check_walk(
        &rt,
        spaces,
        &words,
        &area,
        257,
        &[],
        Walked::Broken { at: 257 },
    );
}
