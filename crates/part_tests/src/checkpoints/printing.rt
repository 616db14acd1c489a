use crate::asserting::assert_same;
use checkpoint_text::checkpoint;
use std::alloc::Global;
use std::process::Abort;

/// How many words the table has with 4 pages a space and room for checkpoints.
const TABLE_LEN: usize = 1218;

const SNAP: usize = 14;

const DONE: usize = 15;

/// Where the heap's words begin, what is said of pages for checkpoints, and the saved words.
const HEAP: usize = 33;

const SAVE: usize = 633;

const IMAGE: usize = 642;

/// The words of a table that aren't 0, by their places, and the lines that are printed of its last checkpoint.
struct Row {
    name: &'static str,
    written: &'static [(usize, u64)],
    lines: &'static str,
}

const FIVE_IS_KEPT: &str =
    "checkpoint 1\nboard 0.1 0 0 0 0 0 0 0 0 0 0 0 0 0 0 0\n0.1 fields 1: 5\n";

const ROWS: [Row; 7] = [
    Row {
        name: "no checkpoint was begun",
        written: &[(HEAP + 512, 4)],
        lines: "checkpoint 0\n",
    },
    Row {
        name: "a checkpoint is read from the heap",
        written: &[
            (SNAP, 1),
            (HEAP + 192, 0x10012),
            (HEAP + 193, 20),
            (HEAP + 512, 0x301),
            (SAVE + 3, 0x10001),
            (IMAGE + 192, 0x10012),
        ],
        lines: FIVE_IS_KEPT,
    },
    Row {
        name: "a saved page is read from its image",
        written: &[
            (SNAP, 1),
            (HEAP + 192, 0x10012),
            (HEAP + 193, 24),
            (HEAP + 512, 0x301),
            (SAVE + 3, 0x10002),
            (IMAGE + 192, 0x10012),
            (IMAGE + 193, 20),
        ],
        lines: FIVE_IS_KEPT,
    },
    Row {
        name: "a finished checkpoint is read from images",
        written: &[
            (SNAP, 1),
            (DONE, 1),
            (HEAP + 192, 24),
            (HEAP + 513, 24),
            (SAVE + 3, 0x10003),
            (SAVE + 8, 0x10002),
            (IMAGE + 192, 0x10012),
            (IMAGE + 193, 20),
            (IMAGE + 512, 0x301),
        ],
        lines: FIVE_IS_KEPT,
    },
    // A mixed record of mutator 1 with a field and a plain number that reads as a pointer; a raw record that only the plain
    // number would lead to; and two records of mutator 0 that refer to one another, the second one met first.
    Row {
        name: "records are listed by mutator and serial",
        written: &[
            (SNAP, 2),
            (DONE, 1),
            (HEAP + 512, 0x201),
            (HEAP + 513, 28),
            (HEAP + 527, 0x201),
            (HEAP + 128, 0x100_0000_0001_003a),
            (HEAP + 129, 4),
            (HEAP + 130, 0x229),
            (HEAP + 131, 0x219),
            (HEAP + 134, 0x3_0016),
            (HEAP + 135, 7),
            (HEAP + 138, 0x2_0022),
            (HEAP + 139, 0x235),
            (HEAP + 140, 0x201),
            (HEAP + 141, 0x1_0012),
            (HEAP + 142, 0x229),
        ],
        lines: "checkpoint 2\nboard 1.1 7 0 0 0 0 0 0 0 0 0 0 0 0 0 1.1\n0.1 fields 1: 0.2\n0.2 fields 2: 0.1 1.1\n1.1 mixed 1 2: 0.2 537\n",
    },
    // Two cells: one refers to a record to which nothing else leads, by its saved word alone; the other one is empty.
    Row {
        name: "targets of cells are not followed",
        written: &[
            (SNAP, 1),
            (HEAP + 512, 0x301),
            (HEAP + 513, 0x201),
            (HEAP + 128, 0x3_002e),
            (HEAP + 192, 0x2_002e),
            (HEAP + 256, 0x1_0012),
            (SAVE + 3, 0x10002),
            (IMAGE + 192, 0x2_002e),
            (IMAGE + 193, 0x401),
        ],
        lines: "checkpoint 1\nboard 0.2 0.3 0 0 0 0 0 0 0 0 0 0 0 0 0 0\n0.2 weak 1: 0.1\n0.3 weak 1: 0\n",
    },
    Row {
        name: "raw records have plain numbers",
        written: &[
            (SNAP, 1),
            (HEAP + 520, 0x201),
            (HEAP + 128, 0x1_0026),
            (HEAP + 129, 0x201),
            (HEAP + 130, u64::MAX),
        ],
        lines: "checkpoint 1\nboard 0 0 0 0 0 0 0 0 0.1 0 0 0 0 0 0 0\n0.1 raw 2: 513 18446744073709551615\n",
    },
];

/// The table of a row.
fn table(rt: &impl Abort, alloc: Global, written: &[(usize, u64)]) -> Vec<u64> {
    let mut words = vec![in alloc; 0; TABLE_LEN].expect(rt, "no table");
    for (place, word) in written {
        if let Some(at) = words.get_mut(*place) {
            *at = *word;
        }
    }
    words
}

/// The lines of a row are printed of its table.
fn check_row(rt: &impl Abort, alloc: Global, row: &Row) {
    let words = table(rt, alloc, row.written);
    let lines = checkpoint(alloc, words.as_slice()).expect(rt, "no lines");
    let wanted = (row.name, row.lines.as_bytes());
    assert_same(rt, &(row.name, lines.as_slice()), &wanted);
}

#[test]
fn the_last_checkpoint_is_printed(rt: HostRuntime) {
    for row in &ROWS {
        check_row(&rt, rt.alloc(), row);
    }
}
