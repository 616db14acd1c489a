use crate::asserting::{assert_more, assert_same};
use crate::memory::smallest;
use atom_store::{Reply, Step, Turn};
use gate_core::{Recall, Recalled, Snap, Snapped};
use space_map::GateWord;

/// The gate of an only mutator that is stopped, with its request.
const STOPPED: u64 = 0x0100_0001_0000_0000;

/// The same gate, as its word is read.
const STOPPED_GATE: GateWord = GateWord {
    epoch: 0,
    live: 1,
    running: 0,
    behind: 0,
    request: true,
    left: 0,
};

/// The words of the last checkpoint that was begun and of the last that was finished, and the one that runs.
const RUNNING: [(u64, u64, u32); 4] = [(0, 0, 0), (1, 0, 1), (1, 1, 0), (7, 6, 7)];

#[test]
fn checkpoint_runs_until_it_is_finished(rt: HostRuntime) {
    let spaces = smallest(&rt);
    for (snap, done, running) in RUNNING {
        let mut recall = Recall::new(spaces);
        assert_same(&rt, &recall.want(), &Step::Load(14));
        assert_more(&rt, recall.take(Reply::Value(snap)));
        assert_same(&rt, &recall.want(), &Step::Load(15));
        let number = snap as u32;
        let recalled = Recalled { number, running };
        let told = recall.take(Reply::Value(done));
        assert_same(&rt, &told, &Turn::Finished(recalled));
    }
}

#[test]
fn word_that_is_no_number_is_loaded_again(rt: HostRuntime) {
    let mut recall = Recall::new(smallest(&rt));
    assert_more(&rt, recall.take(Reply::Value(0x1_0000_0000)));
    assert_same(&rt, &recall.want(), &Step::Load(14));
}

#[test]
fn checkpoint_is_begun_once_nobody_runs(rt: HostRuntime) {
    let mut snap = Snap::new(smallest(&rt), 1);
    assert_same(&rt, &snap.want(), &Step::Load(0));
    assert_more(&rt, snap.take(Reply::Value(STOPPED)));
    assert_same(&rt, &snap.want(), &Step::Exchange(14, 1, 2));
    let told = Turn::Finished(Snapped::Begun(STOPPED_GATE));
    assert_same(&rt, &snap.take(Reply::Won), &told);
}

#[test]
fn running_mutator_hinders_a_checkpoint(rt: HostRuntime) {
    let mut snap = Snap::new(smallest(&rt), 0);
    let running = 0x0100_0102_0000_0000;
    let told = Turn::Finished(Snapped::NotYet(running));
    assert_same(&rt, &snap.take(Reply::Value(running)), &told);
}
