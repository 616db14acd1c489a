ghost use Rattle.std.specs.Prelude.{◌≡◌, true};
ghost use Rattle.page_saves.specs.SoundGuard.{IsGuardGoing};
ghost use Rattle.page_saves.specs.SoundRound.{IsSaveRoundGoing};
ghost use Rattle.page_saves.specs.SoundSave.{IsSaveGoing};

use crate::asserting::{assert_more, assert_same};
use crate::memory::smallest;
use atom_store::{Reply, Step, Turn};
use page_saves::{Guard, MayWrite, Save, SaveEnd, SaveRound, SaveRoundEnd};
use space_map::{SaveWord, Spaces};
use std::process::Abort;

/// The spaces of the smallest heap, with room for checkpoints.
fn roomy(rt: &impl Abort) -> Spaces
    ensures pages { result.pages ≡ 4 }
    ensures with { result.checkpoints ≡ true }
{
    smallest(rt).with_checkpoints()
}

/// The save wants this step, and goes on once it has the reply.
fn save_goes_on(rt: &impl Abort, save: &mut Save, wanted: Step, reply: Reply)
    requires { IsSaveGoing save.old.stage }
    ensures { IsSaveGoing save.new.stage }
{
    assert_same(rt, &save.want(), &wanted);
    assert_more(rt, save.take(reply));
}

/// The look before a write wants this step, and goes on once it has the reply.
fn look_goes_on(rt: &impl Abort, guard: &mut Guard, wanted: Step, reply: Reply)
    requires { IsGuardGoing guard.old.stage }
    ensures { IsGuardGoing guard.new.stage }
{
    assert_same(rt, &guard.want(), &wanted);
    assert_more(rt, guard.take(reply));
}

/// The round wants these loads, and goes on once it has their words.
fn round_goes_on(rt: &impl Abort, round: &mut SaveRound, place: usize, word: u64)
    requires { IsSaveRoundGoing round.old.stage }
    ensures { IsSaveRoundGoing round.new.stage }
{
    assert_same(rt, &round.want(), &Step::Load(place));
    assert_more(rt, round.take(Reply::Value(word)));
}

/// The round wants this step, and ends so once it has the reply.
fn round_ends(rt: &impl Abort, round: &mut SaveRound, wanted: Step, reply: Reply, end: SaveRoundEnd)
    requires { IsSaveRoundGoing round.old.stage }
{
    assert_same(rt, &round.want(), &wanted);
    assert_same(rt, &round.take(reply), &Turn::Finished(end));
}

#[test]
fn page_is_saved_word_by_word(rt: HostRuntime) {
    let mut save = Save::new(roomy(&rt), 3, SaveWord::Unsaved, 1, 0);
    save_goes_on(&rt, &mut save, Step::Exchange(636, 0, 0x10001), Reply::Won);
    save_goes_on(&rt, &mut save, Step::Load(225), Reply::Value(5));
    save_goes_on(&rt, &mut save, Step::Store(834, 5), Reply::Done);
    save_goes_on(&rt, &mut save, Step::Load(226), Reply::Value(12));
    assert_same(&rt, &save.want(), &Step::Store(835, 12));
}

#[test]
fn lost_exchange_ends_a_save(rt: HostRuntime) {
    let mut save = Save::new(roomy(&rt), 8, SaveWord::Saved(1), 2, 3);
    assert_same(&rt, &save.want(), &Step::Exchange(641, 0x10002, 0x2000d));
    let told = save.take(Reply::Lost(0x20001));
    assert_same(&rt, &told, &Turn::Finished(SaveEnd::Taken(0x20001)));
}

#[test]
fn write_waits_while_another_saves(rt: HostRuntime) {
    let mut guard = Guard::new(roomy(&rt), 3, 1, 0);
    look_goes_on(&rt, &mut guard, Step::Load(636), Reply::Value(0x10005));
    assert_same(&rt, &guard.want(), &Step::Load(636));
    let told = guard.take(Reply::Value(0x10002));
    assert_same(&rt, &told, &Turn::Finished(MayWrite));
}

#[test]
fn page_is_saved_before_it_is_written(rt: HostRuntime) {
    let mut guard = Guard::new(roomy(&rt), 3, 1, 0);
    let claims = Step::Exchange(636, 0, 0x10001);
    look_goes_on(&rt, &mut guard, Step::Load(636), Reply::Value(0));
    look_goes_on(&rt, &mut guard, claims, Reply::Lost(0x10005));
    assert_same(&rt, &guard.want(), &Step::Load(636));
}

#[test]
fn round_ends_if_no_checkpoint_runs(rt: HostRuntime) {
    let mut round = SaveRound::of_mutator(roomy(&rt), 0, 0);
    round_goes_on(&rt, &mut round, 14, 1);
    let end = SaveRoundEnd::NoneRuns(1);
    round_ends(&rt, &mut round, Step::Load(15), Reply::Value(1), end);
}

#[test]
fn busy_board_forbids_the_mark(rt: HostRuntime) {
    let mut round = SaveRound::of_mutator(roomy(&rt), 0, 0);
    round_goes_on(&rt, &mut round, 14, 1);
    round_goes_on(&rt, &mut round, 15, 0);
    round_goes_on(&rt, &mut round, 24, 1);
    round_goes_on(&rt, &mut round, 641, 0x10005);
    round_goes_on(&rt, &mut round, 16, 0);
    round_goes_on(&rt, &mut round, 17, 0);
    round_goes_on(&rt, &mut round, 18, 0);
    round_goes_on(&rt, &mut round, 19, 1);
    let saved = Reply::Value(0x10002);
    let end = SaveRoundEnd::NothingNow(0x10005);
    round_ends(&rt, &mut round, Step::Load(636), saved, end);
}

#[test]
fn scanner_looks_at_the_gate_twice(rt: HostRuntime) {
    let mut round = SaveRound::of_scanner(roomy(&rt), 1, 1);
    round_goes_on(&rt, &mut round, 0, 0x0000_0101_0000_0001);
    round_goes_on(&rt, &mut round, 14, 1);
    round_goes_on(&rt, &mut round, 15, 0);
    let gate = 0x0001_0001_0000_0002;
    let end = SaveRoundEnd::NothingNow(gate);
    round_ends(&rt, &mut round, Step::Load(0), Reply::Value(gate), end);
}

#[test]
fn checkpoint_is_marked_once_all_is_saved(rt: HostRuntime) {
    let mut round = SaveRound::of_mutator(roomy(&rt), 0, 0);
    round_goes_on(&rt, &mut round, 14, 1);
    round_goes_on(&rt, &mut round, 15, 0);
    round_goes_on(&rt, &mut round, 24, 1);
    round_goes_on(&rt, &mut round, 641, 0x10002);
    round_goes_on(&rt, &mut round, 16, 0);
    round_goes_on(&rt, &mut round, 17, 0);
    round_goes_on(&rt, &mut round, 18, 1);
    round_goes_on(&rt, &mut round, 635, 0x10003);
    round_goes_on(&rt, &mut round, 19, 1);
    round_goes_on(&rt, &mut round, 636, 0x10002);
    let marks = Step::Exchange(15, 0, 1);
    round_ends(&rt, &mut round, marks, Reply::Won, SaveRoundEnd::Marked);
}
