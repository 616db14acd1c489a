ghost use Rattle.std.specs.Prelude.{◌≡◌};
ghost use Rattle.page_slots.specs.Claim.{taken};
ghost use Rattle.page_slots.specs.Soundness.{IsClaimGoing};

use crate::asserting::{assert_more, assert_same};
use crate::memory::smallest;
use atom_store::{Reply, Step, Turn};
use page_slots::{Claim, Claimed, Open, Opened};
use space_map::PageWord;
use std::process::Abort;

/// The claim wants this step, and tells this once it has the reply.
fn check_step(rt: &impl Abort, claim: &mut Claim, wanted: Step, reply: Reply, told: Turn<Claimed>)
    requires { IsClaimGoing claim.old.stage }
    ensures { claim.new ≡ taken claim.old reply }
{
    assert_same(rt, &claim.want(), &wanted);
    assert_same(rt, &claim.take(reply), &told);
}

#[test]
fn filling_page_is_claimed_by_one_exchange(rt: HostRuntime) {
    let mut claim = Claim::new(smallest(&rt), 4, 1, 1, PageWord::Unset, true);
    let told = Turn::Finished(Claimed::Won);
    let wanted = Step::Exchange(20, 0, 65542);
    check_step(&rt, &mut claim, wanted, Reply::Won, told);
}

#[test]
fn board_is_claimed_after_a_look_at_the_gate(rt: HostRuntime) {
    let mut claim = Claim::new(smallest(&rt), 8, 1, 1, PageWord::Open(0), false);
    assert_same(&rt, &claim.want(), &Step::Load(0));
    assert_more(&rt, claim.take(Reply::Value(0x0000_0001_0000_0001)));
    let told = Turn::Finished(Claimed::Taken(65546));
    let wanted = Step::Exchange(24, 1, 65542);
    check_step(&rt, &mut claim, wanted, Reply::Lost(65546), told);
}

#[test]
fn copy_announced_on_the_page_ends_its_claim(rt: HostRuntime) {
    let mut claim = Claim::new(smallest(&rt), 4, 1, 3, PageWord::Unset, false);
    let looked = Reply::Value(321);
    check_step(&rt, &mut claim, Step::Load(609), looked, Turn::More);
    let told = Turn::Finished(Claimed::Taken(320));
    check_step(&rt, &mut claim, Step::Load(610), Reply::Value(320), told);
}

#[test]
fn page_is_opened_by_one_store(rt: HostRuntime) {
    let mut open = Open::new(smallest(&rt), 8, 1);
    assert_same(&rt, &open.want(), &Step::Store(24, 65537));
    assert_same(&rt, &open.take(Reply::Done), &Turn::Finished(Opened));
}
