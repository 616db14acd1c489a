ghost use Rattle.std.specs.Prelude.{◌≡◌};
ghost use Rattle.page_scan.specs.Scanning.{HasStep};
ghost use Rattle.page_scan.specs.Soundness.{IsSound};
ghost use Rattle.page_scan.specs.Taken.{taken};

use crate::asserting::assert_same;
use crate::memory::smallest;
use atom_store::{Reply, Step, Turn};
use page_scan::{Scan, Scanned};
use std::process::Abort;

/// The scan wants this step, and tells this once it has the reply.
fn check_step(rt: &impl Abort, scan: &mut Scan, wanted: Step, reply: Reply, told: Turn<Scanned>)
    requires going { HasStep scan.old.stage }
    requires sound { IsSound (taken scan.old reply) }
    ensures { scan.new ≡ taken scan.old reply }
{
    assert_same(rt, &scan.want(), &wanted);
    assert_same(rt, &scan.take(reply), &told);
}

#[test]
#[tactic(auto, unfolding(heap_words::specs::Decoded::decode, heap_words::specs::Word::tag_of))]
fn pointer_on_the_board_is_replaced(rt: HostRuntime) {
    let mut scan = Scan::new(smallest(&rt), 8, 1, false);
    check_step(
        &rt,
        &mut scan,
        Step::Load(33 + 512),
        Reply::Value(0x301),
        Turn::Finished(Scanned::Ask(192)),
    );
    scan.answer(256);
    check_step(
        &rt,
        &mut scan,
        Step::Store(33 + 512, 0x401),
        Reply::Done,
        Turn::More,
    );
    assert_same(&rt, &scan.want(), &Step::Load(33 + 513));
}

#[test]
#[tactic(auto, unfolding(heap_words::specs::Decoded::decode, heap_words::specs::Word::tag_of, space_map::specs::AreaWord::decode_area, space_map::specs::AreaWord::area_in))]
fn filling_page_is_scanned_up_to_front(rt: HostRuntime) {
    let mut scan = Scan::new(smallest(&rt), 4, 1, true);
    check_step(
        &rt,
        &mut scan,
        Step::Load(25 + 4),
        Reply::Value(256),
        Turn::More,
    );
    check_step(
        &rt,
        &mut scan,
        Step::Load(33 + 256),
        Reply::Value(0x0000_0000_0001_0022),
        Turn::More,
    );
    check_step(
        &rt,
        &mut scan,
        Step::Load(33 + 257),
        Reply::Value(0x1c),
        Turn::More,
    );
    check_step(
        &rt,
        &mut scan,
        Step::Load(33 + 258),
        Reply::Value(0x1c),
        Turn::More,
    );
    check_step(
        &rt,
        &mut scan,
        Step::Load(5),
        Reply::Value(0x0000_03d0_0400_0003),
        Turn::Finished(Scanned::Ended { at_front: true }),
    );
}

#[test]
#[tactic(auto, unfolding(heap_words::specs::Decoded::decode, heap_words::specs::Word::tag_of))]
fn plain_numbers_of_a_mixed_record_are_passed(rt: HostRuntime) {
    let mut scan = Scan::new(smallest(&rt), 4, 1, false);
    check_step(
        &rt,
        &mut scan,
        Step::Load(25 + 4),
        Reply::Value(256),
        Turn::More,
    );
    check_step(
        &rt,
        &mut scan,
        Step::Load(33 + 256),
        Reply::Value(0x0000_0000_0001_003a),
        Turn::More,
    );
    check_step(
        &rt,
        &mut scan,
        Step::Load(33 + 257),
        Reply::Value(0x4),
        Turn::More,
    );
    check_step(
        &rt,
        &mut scan,
        Step::Load(33 + 258),
        Reply::Value(0x301),
        Turn::Finished(Scanned::Ask(192)),
    );
    scan.answer(256);
    check_step(
        &rt,
        &mut scan,
        Step::Store(33 + 258, 0x401),
        Reply::Done,
        Turn::More,
    );
    assert_same(&rt, &scan.want(), &Step::Load(33 + 260));
}
