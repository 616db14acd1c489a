use crate::asserting::assert_same;
use crate::memory::smallest;
use atom_store::{Reply, Step, Turn};
use forwarding::{Evac, To};

#[test]
#[tactic(auto, unfolding(heap_words::specs::Decoded::decode, heap_words::specs::Word::tag_of))]
fn forward_leads_to_the_copy(rt: HostRuntime) {
    let mut evac = Evac::new(smallest(&rt), 192, 1, 1);
    assert_same(&rt, &evac.want(), &Step::Load(33 + 192));
    let told = evac.take(Reply::Value(0x0000_0000_0100_0023));
    assert_same(&rt, &told, &Turn::Finished(To(256)));
}

#[test]
#[tactic(auto, unfolding(heap_words::specs::Decoded::decode, heap_words::specs::Word::tag_of))]
fn what_another_worker_copies_is_looked_at_again(rt: HostRuntime) {
    let mut evac = Evac::new(smallest(&rt), 192, 1, 1);
    let told = evac.take(Reply::Value(0x0000_0000_0002_0027));
    assert_same(&rt, &told, &Turn::More);
    assert_same(&rt, &evac.want(), &Step::Load(33 + 192));
    assert_same(&rt, &evac.kept(), &(0, 0));
}
