ghost use Rattle.std.specs.Prelude.{◌≡◌, ◌<◌, length};
ghost use Rattle.atom_store.specs.Step.{place_in};

use crate::asserting::assert_same;
use atom_store::{Atoms, NoMemory, PlainAtoms, Reply, Step};
use std::process::Abort;

/// The step has this reply.
fn check_reply(rt: &impl Abort, atoms: &mut PlainAtoms, step: Step, wanted: Reply)
    requires { place_in step < length atoms.old }
    ensures { length atoms.new ≡ length atoms.old }
{
    assert_same(rt, &atoms.act(step), &wanted);
}

#[test]
fn steps_on_plain_words(rt: HostRuntime) {
    let mut atoms = PlainAtoms::new(rt.alloc(), 2).expect(&rt, "no words");
    assert_same(&rt, &atoms.words(), &[0, 0].as_slice());
    check_reply(&rt, &mut atoms, Step::Load(1), Reply::Value(0));
    check_reply(&rt, &mut atoms, Step::Store(1, 7), Reply::Done);
    check_reply(&rt, &mut atoms, Step::Load(1), Reply::Value(7));
    check_reply(&rt, &mut atoms, Step::Exchange(1, 8, 9), Reply::Lost(7));
    check_reply(&rt, &mut atoms, Step::Exchange(1, 7, 9), Reply::Won);
    assert_same(&rt, &atoms.words(), &[0, 9].as_slice());
}

#[test]
fn every_refused_growth_is_this_error(rt: HostRuntime) -> Result<(), NoMemory> {
    let mut numbers = Vec::new(rt.alloc());
    numbers.push(7)?;
    let text = format!(in rt.alloc(); "{NoMemory}")?;
    let found = (numbers.as_slice(), text.as_str());
    assert_same(&rt, &found, &([7].as_slice(), "out of memory"));
    Ok(())
}
