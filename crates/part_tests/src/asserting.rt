ghost use Rattle.std.specs.Prelude.{◌≡◌};

use atom_store::Turn;
use std::fmt::Debug;
use std::process::Abort;

/// Asserts that two values are equal. A test proves a call of this more quickly than `assert_eq!`.
pub fn assert_same<T: PartialEq + Debug>(rt: &impl Abort, left: &T, right: &T) {
    assert_eq!(rt; *left, *right);
}

/// Asserts that a machine goes on, so that it may take a further reply.
pub fn assert_more<T: Debug + Drop>(rt: &impl Abort, told: Turn<T>)
    ensures { told ≡ Turn.More }
{
    match told {
        Turn::More => {}
        Turn::Finished(end) => panic!(rt; "it ends: {end:?}"),
    }
}
