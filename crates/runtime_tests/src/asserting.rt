use std::fmt::Debug;
use std::process::Abort;

/// Asserts that two values are equal. A test proves a call of this more quickly than `assert_eq!`.
pub fn assert_same<T: PartialEq + Debug>(rt: &impl Abort, left: &T, right: &T) {
    assert_eq!(rt; *left, *right);
}
