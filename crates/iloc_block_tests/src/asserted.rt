//! An assertion that many tests make. A proof pays for it where it stands, and hardly anything for a call.
use std::fmt::Debug;
use std::process::Abort;

/// Asserts that `found` is what was `wanted`.
pub(crate) fn assert_list<T: Debug + PartialEq>(rt: &impl Abort, found: &[T], wanted: &[T]) {
    assert_eq!(rt; found, wanted);
}
