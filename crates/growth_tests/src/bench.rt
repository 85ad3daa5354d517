//! What the tests compare by.
use std::fmt::Debug;
use std::process::Abort;

/// Ends the test where the value isn't the one that is wanted. A test that said `assert_eq!` itself would be proved to end well at each place.
pub(crate) fn equal<T: PartialEq + Debug + Drop>(rt: &impl Abort, got: T, want: T) {
    assert_eq!(rt; got, want);
}
