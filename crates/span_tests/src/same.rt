use std::fmt::Debug;
use std::process::Abort;

/// Asserts that what was found in a case is what is due.
pub fn same<C: Debug + Drop, T: PartialEq + Debug + Drop>(
    rt: &impl Abort,
    case: C,
    found: T,
    due: T,
) {
    assert_eq!(rt; found, due, "{case:?}");
}
