//! The one comparison of the tests here. An assertion that stands in each test would be proved again for each.

use std::fmt::Debug;
use std::process::Abort;

/// Compares what was told with what is wanted.
pub(crate) fn same<T: PartialEq + Debug + Drop>(rt: &impl Abort, told: T, wanted: T) {
    assert_eq!(rt; told, wanted);
}
