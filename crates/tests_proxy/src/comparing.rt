//! Comparisons as functions: each is proved once, where `assert_eq!` is proved at each place that names it.
use std::fmt::Debug;
use std::process::Abort;

/// Stops the test where the values differ, and prints both.
pub fn assert_equal<T: PartialEq + Debug>(rt: &impl Abort, value: &T, expected: &T) {
    assert_eq!(rt; value, expected);
}

/// The same in one of many cases, whose name or number it prints too. A drawn case has its seed's number.
pub fn assert_equal_at<T: PartialEq + Debug>(
    rt: &impl Abort,
    value: &T,
    expected: &T,
    case: &impl Debug,
) {
    assert_eq!(rt; value, expected, "case {case:?}");
}
