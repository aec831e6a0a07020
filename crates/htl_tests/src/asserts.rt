// What tests assert, said once: an assertion in a test's own body costs the prover several times what a call does.
use std::fmt::Debug;
use std::process::Abort;

/// Ends the test where what was found isn't what is wanted.
pub fn same<T: PartialEq + Debug + Copy>(rt: &impl Abort, found: T, wanted: T) {
    assert_eq!(rt; found, wanted);
}

/// The same of a row of a table, which is told.
pub fn same_in<R: Debug + Copy, T: PartialEq + Debug + Copy>(
    rt: &impl Abort,
    row: R,
    found: T,
    wanted: T,
) {
    assert_eq!(rt; found, wanted, "{row:?}");
}

/// Ends the test where this isn't so.
pub fn holds(rt: &impl Abort, is_so: bool) {
    assert!(rt; is_so);
}

/// The same of a row of a table, which is told.
pub fn holds_in<R: Debug + Copy>(rt: &impl Abort, row: R, is_so: bool) {
    assert!(rt; is_so, "{row:?}");
}
