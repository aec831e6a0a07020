// What tests assert, said once: an assertion in a test's own body costs the prover several times what a call does.
use std::fmt::Debug;
use std::process::Abort;

/// Ends the test where what was found isn't what is wanted.
pub fn same<T: PartialEq + Debug + Copy>(rt: &impl Abort, found: T, wanted: T) {
    assert_eq!(rt; found, wanted);
}
