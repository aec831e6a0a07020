// The first broken rule of a module with two modes.
use crate::asserts::same;
use crate::made::made;
use htl_form::form;
use htl_model::FormFault;
use std::alloc::Global;

const EQUAL_PERIODS: &str =
    "program P { module M start a { mode a period 10 { } mode b period 10 { } } }";

const UNEQUAL_PERIODS: &str =
    "program P { module M start a { mode a period 10 { } mode b period 20 { } } }";

const UNEQUAL: FormFault = FormFault {
    rule: 1,
    module: 0,
    mode: 1,
    inv: None,
    have: 20,
    need: 10,
};

// What the rules say of a text.
fn verdict(alloc: Global, text: &str) -> Option<Result<(), FormFault>> {
    let t = made(alloc, text)?;
    Some(form(&t))
}

#[test]
fn the_first_broken_rule_is_told(rt: HostRuntime) {
    same(&rt, verdict(rt.alloc(), EQUAL_PERIODS), Some(Ok(())));
    same(
        &rt,
        verdict(rt.alloc(), UNEQUAL_PERIODS),
        Some(Err(UNEQUAL)),
    );
}
