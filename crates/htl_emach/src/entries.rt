// Where modules begin.
ghost use Rattle.std.specs.Prelude.{◌≡◌, map, get_or, IfOk, None, Some};
ghost use Rattle.htl_emach.specs.Calendars.{entry_of, first_trigger};

use crate::trigger::Trigger;
use htl_ecode::ECode;
use htl_model::{Module, Tables};
use std::alloc::{AllocError, Global};

// The address of a mode; 0 where there is none.
fn address_of(list: &[u32], mode: u16) -> u32
    ensures { result ≡ get_or list.now mode 0 }
{
    if (mode as usize) < list.len() {
        list[mode as usize]
    } else {
        0
    }
}

// Where a module begins that is forked.
pub(crate) fn entry(t: &Tables, code: &ECode, module: u16) -> u32
    ensures { result ≡ entry_of t.now code.now «module» }
{
    let parts = t.parts();
    let modules = parts.modules.as_slice();
    if module as usize >= modules.len() {
        return 0;
    }
    let x = &modules[module as usize];
    address_of(code.enter.as_slice(), x.start)
}

// The trigger of a module before the first instant.
fn first_trigger(code: &ECode, module: &Module) -> Option<Trigger>
    ensures { result ≡ first_trigger code.now «module».now }
{
    match module.parent {
        Some(_) => None,
        None => Some(Trigger {
            at: 0,
            target: address_of(code.enter.as_slice(), module.start),
        }),
    }
}

// The triggers of the switch phase before the first instant.
pub(crate) fn first_triggers(
    alloc: Global,
    t: &Tables,
    code: &ECode,
) -> Result<Vec<Option<Trigger>>, AllocError>
    ensures { IfOk result (λ v. v.items ≡ map (first_trigger code.now) t.now.modules) }
{
    let parts = t.parts();
    let modules = parts.modules.as_slice();
    let mut list = Vec::new(alloc);
    for k in 0..modules.len() {
        list.push(first_trigger(code, &modules[k]))?;
    }
    Ok(list)
}
