// The lists of a file as an object.
ghost use Rattle.std.specs.Prelude.{◌≡◌, map, IfOk};
ghost use Rattle.htl_model.specs.Tables.{Compiled, fun_of};
ghost use Rattle.htl_object.specs.Files.{IsFrontInRange};
ghost use Rattle.htl_object.specs.Lists.{object_of_lists};
ghost use Rattle.htl_object.specs.declared.lists.Anchors.{Anchors as AnchorsOf};

use crate::lists::{Anchors, Lists};
use crate::object::Object;
use htl_base::Seq;
use htl_ecode::ECode;
use htl_model::{Code, Function};
use std::alloc::{AllocError, Global};
use std::mem;

fn functions(alloc: Global, codes: Vec<Code>) -> Result<Vec<Function>, AllocError>
    ensures { IfOk result (λ v. map fun_of v.items ≡ map (λ c. Compiled c) codes.items) }
{
    let mut found = Vec::new(alloc);
    for code in codes {
        found.push(Function::Code(code))?;
    }
    Ok(found)
}

// The addresses of all modes, as E code whose instructions are still to come.
fn addresses(alloc: Global, anchors: &[Anchors]) -> Result<ECode, AllocError>
    ensures enter { IfOk result (λ e. e.enter ≡ map (λ (a : AnchorsOf). a.enter) anchors.now) }
    ensures begin { IfOk result (λ e. e.begin ≡ map (λ (a : AnchorsOf). a.begin) anchors.now) }
    ensures decide { IfOk result (λ e. e.decide ≡ map (λ (a : AnchorsOf). a.decide) anchors.now) }
{
    let mut enter = Vec::new(alloc);
    let mut begin = Vec::new(alloc);
    let mut decide = Vec::new(alloc);
    for a in anchors {
        enter.push(a.enter)?;
        begin.push(a.begin)?;
        decide.push(a.decide)?;
    }
    Ok(ECode {
        enter: Seq::new(enter),
        begin: Seq::new(begin),
        decide: Seq::new(decide),
        instrs: Seq::new(Vec::new(alloc)),
    })
}

/// The object of the lists of a file, which are in range but for the schedules.
pub fn assemble(alloc: Global, mut l: Lists) -> Result<Object, AllocError>
    requires { IsFrontInRange l }
    ensures { IfOk result (λ o. o ≡ object_of_lists l) }
{
    let ecode = addresses(alloc, l.anchors.as_slice())?;
    let codes = mem::replace(&mut l.functions, Seq::new(Vec::new(alloc)));
    let functions = functions(alloc, codes.into_vec())?;
    Ok(l.into_object(functions, ecode))
}
