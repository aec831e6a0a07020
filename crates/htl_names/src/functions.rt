// The functions of outputs, and expressions with places of arguments for names.
ghost use Rattle.std.specs.Prelude.{◌≡◌, ◌≤◌, ℕ, IfOk, ◌++◌, OnOk, map};
ghost use Rattle.htl_model.specs.Functions.{term_of};
ghost use Rattle.htl_model.specs.Tables.{fun_of};
ghost use Rattle.htl_text.specs.Nodes.{outs_of};
ghost use Rattle.htl_text.specs.declared.tree.Id.{Id as AnId};
ghost use Rattle.htl_names.specs.Flat.{argument_place, term_by, outs_functions};

use crate::Done;
use crate::key::Space;
use crate::place::ModuleAt;
use crate::tables::{Layout, Source};
use htl_model::{Expr, Function};
use htl_text::{Id, Operand, OutNodes, Part};
use std::alloc::AllocError;

// ---- expressions

/// What the names of an expression stand for.
#[derive(Clone, Copy)]
pub enum Arguments<'a> {
    /// The inputs of this task of a module.
    Inputs(ModuleAt, usize),
    /// The communicators that a switch reads.
    Reads(&'a [u16]),
}

/// The place of the argument that a name means.
fn place(layout: &Layout, arguments: &Arguments<'_>, id: &Id) -> u16
    requires { argument_place layout.now arguments.now id.now ≤ 4097 }
    ensures { result ≡ argument_place layout.now arguments.now id.now }
{
    let reads = match *arguments {
        Arguments::Inputs(at, task) => {
            let inputs = Space::Params.of(at.program, at.module, task);
            return layout.meaning(inputs, id.name) as u16;
        }
        Arguments::Reads(reads) => reads,
    };
    let comm = layout.comm(id);
    for k in 0..reads.len() {
        if reads[k] as usize == comm {
            return k as u16;
        }
    }
    reads.len() as u16
}

/// The expression with the places of its names.
#[cycle(formula)]
pub fn formula(
    source: &Source<'_>,
    arguments: &Arguments<'_>,
    e: &Operand<'_>,
) -> Result<Expr, AllocError>
    requires { (id : AnId) → argument_place source.now.layout.now arguments.now id ≤ 4097 }
    ensures { IfOk result (λ x. term_of x ≡ term_by (argument_place source.now.layout.now arguments.now) e.now) }
{
    match e.part() {
        Part::Int { token, x } => Ok(Expr::Int { token, x }),
        Part::Bool { token, x } => Ok(Expr::Bool { token, x }),
        Part::Named { id } => Ok(Expr::Arg {
            token: id.token,
            k: place(source.layout, arguments, &id),
        }),
        Part::Unary { token, op, e } => Ok(Expr::Unary {
            token,
            op,
            e: boxed(source, arguments, e)?,
        }),
        Part::Binary { token, op, l, r } => Ok(Expr::Binary {
            token,
            op,
            l: boxed(source, arguments, l)?,
            r: boxed(source, arguments, r)?,
        }),
        Part::Choose { token, c, a, b } => Ok(Expr::Choose {
            token,
            c: boxed(source, arguments, c)?,
            a: boxed(source, arguments, a)?,
            b: boxed(source, arguments, b)?,
        }),
    }
}

// In a function of its own, which moves an operand into its box once.
#[cycle(formula)]
fn boxed(
    source: &Source<'_>,
    arguments: &Arguments<'_>,
    e: Operand<'_>,
) -> Result<Box<Expr>, AllocError>
    requires { (id : AnId) → argument_place source.now.layout.now arguments.now id ≤ 4097 }
    ensures { IfOk result (λ x. term_of x.value ≡ term_by (argument_place source.now.layout.now arguments.now) e.entry) }
{
    Ok(Box::new(source.alloc, formula(source, arguments, &e)?)?)
}

// ---- the functions of outputs

/// Puts one for each output of a task of a module behind others: none of an abstract one.
pub fn put_outputs(
    source: &Source<'_>,
    at: ModuleAt,
    task: usize,
    outputs: &OutNodes,
    into: &mut Vec<Function>,
) -> Done
    ensures { OnOk result (map fun_of into.new.items ≡ map fun_of into.old.items
        ++ outs_functions source.now.layout.now at.program at.«module» task (outs_of outputs.now)) }
{
    let OutNodes::Concrete { outs } = outputs else {
        return Ok(());
    };
    let outs = outs.as_slice();
    for k in 0..outs.len() {
        let out = &outs[k];
        let e = formula(source, &Arguments::Inputs(at, task), &out.value.whole())?;
        let first = out.first;
        into.push(Function::Expr { first, e })?;
    }
    Ok(())
}
