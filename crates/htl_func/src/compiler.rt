// Expressions into code.
ghost use Rattle.std.specs.Prelude.{◌≡◌, ◌↔◌, ◌⊎◌, ◌<◌, ◌≤◌, ℕ, length, IfOk, IsOk, OnOk, MatchResult};
ghost use Rattle.htl_base.specs.declared.limits.TheConstants as limit;
ghost use Rattle.htl_model.specs.Functions.{term_of, type_of as type_of_term, held as held_by, postfix};
ghost use Rattle.htl_model.specs.Small.{ArgumentsBelow, nodes};
ghost use Rattle.htl_func.specs.Expressions.{ill_typed};
ghost use Rattle.htl_func.specs.Compiled.{IsFunction, IsCompiled};
ghost use Rattle.htl_func.specs.Faults.{IsFault};

use crate::depth::held;
use crate::emit::emit;
use crate::types::type_of;
use htl_base::limits::MAX_STACK;
use htl_base::{Seq, Ty};
use htl_model::{Code, Expr};
use std::alloc::{AllocError, Global};

/// Why an expression isn't compiled.
#[derive(Clone, Copy, PartialEq, Eq, Debug)]
pub enum FnFault {
    /// An operator's operands have wrong types, and this is the token of the first such operator, where operands
    /// are judged from left to right and before their operator; or there is none, the whole hasn't the type that is
    /// wanted, and this is the expression's first token.
    IllTyped { token: u32 },
    /// The types agree and more than 64 values are held at once; the expression's first token.
    Deep { token: u32 },
    /// No memory was left.
    Memory,
}

/// The code of an expression: its postfix form, whose function is the expression's. `first` is the number of the
/// expression's first token, brackets counted; `args` are the types of the arguments and `want` is the type that
/// the whole must have. The expression has at most 512 nodes.
pub fn compile_fn(
    alloc: Global,
    first: u32,
    e: &Expr,
    args: &[Ty],
    want: Ty,
) -> Result<Code, FnFault>
    requires nodes { nodes (term_of e.now) ≤ limit.MAX_INSTRUCTIONS }
    requires types { length args.now ≤ limit.MAX_ARGUMENTS }
    requires arguments { ArgumentsBelow (length args.now) (term_of e.now) }
    ensures compiled { IfOk result (IsCompiled args.now want (term_of e.now)) }
    ensures complete { IsFunction args.now want (term_of e.now) → IsOk result ⊎ (result ≡ Err FnFault.Memory) }
    ensures ill_typed { (token : ℕ) → (result ≡ Err (FnFault.IllTyped token))
        ↔ (ill_typed first args.now want (term_of e.now) ≡ Some token) }
    ensures deep { (token : ℕ) → (result ≡ Err (FnFault.Deep token))
        ↔ ((token ≡ first) × (type_of_term args.now (term_of e.now) ≡ Some want) × (limit.MAX_STACK < held_by (term_of e.now))) }
{
    if let Err(fault) = judge(first, e, args, want) {
        return Err(fault);
    }
    match code_of(alloc, e, args, want) {
        Ok(code) => Ok(code),
        Err(_) => Err(FnFault::Memory),
    }
}

// Whether the expression is a function, or its first fault.
fn judge(first: u32, e: &Expr, args: &[Ty], want: Ty) -> Result<(), FnFault>
    requires nodes { nodes (term_of e.now) ≤ limit.MAX_INSTRUCTIONS }
    requires arguments { ArgumentsBelow (length args.now) (term_of e.now) }
    ensures { MatchResult result (λ _. IsFunction args.now want (term_of e.now)) (IsFault first args.now want (term_of e.now)) }
{
    match type_of(e, args) {
        Ok(ty) if ty == want => {}
        Ok(_) => return Err(FnFault::IllTyped { token: first }),
        Err(token) => return Err(FnFault::IllTyped { token }),
    }
    if held(e) as usize > MAX_STACK {
        return Err(FnFault::Deep { token: first });
    }
    Ok(())
}

// The code of an expression that is a function.
fn code_of(alloc: Global, e: &Expr, args: &[Ty], want: Ty) -> Result<Code, AllocError>
    requires nodes { nodes (term_of e.now) ≤ limit.MAX_INSTRUCTIONS }
    requires function { IsFunction args.now want (term_of e.now) }
    ensures { IfOk result (IsCompiled args.now want (term_of e.now)) }
{
    let mut instrs = Vec::new(alloc);
    emit(e, &mut instrs)?;
    let types = Vec::from_slice(alloc, args)?;
    Ok(Code {
        args: Seq::new(types),
        want,
        instrs: Seq::new(instrs),
    })
}
