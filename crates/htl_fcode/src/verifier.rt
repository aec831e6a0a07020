// Code that the function machine takes.
ghost use Rattle.std.specs.Prelude.{◌≡◌, ◌↔◌, ◌≤◌, length, [], ◌∷◌, IsTrue, MatchOption, IfSome, IfNone};
ghost use Rattle.htl_base.specs.declared.limits.TheConstants as limit;
ghost use Rattle.htl_model.specs.Functions.{Verified as IsVerified};
ghost use Rattle.htl_fcode.specs.Stacks.{types_after, types_run, operation_of};

use crate::operation::Operation;
use crate::type_stack::TypeStack;
use crate::typing::{binary_type, choice_type, unary_type};
use htl_base::Ty;
use htl_base::limits::MAX_INSTRUCTIONS;
use htl_model::{Code, FInstr};

/// Code that is verified, so that the function machine runs it without a test.
#[derive(Clone, Copy)]
pub struct Verified<'a> {
    /// The code.
    pub code: &'a Code,
    ghost verified: { ∥ IsVerified code.now ∥₁ },
}

impl<'a> Verified<'a> {
    /// Verified code, which isn't tested again.
    pub fn of(code: &'a Code) -> Verified<'a>
        requires { IsVerified code.now }
        ensures { result.code.now ≡ code.now }
    {
        Verified { code }
    }
}

/// Tests code. None exactly where it isn't verified: it has no instruction or more than 512, isn't the postfix
/// form of an expression, has an operator whose operands have wrong types, an argument out of range or a bool
/// that is neither 0 nor 1, holds more than 64 values, or its result isn't of the declared type.
pub fn verify(code: &Code) -> Option<Verified<'_>>
    ensures code { IfSome result (λ v. v.code.now ≡ code.now) }
    ensures verified { IfSome result (λ _. IsVerified code.now) }
    ensures refused { IfNone result (IsVerified code.now → ⊥) }
{
    if is_short(code) && keeps_types(code) {
        Some(Verified { code })
    } else {
        None
    }
}

// Whether there aren't too many instructions.
fn is_short(code: &Code) -> bool
    ensures { IsTrue result ↔ (length code.now.instrs ≤ limit.MAX_INSTRUCTIONS) }
{
    code.instrs.as_slice().len() <= MAX_INSTRUCTIONS
}

// Whether the run over types ends with the declared type alone.
fn keeps_types(code: &Code) -> bool
    ensures { IsTrue result ↔ (types_run code.now.args code.now.instrs [] ≡ Some (code.now.want ∷ [])) }
{
    let types = code.args.as_slice();
    let instrs = code.instrs.as_slice();
    let mut stack = TypeStack::new();
    for instr in instrs {
        if type_step(*instr, types, &mut stack).is_none() {
            return false;
        }
    }
    stack.is_only(code.want)
}

// The types on the stack after an instruction. None exactly where it lacks an operand, an argument or room, its
// operands have wrong types, or it puts a bool that is neither 0 nor 1.
fn type_step(instr: FInstr, args: &[Ty], stack: &mut TypeStack) -> Option<()>
    ensures { MatchOption result (types_after args.now (operation_of instr) stack.old ≡ None)
        (λ _. types_after args.now (operation_of instr) stack.old ≡ Some stack.new) }
{
    match Operation::of(instr) {
        Operation::Number(_) => stack.try_push(Ty::Int),
        Operation::Truth(x) => if x <= 1 {
            stack.try_push(Ty::Bool)
        } else {
            None
        },
        Operation::Argument(k) => stack.try_push(*args.get(k as usize)?),
        Operation::Unary(op) => {
            let operand = stack.pop()?;
            stack.push(unary_type(op, operand)?);
            Some(())
        }
        Operation::Binary(op) => {
            let right = stack.pop()?;
            let left = stack.pop()?;
            stack.push(binary_type(op, left, right)?);
            Some(())
        }
        Operation::Choose => {
            let second = stack.pop()?;
            let first = stack.pop()?;
            let condition = stack.pop()?;
            stack.push(choice_type(condition, first, second)?);
            Some(())
        }
    }
}
