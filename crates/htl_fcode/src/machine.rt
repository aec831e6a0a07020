// The function machine.
ghost use Rattle.std.specs.Prelude.{◌≡◌, IsSome};
ghost use Rattle.htl_model.specs.Tables.{Compiled, fun};
ghost use Rattle.htl_model.specs.Ranges.{FitsType};
ghost use Rattle.htl_fcode.specs.Arguments.{AreArguments};
ghost use Rattle.htl_fcode.specs.Stacks.{operation_of, values_after};

use crate::Verified;
use crate::operation::Operation;
use crate::value_stack::ValueStack;
use htl_base::Value;
use htl_model::FInstr;
use htl_model::eval::{combine, negate};

/// The value of a function for its arguments: as many as the code declares, those of type bool 0 or 1.
pub fn eval(v: Verified<'_>, args: &[Value]) -> Value
    requires { AreArguments v.code.now.args args.now }
    ensures value { result ≡ fun (Compiled v.entry.code.now) args.now }
    ensures fit { FitsType v.entry.code.now.want result }
{
    let mut stack = ValueStack::new();
    for instr in v.code.instrs.as_slice() {
        step(*instr, args, &mut stack);
    }
    stack.pop()
}

// Carries one instruction out on the stack, which has the operands and the room that it needs.
fn step(instr: FInstr, args: &[Value], stack: &mut ValueStack)
    requires { IsSome (values_after args.now (operation_of instr) stack.old) }
    ensures { values_after args.now (operation_of instr) stack.old ≡ Some stack.new }
{
    match Operation::of(instr) {
        Operation::Number(x) => stack.push(x),
        Operation::Truth(x) => stack.push(Value::from(x)),
        Operation::Argument(k) => stack.push(args[k as usize]),
        Operation::Unary(op) => {
            let operand = stack.pop();
            stack.push(negate(op, operand));
        }
        Operation::Binary(op) => {
            let right = stack.pop();
            let left = stack.pop();
            stack.push(combine(op, left, right));
        }
        Operation::Choose => {
            let second = stack.pop();
            let first = stack.pop();
            let condition = stack.pop();
            stack.push(if condition == 0 { second } else { first });
        }
    }
}
