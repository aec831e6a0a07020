// The kinds of instructions.
ghost use Rattle.std.specs.Prelude.{◌≡◌};
ghost use Rattle.htl_fcode.specs.Stacks.{operation_of};

use htl_base::{BinOp, UnOp, Value};
use htl_model::FInstr;

/// What an instruction does with the stack.
#[derive(Clone, Copy)]
pub enum Operation {
    /// Puts a number.
    Number(Value),
    /// Puts a bool.
    Truth(u8),
    /// Puts an argument, by its place.
    Argument(u16),
    /// Takes one value and puts the operator's result.
    Unary(UnOp),
    /// Takes two values, the right one first, and puts the operator's result.
    Binary(BinOp),
    /// Takes three values and puts one of the upper two: the lower of them where the bool below holds, else the upper.
    Choose,
}

impl Operation {
    /// The kind of an instruction.
    pub fn of(instr: FInstr) -> Operation
        ensures { result ≡ operation_of instr }
    {
        match instr {
            FInstr::Int { x } => Operation::Number(x),
            FInstr::Bool { x } => Operation::Truth(x),
            FInstr::Arg { k } => Operation::Argument(k),
            FInstr::Neg => Operation::Unary(UnOp::Neg),
            FInstr::Not => Operation::Unary(UnOp::Not),
            FInstr::Add => Operation::Binary(BinOp::Add),
            FInstr::Sub => Operation::Binary(BinOp::Sub),
            FInstr::Mul => Operation::Binary(BinOp::Mul),
            FInstr::Div => Operation::Binary(BinOp::Div),
            FInstr::Rem => Operation::Binary(BinOp::Rem),
            FInstr::Lt => Operation::Binary(BinOp::Lt),
            FInstr::Le => Operation::Binary(BinOp::Le),
            FInstr::Gt => Operation::Binary(BinOp::Gt),
            FInstr::Ge => Operation::Binary(BinOp::Ge),
            FInstr::Eq => Operation::Binary(BinOp::Eq),
            FInstr::Ne => Operation::Binary(BinOp::Ne),
            FInstr::And => Operation::Binary(BinOp::And),
            FInstr::Or => Operation::Binary(BinOp::Or),
            FInstr::Choose => Operation::Choose,
        }
    }
}
