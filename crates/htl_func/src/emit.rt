// The postfix form of expressions.
ghost use Rattle.std.specs.Prelude.{◌≡◌, ◌++◌, OnOk};
ghost use Rattle.htl_model.specs.Functions.{term_of, postfix, of_unary, of_binary};

use htl_base::{BinOp, UnOp};
use htl_model::{Expr, FInstr};
use std::alloc::AllocError;

/// Puts the postfix form of an expression behind the instructions: operands from left to right, then the operation.
pub fn emit(e: &Expr, instrs: &mut Vec<FInstr>) -> Result<(), AllocError>
    ensures { OnOk result (instrs.new.items ≡ instrs.old.items ++ postfix (term_of e.now)) }
{
    match e {
        Expr::Int { x, .. } => instrs.push(FInstr::Int { x: *x })?,
        Expr::Bool { x, .. } => instrs.push(FInstr::Bool { x: *x as u8 })?,
        Expr::Arg { k, .. } => instrs.push(FInstr::Arg { k: *k })?,
        Expr::Unary { op, e, .. } => {
            emit(e, instrs)?;
            instrs.push(of_unary(*op))?;
        }
        Expr::Binary { op, l, r, .. } => {
            emit(l, instrs)?;
            emit(r, instrs)?;
            instrs.push(of_binary(*op))?;
        }
        Expr::Choose { c, a, b, .. } => {
            emit(c, instrs)?;
            emit(a, instrs)?;
            emit(b, instrs)?;
            instrs.push(FInstr::Choose)?;
        }
    }
    Ok(())
}

// The instruction of a unary operator.
fn of_unary(op: UnOp) -> FInstr
    ensures { result ≡ of_unary op }
{
    match op {
        UnOp::Neg => FInstr::Neg,
        UnOp::Not => FInstr::Not,
    }
}

// The instruction of a binary operator.
fn of_binary(op: BinOp) -> FInstr
    ensures { result ≡ of_binary op }
{
    match op {
        BinOp::Add => FInstr::Add,
        BinOp::Sub => FInstr::Sub,
        BinOp::Mul => FInstr::Mul,
        BinOp::Div => FInstr::Div,
        BinOp::Rem => FInstr::Rem,
        BinOp::Lt => FInstr::Lt,
        BinOp::Le => FInstr::Le,
        BinOp::Gt => FInstr::Gt,
        BinOp::Ge => FInstr::Ge,
        BinOp::Eq => FInstr::Eq,
        BinOp::Ne => FInstr::Ne,
        BinOp::And => FInstr::And,
        BinOp::Or => FInstr::Or,
    }
}
