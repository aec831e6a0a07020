//! The types of operators.
ghost use Rattle.std.specs.Prelude.{◌≡◌};
ghost use Rattle.htl_model.specs.Functions.{type_one, type_two, type_choose as type_of_choice, same_type as type_of_equals};

use htl_base::{BinOp, Ty, UnOp};

/// The type of a unary operator's result. None exactly where its operand has a wrong type.
pub fn unary_type(op: UnOp, operand: Ty) -> Option<Ty>
    ensures { result ≡ type_one op (Some operand) }
{
    match (op, operand) {
        (UnOp::Neg, Ty::Int) => Some(Ty::Int),
        (UnOp::Not, Ty::Bool) => Some(Ty::Bool),
        _ => None,
    }
}

/// The type of a binary operator's result. None exactly where its operands have wrong types.
pub fn binary_type(op: BinOp, left: Ty, right: Ty) -> Option<Ty>
    ensures { result ≡ type_two op (Some left) (Some right) }
{
    match op {
        BinOp::Add | BinOp::Sub | BinOp::Mul | BinOp::Div | BinOp::Rem => match (left, right) {
            (Ty::Int, Ty::Int) => Some(Ty::Int),
            _ => None,
        },
        BinOp::Lt | BinOp::Le | BinOp::Gt | BinOp::Ge => match (left, right) {
            (Ty::Int, Ty::Int) => Some(Ty::Bool),
            _ => None,
        },
        BinOp::Eq | BinOp::Ne => match common_type(left, right) {
            Some(_) => Some(Ty::Bool),
            None => None,
        },
        BinOp::And | BinOp::Or => match (left, right) {
            (Ty::Bool, Ty::Bool) => Some(Ty::Bool),
            _ => None,
        },
    }
}

/// The type of `if` over a condition and two choices. None exactly where the condition is no bool or the
/// choices differ in type.
pub fn choice_type(condition: Ty, first: Ty, second: Ty) -> Option<Ty>
    ensures { result ≡ type_of_choice (Some condition) (Some first) (Some second) }
{
    match condition {
        Ty::Bool => common_type(first, second),
        Ty::Int => None,
    }
}

// The one type of two values.
fn common_type(left: Ty, right: Ty) -> Option<Ty>
    ensures { result ≡ type_of_equals (Some left) (Some right) }
{
    match (left, right) {
        (Ty::Int, Ty::Int) => Some(Ty::Int),
        (Ty::Bool, Ty::Bool) => Some(Ty::Bool),
        _ => None,
    }
}
