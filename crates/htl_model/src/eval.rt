//! The values of operators.
ghost use Rattle.std.specs.Prelude.{◌≡◌};
ghost use Rattle.htl_model.specs.Functions.{combine as combined, negate as negated, of_test};

use htl_base::{BinOp, UnOp, Value};

// The value of a test: 1 where it holds, else 0.
fn flag(holds: bool) -> Value
    ensures { result ≡ of_test holds }
{
    if holds { 1 } else { 0 }
}

/// The value of an operator on one value. A negative wraps; `!` gives 1 for 0, else 0.
pub fn negate(op: UnOp, x: Value) -> Value
    ensures { result ≡ negated op x }
{
    match op {
        UnOp::Neg => x.wrapping_neg(),
        UnOp::Not => flag(x == 0),
    }
}

/// The value of an operator on two values. Sums, differences and products wrap. A quotient by 0 and a remainder by 0 are 0; else a
/// quotient truncates, and a remainder has the sign of `x`. A comparison gives 1 or 0.
pub fn combine(op: BinOp, x: Value, y: Value) -> Value
    ensures { result ≡ combined op x y }
{
    match op {
        BinOp::Add => x.wrapping_add(y),
        BinOp::Sub => x.wrapping_sub(y),
        BinOp::Mul => x.wrapping_mul(y),
        BinOp::Div => if y == 0 { 0 } else { x.wrapping_div(y) },
        BinOp::Rem => if y == 0 { 0 } else { x.wrapping_rem(y) },
        BinOp::Lt => flag(x < y),
        BinOp::Le => flag(x <= y),
        BinOp::Gt => flag(x > y),
        BinOp::Ge => flag(x >= y),
        BinOp::Eq => flag(x == y),
        BinOp::Ne => flag(x != y),
        BinOp::And => if x == 0 { 0 } else { y },
        BinOp::Or => if x == 0 { y } else { 1 },
    }
}
