// The operators.
ghost use Rattle.std.specs.Prelude.{◌≡◌, ◌<◌, Some, MatchOption};
ghost use Rattle.htl_text.specs.Grammar.{prefix_of};
ghost use Rattle.htl_parse.specs.Levels.{level_of, operator_at};

use htl_base::{BinOp, UnOp};
use htl_text::Sign;

/// The level of comparisons, which don't follow one another.
pub const COMPARISON: u8 = 2;

/// The level of an operand, behind those of all operators that stand between operands.
pub const OPERAND: u8 = 5;

/// An operator that stands between operands, with its level: 0 `||`, 1 `&&`, 2 comparisons, 3 `+` and `-`, 4 `*`,
/// `/` and `%`.
pub fn binary_of(sign: Sign) -> Option<(u8, BinOp)>
    ensures { MatchOption result (level_of sign ≡ 5)
        (λ x. (x.0 ≡ level_of sign) × (x.0 < 5) × (operator_at x.0 sign ≡ Some x.1)) }
{
    match sign {
        Sign::Or => Some((0, BinOp::Or)),
        Sign::And => Some((1, BinOp::And)),
        Sign::Less => Some((COMPARISON, BinOp::Lt)),
        Sign::LessEqual => Some((COMPARISON, BinOp::Le)),
        Sign::Greater => Some((COMPARISON, BinOp::Gt)),
        Sign::GreaterEqual => Some((COMPARISON, BinOp::Ge)),
        Sign::Equal => Some((COMPARISON, BinOp::Eq)),
        Sign::NotEqual => Some((COMPARISON, BinOp::Ne)),
        Sign::Plus => Some((3, BinOp::Add)),
        Sign::Minus => Some((3, BinOp::Sub)),
        Sign::Star => Some((4, BinOp::Mul)),
        Sign::Slash => Some((4, BinOp::Div)),
        Sign::Percent => Some((4, BinOp::Rem)),
        _ => None,
    }
}

/// `-` or `!` before its operand
pub fn prefix_of(sign: Sign) -> Option<UnOp>
    ensures { result ≡ prefix_of sign }
{
    match sign {
        Sign::Minus => Some(UnOp::Neg),
        Sign::Not => Some(UnOp::Not),
        _ => None,
    }
}
