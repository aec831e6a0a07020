// The types of expressions.
ghost use Rattle.std.specs.Prelude.{◌≡◌, length, MatchResult};
ghost use Rattle.htl_model.specs.Functions.{term_of, type_of as type_of_term};
ghost use Rattle.htl_model.specs.Small.{ArgumentsBelow};
ghost use Rattle.htl_func.specs.Expressions.{first_ill};

use htl_base::Ty;
use htl_fcode::typing::{binary_type, choice_type, unary_type};
use htl_model::Expr;

/// The type of an expression; or the token of its first operator whose operands have wrong types, where
/// operands are judged from left to right and before their operator.
pub fn type_of(e: &Expr, args: &[Ty]) -> Result<Ty, u32>
    requires { ArgumentsBelow (length args.now) (term_of e.now) }
    ensures { MatchResult result
        (λ ty. (type_of_term args.now (term_of e.now) ≡ Some ty) × (first_ill args.now (term_of e.now) ≡ None))
        (λ token. first_ill args.now (term_of e.now) ≡ Some token) }
{
    match e {
        Expr::Int { .. } => Ok(Ty::Int),
        Expr::Bool { .. } => Ok(Ty::Bool),
        Expr::Arg { k, .. } => Ok(args[*k as usize]),
        Expr::Unary { token, op, e } => {
            let operand = type_of(e, args)?;
            unary_type(*op, operand).ok_or(*token)
        }
        Expr::Binary { token, op, l, r } => {
            let left = type_of(l, args)?;
            let right = type_of(r, args)?;
            binary_type(*op, left, right).ok_or(*token)
        }
        Expr::Choose { token, c, a, b } => {
            let condition = type_of(c, args)?;
            let first = type_of(a, args)?;
            let second = type_of(b, args)?;
            choice_type(condition, first, second).ok_or(*token)
        }
    }
}
