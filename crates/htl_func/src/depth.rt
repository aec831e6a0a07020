// How many values an expression holds.
ghost use Rattle.std.specs.Prelude.{◌≡◌, ◌≤◌};
ghost use Rattle.htl_base.specs.declared.limits.TheConstants as limit;
ghost use Rattle.htl_model.specs.Functions.{term_of, held as held_by};
ghost use Rattle.htl_model.specs.Small.{nodes};

use htl_model::Expr;

/// How many values are held at once while an expression is evaluated, operands from left to right.
pub fn held(e: &Expr) -> u32
    requires { nodes (term_of e.now) ≤ limit.MAX_INSTRUCTIONS }
    ensures count { result ≡ held_by (term_of e.now) }
    ensures some { 1 ≤ result }
    ensures few { result ≤ nodes (term_of e.now) }
{
    match e {
        Expr::Int { .. } | Expr::Bool { .. } | Expr::Arg { .. } => 1,
        Expr::Unary { e, .. } => held(e),
        Expr::Binary { l, r, .. } => {
            let left = held(l);
            let right = held(r);
            left.max(1 + right)
        }
        Expr::Choose { c, a, b, .. } => {
            let condition = held(c);
            let first = held(a);
            let second = held(b);
            condition.max(1 + first).max(2 + second)
        }
    }
}
