// Functions compiled and run: operators at their edges against values that were worked out elsewhere, and the
// places of faults.
ghost use Rattle.std.specs.Prelude.{◌≡◌, ◌≤◌, ◌+◌, ◌*◌, IfOk, length};
ghost use Rattle.htl_model.specs.Functions.{Number, Truth, Arg, Unary, Binary, Choose, term_of};
ghost use Rattle.htl_model.specs.Small.{ArgumentsBelow, nodes};

use crate::asserts::{same, same_in};
use htl_base::{BinOp, Ty, UnOp, Value};
use htl_fcode::{Verified, eval};
use htl_func::{FnFault, compile_fn};
use htl_model::{Code, Expr, FInstr};
use std::alloc::{AllocError, Global};

const MIN: Value = Value::MIN;

const MAX: Value = Value::MAX;

// From the least to the greatest.
const EDGES: [Value; 6] = [MIN, -7, -1, 0, 2, MAX];

// Rows by the left side, columns by the right one.
const ARITHMETIC: [(BinOp, [[Value; 6]; 6]); 5] = [
    (
        BinOp::Add,
        [
            [0, 9223372036854775801, MAX, MIN, -9223372036854775806, -1],
            [9223372036854775801, -14, -8, -7, -5, 9223372036854775800],
            [MAX, -8, -2, -1, 1, 9223372036854775806],
            [MIN, -7, -1, 0, 2, MAX],
            [-9223372036854775806, -5, 1, 2, 4, -9223372036854775807],
            [
                -1,
                9223372036854775800,
                9223372036854775806,
                MAX,
                -9223372036854775807,
                -2,
            ],
        ],
    ),
    (
        BinOp::Sub,
        [
            [
                0,
                -9223372036854775801,
                -9223372036854775807,
                MIN,
                9223372036854775806,
                1,
            ],
            [9223372036854775801, 0, -6, -7, -9, 9223372036854775802],
            [MAX, 6, 0, -1, -3, MIN],
            [MIN, 7, 1, 0, -2, -9223372036854775807],
            [-9223372036854775806, 9, 3, 2, 0, -9223372036854775805],
            [-1, -9223372036854775802, MIN, MAX, 9223372036854775805, 0],
        ],
    ),
    (
        BinOp::Mul,
        [
            [0, MIN, MIN, 0, 0, MIN],
            [MIN, 49, 7, 0, -14, -9223372036854775801],
            [MIN, 7, 1, 0, -2, -9223372036854775807],
            [0, 0, 0, 0, 0, 0],
            [0, -14, -2, 0, 4, -2],
            [MIN, -9223372036854775801, -9223372036854775807, 0, -2, 1],
        ],
    ),
    (
        BinOp::Div,
        [
            [1, 1317624576693539401, MIN, 0, -4611686018427387904, -1],
            [0, 1, 7, 0, -3, 0],
            [0, 0, 1, 0, 0, 0],
            [0, 0, 0, 0, 0, 0],
            [0, 0, -2, 0, 1, 0],
            [
                0,
                -1317624576693539401,
                -9223372036854775807,
                0,
                4611686018427387903,
                1,
            ],
        ],
    ),
    (
        BinOp::Rem,
        [
            [0, -1, 0, 0, 0, -1],
            [-7, 0, 0, 0, -1, -7],
            [-1, -1, 0, 0, -1, -1],
            [0, 0, 0, 0, 0, 0],
            [2, 2, 0, 0, 0, 2],
            [MAX, 0, 0, 0, 1, 0],
        ],
    ),
];

// Where the left side is below, at and above the right one.
const COMPARISONS: [(BinOp, [Value; 3]); 6] = [
    (BinOp::Lt, [1, 0, 0]),
    (BinOp::Le, [1, 1, 0]),
    (BinOp::Gt, [0, 0, 1]),
    (BinOp::Ge, [0, 1, 1]),
    (BinOp::Eq, [0, 1, 0]),
    (BinOp::Ne, [1, 0, 1]),
];

// Of false and false, false and true, true and false, true and true.
const OF_BOOLS: [(BinOp, [Value; 4]); 4] = [
    (BinOp::And, [0, 0, 0, 1]),
    (BinOp::Or, [0, 1, 1, 1]),
    (BinOp::Eq, [1, 0, 0, 1]),
    (BinOp::Ne, [0, 1, 1, 0]),
];

fn number(x: Value) -> Expr
    ensures { term_of result ≡ Number 0 x }
{
    Expr::Int { token: 0, x }
}

fn truth(x: bool) -> Expr
    ensures { term_of result ≡ Truth 0 x }
{
    Expr::Bool { token: 0, x }
}

fn unary(alloc: Global, token: u32, op: UnOp, e: Expr) -> Result<Expr, AllocError>
    ensures { IfOk result (λ r. term_of r ≡ Unary token op (term_of e)) }
{
    Ok(Expr::Unary {
        token,
        op,
        e: Box::new(alloc, e)?,
    })
}

fn binary(alloc: Global, token: u32, op: BinOp, l: Expr, r: Expr) -> Result<Expr, AllocError>
    ensures { IfOk result (λ e. term_of e ≡ Binary token op (term_of l) (term_of r)) }
{
    let l = Box::new(alloc, l)?;
    let r = Box::new(alloc, r)?;
    Ok(Expr::Binary { token, op, l, r })
}

fn choose(alloc: Global, token: u32, c: Expr, a: Expr, b: Expr) -> Result<Expr, AllocError>
    ensures { IfOk result (λ e. term_of e ≡ Choose token (term_of c) (term_of a) (term_of b)) }
{
    let c = Box::new(alloc, c)?;
    let a = Box::new(alloc, a)?;
    let b = Box::new(alloc, b)?;
    Ok(Expr::Choose { token, c, a, b })
}

fn argument(token: u32, k: u16) -> Expr
    ensures { term_of result ≡ Arg token k }
{
    Expr::Arg { token, k }
}

// A number as a source writes it: the least one as a difference, another negative one with `-`.
fn written(alloc: Global, x: Value) -> Result<Expr, AllocError>
    ensures { IfOk result (λ e. (nodes (term_of e) ≤ 4) × ArgumentsBelow 0 (term_of e)) }
{
    if x == MIN {
        let greatest = unary(alloc, 1, UnOp::Neg, number(MAX))?;
        binary(alloc, 1, BinOp::Sub, greatest, number(1))
    } else if x < 0 {
        unary(alloc, 1, UnOp::Neg, number(x.wrapping_neg()))
    } else {
        Ok(number(x))
    }
}

// So many times `1 + (`, then 1, nested to the right.
fn nested(alloc: Global, depth: u32) -> Result<Expr, AllocError>
    requires { depth ≤ 250 }
    ensures { IfOk result (λ e. (nodes (term_of e) ≡ 2 * depth + 1) × ArgumentsBelow 0 (term_of e)) }
{
    let mut e = number(1);
    for _ in 0..depth {
        e = binary(alloc, 2, BinOp::Add, number(1), e)?;
    }
    Ok(e)
}

// So many times `-`, then 1.
fn negated(alloc: Global, depth: u32) -> Result<Expr, AllocError>
    requires { depth ≤ 511 }
    ensures { IfOk result (λ e. (nodes (term_of e) ≡ depth + 1) × ArgumentsBelow 0 (term_of e)) }
{
    let mut e = number(1);
    for _ in 0..depth {
        e = unary(alloc, 1, UnOp::Neg, e)?;
    }
    Ok(e)
}

// The value of an expression without arguments; None where it isn't compiled.
fn value_of(alloc: Global, e: &Expr, want: Ty) -> Option<Value>
    requires nodes { nodes (term_of e.now) ≤ 512 }
    requires arguments { ArgumentsBelow 0 (term_of e.now) }
{
    match compile_fn(alloc, 0, e, &[], want) {
        Ok(code) => Some(eval(Verified::of(&code), &[])),
        Err(_) => None,
    }
}

// Why an expression isn't compiled, its first token being 100.
fn fault_of(alloc: Global, e: &Expr, args: &[Ty], want: Ty) -> Option<FnFault>
    requires nodes { nodes (term_of e.now) ≤ 512 }
    requires types { length args.now ≤ 256 }
    requires arguments { ArgumentsBelow (length args.now) (term_of e.now) }
{
    match compile_fn(alloc, 100, e, args, want) {
        Ok(_) => None,
        Err(fault) => Some(fault),
    }
}

// The value of an operator on two numbers.
fn of_numbers(
    alloc: Global,
    op: BinOp,
    (x, y): (Value, Value),
    want: Ty,
) -> Result<Option<Value>, AllocError> {
    let e = binary(alloc, 1, op, number(x), number(y))?;
    Ok(value_of(alloc, &e, want))
}

#[test]
fn arithmetic_wraps(rt: HostRuntime) {
    for (op, rows) in ARITHMETIC {
        for i in 0..6 {
            for j in 0..6 {
                same_in(
                    &rt,
                    (op, i, j),
                    of_numbers(rt.alloc(), op, (EDGES[i], EDGES[j]), Ty::Int),
                    Ok(Some(rows[i][j])),
                );
            }
        }
    }
}

// What is answered where the first number is below, at or above the second.
fn compared(i: usize, j: usize, results: [Value; 3]) -> Value {
    if i < j {
        results[0]
    } else if i == j {
        results[1]
    } else {
        results[2]
    }
}

#[test]
fn comparisons_are_signed(rt: HostRuntime) {
    for (op, results) in COMPARISONS {
        for i in 0..6 {
            for j in 0..6 {
                same_in(
                    &rt,
                    (op, i, j),
                    of_numbers(rt.alloc(), op, (EDGES[i], EDGES[j]), Ty::Bool),
                    Ok(Some(compared(i, j, results))),
                );
            }
        }
    }
}

// The value of an operator on two truth values.
fn of_truths(alloc: Global, op: BinOp, x: bool, y: bool) -> Result<Option<Value>, AllocError> {
    let e = binary(alloc, 1, op, truth(x), truth(y))?;
    Ok(value_of(alloc, &e, Ty::Bool))
}

// The values of not a truth value, and of the choice between 5 and 6 by it.
fn of_truth(alloc: Global, x: bool) -> Result<[Option<Value>; 2], AllocError> {
    let denied = unary(alloc, 1, UnOp::Not, truth(x))?;
    let chosen = choose(alloc, 1, truth(x), number(5), number(6))?;
    Ok([
        value_of(alloc, &denied, Ty::Bool),
        value_of(alloc, &chosen, Ty::Int),
    ])
}

#[test]
fn bools_are_joined(rt: HostRuntime) {
    for (op, results) in OF_BOOLS {
        for k in 0..4usize {
            same_in(
                &rt,
                (op, k),
                of_truths(rt.alloc(), op, k >= 2, k % 2 == 1),
                Ok(Some(results[k])),
            );
        }
    }
    same(&rt, of_truth(rt.alloc(), false), Ok([Some(1), Some(6)]));
    same(&rt, of_truth(rt.alloc(), true), Ok([Some(0), Some(5)]));
}

const WRITTEN: [(BinOp, Value, Value, Value); 7] = [
    (BinOp::Div, MIN, -1, MIN),
    (BinOp::Div, 1, 0, 0),
    (BinOp::Rem, 7, 0, 0),
    (BinOp::Rem, MIN, -1, 0),
    (BinOp::Div, -7, 2, -3),
    (BinOp::Rem, -7, 2, -1),
    (BinOp::Add, MAX, 1, MIN),
];

const NEGATED: [(Value, Value); 5] = [(MIN, MIN), (-7, 7), (0, 0), (2, -2), (MAX, MIN + 1)];

// The value of an operator on two numbers as a source writes them.
fn of_written(alloc: Global, op: BinOp, x: Value, y: Value) -> Result<Option<Value>, AllocError> {
    let left = written(alloc, x)?;
    let right = written(alloc, y)?;
    let e = binary(alloc, 1, op, left, right)?;
    Ok(value_of(alloc, &e, Ty::Int))
}

// The value of minus a number as a source writes it.
fn minus_written(alloc: Global, x: Value) -> Result<Option<Value>, AllocError> {
    let e = unary(alloc, 1, UnOp::Neg, written(alloc, x)?)?;
    Ok(value_of(alloc, &e, Ty::Int))
}

#[test]
fn numbers_are_written_with_signs(rt: HostRuntime) {
    for (op, x, y, want) in WRITTEN {
        same_in(
            &rt,
            (op, x, y),
            of_written(rt.alloc(), op, x, y),
            Ok(Some(want)),
        );
    }
    for (x, want) in NEGATED {
        same_in(&rt, x, minus_written(rt.alloc(), x), Ok(Some(want)));
    }
}

fn value_of_nested(alloc: Global, depth: u32) -> Result<Option<Value>, AllocError>
    requires { depth ≤ 250 }
{
    let e = nested(alloc, depth)?;
    Ok(value_of(alloc, &e, Ty::Int))
}

fn fault_of_nested(alloc: Global, depth: u32, want: Ty) -> Result<Option<FnFault>, AllocError>
    requires { depth ≤ 250 }
{
    let e = nested(alloc, depth)?;
    Ok(fault_of(alloc, &e, &[], want))
}

fn value_of_negated(alloc: Global, depth: u32) -> Result<Option<Value>, AllocError>
    requires { depth ≤ 511 }
{
    let e = negated(alloc, depth)?;
    Ok(value_of(alloc, &e, Ty::Int))
}

const DEEP: Option<FnFault> = Some(FnFault::Deep { token: 100 });

#[test]
fn sixty_four_values_are_held(rt: HostRuntime) {
    let alloc = rt.alloc();
    same(&rt, value_of_nested(alloc, 63), Ok(Some(64)));
    same(&rt, fault_of_nested(alloc, 64, Ty::Int), Ok(DEEP));
    same(
        &rt,
        fault_of_nested(alloc, 64, Ty::Bool),
        Ok(ill_typed(100)),
    );
}

#[test]
fn long_chains_are_compiled(rt: HostRuntime) {
    same(&rt, value_of_negated(rt.alloc(), 500), Ok(Some(1)));
    same(&rt, fault_of_nested(rt.alloc(), 250, Ty::Int), Ok(DEEP));
}

// The faults of x < 2: as an int of an int and of a bool, and as a bool.
fn faults_of_comparison(alloc: Global) -> Result<[Option<FnFault>; 3], AllocError> {
    let e = binary(alloc, 101, BinOp::Lt, argument(100, 0), number(2))?;
    Ok([
        fault_of(alloc, &e, &[Ty::Int], Ty::Int),
        fault_of(alloc, &e, &[Ty::Bool], Ty::Int),
        fault_of(alloc, &e, &[Ty::Int], Ty::Bool),
    ])
}

// The fault of 1 + (!2).
fn fault_of_denied_number(alloc: Global) -> Result<Option<FnFault>, AllocError> {
    let inner = unary(alloc, 103, UnOp::Not, number(2))?;
    let e = binary(alloc, 101, BinOp::Add, number(1), inner)?;
    Ok(fault_of(alloc, &e, &[], Ty::Int))
}

// The fault of (-true) + (!2).
fn fault_of_two(alloc: Global) -> Result<Option<FnFault>, AllocError> {
    let left = unary(alloc, 101, UnOp::Neg, truth(true))?;
    let right = unary(alloc, 105, UnOp::Not, number(2))?;
    let e = binary(alloc, 103, BinOp::Add, left, right)?;
    Ok(fault_of(alloc, &e, &[], Ty::Int))
}

// The fault of if(true, 1, false == (0 == 0)).
fn fault_of_choice(alloc: Global) -> Result<Option<FnFault>, AllocError> {
    let inner = binary(alloc, 110, BinOp::Eq, number(0), number(0))?;
    let last = binary(alloc, 107, BinOp::Eq, truth(false), inner)?;
    let e = choose(alloc, 100, truth(true), number(1), last)?;
    Ok(fault_of(alloc, &e, &[], Ty::Int))
}

fn ill_typed(token: u32) -> Option<FnFault> {
    Some(FnFault::IllTyped { token })
}

#[test]
fn the_first_wrong_type_is_named(rt: HostRuntime) {
    let alloc = rt.alloc();
    same(
        &rt,
        faults_of_comparison(alloc),
        Ok([ill_typed(100), ill_typed(101), None]),
    );
    // an operand of a wrong type before one without a type, and behind one
    same(&rt, fault_of_denied_number(alloc), Ok(ill_typed(103)));
    same(&rt, fault_of_two(alloc), Ok(ill_typed(101)));
    same(&rt, fault_of_choice(alloc), Ok(ill_typed(100)));
}

const POSTFIX: [FInstr; 6] = [
    FInstr::Arg { k: 0 },
    FInstr::Int { x: 1 },
    FInstr::Lt,
    FInstr::Arg { k: 1 },
    FInstr::Int { x: 7 },
    FInstr::Choose,
];

fn is_postfix(code: &Code) -> bool {
    code.instrs.as_slice() == POSTFIX.as_slice()
        && code.args.as_slice() == [Ty::Int, Ty::Int].as_slice()
        && code.want == Ty::Int
}

// The values of if(x < 1, y, 7) for two pairs of arguments, where its code is the postfix form.
fn values_of_postfix(alloc: Global) -> Result<Option<[Value; 2]>, AllocError> {
    let test = binary(alloc, 3, BinOp::Lt, argument(2, 0), number(1))?;
    let e = choose(alloc, 0, test, argument(6, 1), number(7))?;
    match compile_fn(alloc, 0, &e, &[Ty::Int, Ty::Int], Ty::Int) {
        Ok(code) if is_postfix(&code) => Ok(Some([
            eval(Verified::of(&code), &[0, 5]),
            eval(Verified::of(&code), &[1, 5]),
        ])),
        _ => Ok(None),
    }
}

#[test]
fn code_is_the_postfix_form(rt: HostRuntime) {
    same(&rt, values_of_postfix(rt.alloc()), Ok(Some([5, 7])));
}
