// Expressions: operands, and the operators between them by their levels.
ghost use Rattle.std.specs.Prelude.{◌≡◌, ◌<◌, ◌≤◌};
ghost use Rattle.htl_parse.specs.ReadingExpressions.{read_expr, bracketed, chosen, atom_by, unary_by};
ghost use Rattle.htl_parse.specs.Levels.{level_by, limit_behind};
ghost use Rattle.htl_parse.specs.Cursors.{Gives, Puts, Lessens};

use crate::cursor::Cursor;
use crate::operator::{COMPARISON, OPERAND};
use crate::stop::Stop;
use htl_text::{Expression, Node, Sign, Word};
use std::alloc::Global;

/// expr = conj { "||" conj }, where conj = cmp { "&&" cmp }
pub fn expr(alloc: Global, cursor: &mut Cursor<'_>) -> Result<Expression, Stop>
    ensures { Gives (λ e. e) result cursor.new (read_expr cursor.old) }
{
    let mut nodes = Vec::new(alloc);
    whole(cursor, &mut nodes)?;
    Ok(Expression::new(nodes))
}

// Puts the nodes of a whole expression, from the loosest level on, behind those that stand.
#[cycle(expr)]
fn whole(cursor: &mut Cursor<'_>, nodes: &mut Vec<Node>) -> Result<(), Stop>
    ensures reads { Puts result nodes.old.items nodes.new.items cursor.new (read_expr cursor.old) }
    ensures less { Lessens result cursor.old cursor.new }
{
    binary(cursor, nodes, 0)
}

// Below which level the operators are that may follow an operator of this level and its right operand.
fn limit_behind(level: u8) -> u8
    requires { level < 5 }
    ensures { result ≡ limit_behind level }
{
    if level == COMPARISON {
        level
    } else {
        level + 1
    }
}

// Operands and the operators between them, from a level on:
// cmp = sum [ ( "<" | "<=" | ">" | ">=" | "==" | "!=" ) sum ]
// sum = prod { ( "+" | "-" ) prod }
// prod = unary { ( "*" | "/" | "%" ) unary }
#[cycle(expr)]
fn binary(cursor: &mut Cursor<'_>, nodes: &mut Vec<Node>, loosest: u8) -> Result<(), Stop>
    requires { loosest ≤ 5 }
    ensures reads { Puts result nodes.old.items nodes.new.items cursor.new (level_by read_expr loosest cursor.old) }
    ensures less { Lessens result cursor.old cursor.new }
{
    unary(cursor, nodes)?;
    let mut limit = OPERAND;
    while let Some((token, level, op)) = cursor.binary_operator(loosest, limit) {
        let before = nodes.len();
        binary(cursor, nodes, level + 1)?;
        let right = nodes.len() - before;
        nodes.push(Node::Binary { token, op, right })?;
        limit = limit_behind(level);
    }
    Ok(())
}

// unary = ( "-" | "!" ) unary | atom
#[cycle(expr)]
fn unary(cursor: &mut Cursor<'_>, nodes: &mut Vec<Node>) -> Result<(), Stop>
    ensures reads { Puts result nodes.old.items nodes.new.items cursor.new (unary_by read_expr cursor.old) }
    ensures less { Lessens result cursor.old cursor.new }
{
    let Some((token, op)) = cursor.prefix_operator() else {
        return atom(cursor, nodes);
    };
    unary(cursor, nodes)?;
    nodes.push(Node::Unary { token, op })?;
    Ok(())
}

// atom = number | "true" | "false" | name | "(" expr ")" | "if" "(" expr "," expr "," expr ")"
#[cycle(expr)]
fn atom(cursor: &mut Cursor<'_>, nodes: &mut Vec<Node>) -> Result<(), Stop>
    ensures reads { Puts result nodes.old.items nodes.new.items cursor.new (atom_by read_expr cursor.old) }
    ensures less { Lessens result cursor.old cursor.new }
{
    if let Some(found) = cursor.simple() {
        nodes.push(found)?;
        return Ok(());
    }
    if let Some(_) = cursor.sign(Sign::OpenParen) {
        return bracketed(cursor, nodes);
    }
    if let Some(token) = cursor.word(Word::If) {
        return choice(cursor, nodes, token);
    }
    Err(Stop::Syntax)
}

// What stands behind an opening bracket.
#[cycle(expr)]
fn bracketed(cursor: &mut Cursor<'_>, nodes: &mut Vec<Node>) -> Result<(), Stop>
    ensures reads { Puts result nodes.old.items nodes.new.items cursor.new (bracketed read_expr cursor.old) }
    ensures less { Lessens result cursor.old cursor.new }
{
    whole(cursor, nodes)?;
    cursor.expect(Sign::CloseParen)?;
    Ok(())
}

// What stands behind an `if`.
#[cycle(expr)]
fn choice(cursor: &mut Cursor<'_>, nodes: &mut Vec<Node>, token: u32) -> Result<(), Stop>
    ensures reads { Puts result nodes.old.items nodes.new.items cursor.new (chosen read_expr token cursor.old) }
    ensures less { Lessens result cursor.old cursor.new }
{
    cursor.expect(Sign::OpenParen)?;
    whole(cursor, nodes)?;
    cursor.expect(Sign::Comma)?;
    let one = nodes.len();
    whole(cursor, nodes)?;
    cursor.expect(Sign::Comma)?;
    let two = nodes.len();
    whole(cursor, nodes)?;
    cursor.expect(Sign::CloseParen)?;
    nodes.push(Node::Choose {
        token,
        first: two - one,
        second: nodes.len() - two,
    })?;
    Ok(())
}
