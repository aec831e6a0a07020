// Expressions, each one list of nodes.
ghost use Rattle.std.specs.Prelude.{◌≡◌, ◌≤◌, ◌++◌, ◌∷◌, [], length};
ghost use Rattle.htl_text.specs.Postfix.{IsExpr, expr_in, nodes_of, names_in, front, back};
ghost use Rattle.htl_text.specs.Bounds.{names_of};
ghost use Rattle.htl_text.specs.Parts.{whole_of};

use crate::tree::Id;
use htl_base::{BinOp, UnOp, Value};
use std::marker::Model;

/// A node of an expression, which stands behind its operands.
#[derive(Clone, Copy)]
pub enum Node {
    /// A number.
    Int {
        /// The number of its token.
        token: u32,
        /// The number, from 0 to 9,223,372,036,854,775,807.
        x: Value,
    },
    /// `true` or `false`.
    Bool {
        /// The number of its token.
        token: u32,
        /// Which of the two it is.
        x: bool,
    },
    /// A name: of an input in an output's expression, of a communicator in a switch.
    Named {
        /// The name.
        id: Id,
    },
    /// An operator before its operand.
    Unary {
        /// The number of the operator's token.
        token: u32,
        /// The operator.
        op: UnOp,
    },
    /// An operator between its operands.
    Binary {
        /// The number of the operator's token.
        token: u32,
        /// The operator.
        op: BinOp,
        /// How many nodes the right operand has.
        right: usize,
    },
    /// `if ( CONDITION , CHOICE , CHOICE )`
    Choose {
        /// The number of the token `if`.
        token: u32,
        /// How many nodes the value where the condition is true has.
        first: usize,
        /// How many nodes the value where it is false has.
        second: usize,
    },
}

/// An expression: its nodes in one list, each behind its operands, which takes no memory of its own for each.
/// Brackets leave no mark in it, and repeated operators group to the left. Contracts see the tree that the nodes
/// make.
#[derive(Drop)]
pub struct Expression {
    nodes: Vec<Node>,
}

impl Model for Expression {
    ghost use Rattle.htl_text.specs.Expressions.{Expr};
    ghost use Rattle.htl_text.specs.Postfix.{IsExpr, expr_in, expr_code};
    ghost use Rattle.std.specs.Coded.{codes};

    ghost Value = { Expr };

    ghost coded = { Prim.hlevel (codes, expr_code) };

    ghost view = { λ x. expr_in x.nodes.items };

    ghost invariant = { λ x. IsExpr x.nodes.items };
}

impl Expression {
    /// The expression of these nodes.
    pub fn new(nodes: Vec<Node>) -> Expression
        requires { IsExpr nodes.items }
        ensures { result ≡ expr_in nodes.items }
    {
        Expression { nodes }
    }

    /// The nodes, each behind its operands: the names among them stand in the order of the source.
    pub fn nodes(&self) -> &[Node]
        ensures value { result.now ≡ nodes_of self.now }
        ensures names { names_in result.now ≡ names_of self.now }
    {
        self.nodes.as_slice()
    }

    /// The whole as an operand.
    pub fn whole(&self) -> Operand<'_>
        ensures { result ≡ self.now }
    {
        Operand {
            nodes: self.nodes.as_slice(),
        }
    }
}

/// An expression or an operand in it.
#[derive(Drop)]
pub struct Operand<'a> {
    nodes: &'a [Node],
}

impl<'a> Model for Operand<'a> {
    ghost use Rattle.htl_text.specs.Expressions.{Expr};
    ghost use Rattle.htl_text.specs.Postfix.{IsExpr, expr_in, expr_code};
    ghost use Rattle.std.specs.Coded.{codes};

    ghost Value = { Expr };

    ghost coded = { Prim.hlevel (codes, expr_code) };

    ghost view = { λ x. expr_in x.nodes.now };

    ghost invariant = { λ x. IsExpr x.nodes.now };
}

/// What an expression is, with its operands.
#[derive(Drop)]
pub enum Part<'a> {
    /// A number.
    Int {
        /// The number of its token.
        token: u32,
        /// The number, from 0 to 9,223,372,036,854,775,807.
        x: Value,
    },
    /// `true` or `false`.
    Bool {
        /// The number of its token.
        token: u32,
        /// Which of the two it is.
        x: bool,
    },
    /// A name.
    Named {
        /// The name.
        id: Id,
    },
    /// An operator before its operand.
    Unary {
        /// The number of the operator's token.
        token: u32,
        /// The operator.
        op: UnOp,
        /// The operand.
        e: Operand<'a>,
    },
    /// An operator between its operands.
    Binary {
        /// The number of the operator's token.
        token: u32,
        /// The operator.
        op: BinOp,
        /// The left operand.
        l: Operand<'a>,
        /// The right operand.
        r: Operand<'a>,
    },
    /// `if ( CONDITION , CHOICE , CHOICE )`
    Choose {
        /// The number of the token `if`.
        token: u32,
        /// The condition.
        c: Operand<'a>,
        /// The value where the condition is true.
        a: Operand<'a>,
        /// The value where it is false.
        b: Operand<'a>,
    },
}

impl<'a> Operand<'a> {
    /// What it is. A few steps; no operand is gone over.
    pub fn part(&self) -> Part<'a>
        ensures { whole_of result ≡ self.now }
    {
        match self.nodes.split_last() {
            Some((last, before)) => part_of(last, before),
            None => unreachable!(),
        }
    }
}

// What a node with its operands is.
fn part_of<'a>(last: &Node, before: &'a [Node]) -> Part<'a>
    requires { IsExpr (before.now ++ last.now ∷ []) }
    ensures { whole_of result ≡ expr_in (before.now ++ last.now ∷ []) }
{
    match *last {
        Node::Int { token, x } => Part::Int { token, x },
        Node::Bool { token, x } => Part::Bool { token, x },
        Node::Named { id } => Part::Named { id },
        Node::Unary { token, op } => {
            let e = Operand { nodes: before };
            Part::Unary { token, op, e }
        }
        Node::Binary { token, op, right } => {
            let (nodes, r) = cut(before, right);
            let l = Operand { nodes };
            Part::Binary { token, op, l, r }
        }
        Node::Choose {
            token,
            first,
            second,
        } => {
            let (others, b) = cut(before, second);
            let (nodes, a) = cut(others, first);
            let c = Operand { nodes };
            Part::Choose { token, c, a, b }
        }
    }
}

// The last nodes, which are an expression, and what stands before them.
fn cut(nodes: &[Node], count: usize) -> (&[Node], Operand<'_>)
    requires short { count ≤ length nodes.now }
    requires whole { IsExpr (back count nodes.now) }
    ensures front { result.0.now ≡ front count nodes.now }
    ensures back { result.1 ≡ expr_in (back count nodes.now) }
{
    let (front, nodes) = nodes.split_at(nodes.len() - count);
    (front, Operand { nodes })
}
