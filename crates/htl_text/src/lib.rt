//! The text of a source: its tokens, its tree, the grammar that ties them, and the printed form.
#![tactic(auto)]

mod entry;
mod expression;
pub mod laws;
mod lexer;
mod printer;
mod printing;
mod scan;
mod spelling;
mod token;
mod tokens;
mod tree;

pub use expression::{Expression, Node, Operand, Part};
pub use lexer::{LexFault, lex};
pub use printing::print;
pub use token::{Kind, Sign, Token, Word};
pub use tokens::Tokens;
pub use tree::{
    CommNode, ConstNode, EndNode, Id, InvokeNode, ModeNode, ModuleNode, Num, OutNode, OutNodes,
    ParamNode, ProgramNode, SwitchNode, TaskNode, Tree,
};
