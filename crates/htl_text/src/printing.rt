// The printed form of a tree.
ghost use Rattle.std.specs.Prelude.{◌≡◌, ◌++◌, IfOk};
ghost use Rattle.htl_text.specs.Nodes.{out_of, outs_of, task_of, switch_of, mode_of, module_of, program_of, tree_of};
ghost use Rattle.htl_text.specs.PrintedBytes.{Adds, printed_bytes};
ghost use Rattle.htl_text.specs.PrintedTokens.{abstract_tokens, clause_tokens, comm_tokens, const_tokens, end_tokens, expr_tokens, infix_sign, invoke_tokens, mode_tokens, module_tokens, out_tokens, outs_tokens, param_tokens, port_tokens, prefix_sign, program_tokens, source_tokens, switch_tokens, task_tokens, truth_tokens, type_tokens, kind_tokens, minus_tokens, number_tokens, each};

use crate::expression::{Operand, Part};
use crate::printer::{Print, Printer, each, in_brackets};
use crate::token::{Sign, Token, Word};
use crate::tree::{
    CommNode, ConstNode, EndNode, Id, InvokeNode, ModeNode, ModuleNode, OutNode, OutNodes,
    ParamNode, ProgramNode, SwitchNode, TaskNode, Tree,
};
use htl_base::{BinOp, Memory, Seq, Ty, UnOp, Value};
use std::alloc::Global;

/// The printed form of a tree: its tokens in order, one space between two on a line, and a line feed in
/// place of the space after each `;`, `{` and `}`. Each operation stands in brackets of its own, and numbers
/// have no leading zeros. Memory comes only where no memory was left.
pub fn print(alloc: Global, tree: &Tree) -> Result<Vec<u8>, Memory>
    ensures { IfOk result (λ bytes. bytes.items ≡ printed_bytes (source_tokens (tree_of tree.now))) }
{
    let mut out = Printer::new(alloc);
    each(&tree.programs, &mut out);
    out.into_bytes()
}

impl Print for ProgramNode {
    ghost tokens = { λ p. program_tokens (program_of p) };

    fn print(&self, out: &mut Printer) {
        out.tokens(&[
            Token::Word(Word::Program),
            Token::Ident(self.name.name),
            Token::Sign(Sign::OpenBrace),
        ]);
        each(&self.comms, out);
        each(&self.modules, out);
        out.tokens(&[Token::Sign(Sign::CloseBrace)]);
    }
}

impl Print for CommNode {
    ghost tokens = { comm_tokens };

    fn print(&self, out: &mut Printer) {
        kind(self.sensor, out);
        self.ty.print(out);
        out.tokens(&[Token::Ident(self.name.name), Token::Word(Word::Period)]);
        self.period.x.print(out);
        out.tokens(&[Token::Word(Word::Init)]);
        self.init.print(out);
        out.tokens(&[Token::Sign(Sign::Semicolon)]);
    }
}

// Whether a communicator is a sensor.
fn kind(sensor: bool, out: &mut Printer)
    ensures { Adds (kind_tokens sensor) out.old out.new }
{
    if sensor {
        out.tokens(&[Token::Word(Word::Sensor)]);
    } else {
        out.tokens(&[Token::Word(Word::Communicator)]);
    }
}

impl Print for Value {
    ghost tokens = { number_tokens };

    fn print(&self, out: &mut Printer) {
        out.token(&Token::Number(*self));
    }
}

impl Print for Ty {
    ghost tokens = { type_tokens };

    fn print(&self, out: &mut Printer) {
        match self {
            Ty::Int => out.tokens(&[Token::Word(Word::Int)]),
            Ty::Bool => out.tokens(&[Token::Word(Word::Bool)]),
        }
    }
}

// A truth value.
fn truth(x: bool, out: &mut Printer)
    ensures { Adds (truth_tokens x) out.old out.new }
{
    if x {
        out.tokens(&[Token::Word(Word::True)]);
    } else {
        out.tokens(&[Token::Word(Word::False)]);
    }
}

impl Print for ConstNode {
    ghost tokens = { const_tokens };

    fn print(&self, out: &mut Printer) {
        match self {
            ConstNode::Int { minus, x, .. } => {
                minus_sign(*minus, out);
                x.print(out);
            }
            ConstNode::Bool { x, .. } => truth(*x, out),
        }
    }
}

fn minus_sign(minus: bool, out: &mut Printer)
    ensures { Adds (minus_tokens minus) out.old out.new }
{
    if minus {
        out.tokens(&[Token::Sign(Sign::Minus)]);
    } else {
        out.tokens(&[]);
    }
}

impl Print for ModuleNode {
    ghost tokens = { λ m. module_tokens (module_of m) };

    fn print(&self, out: &mut Printer) {
        out.tokens(&[
            Token::Word(Word::Module),
            Token::Ident(self.name.name),
            Token::Word(Word::Start),
            Token::Ident(self.start.name),
            Token::Sign(Sign::OpenBrace),
        ]);
        each(&self.tasks, out);
        each(&self.modes, out);
        out.tokens(&[Token::Sign(Sign::CloseBrace)]);
    }
}

impl Print for TaskNode {
    ghost tokens = { λ t. task_tokens (task_of t) };

    fn print(&self, out: &mut Printer) {
        abstract_word(&self.outputs, out);
        out.tokens(&[
            Token::Word(Word::Task),
            Token::Ident(self.name.name),
            Token::Word(Word::Input),
        ]);
        in_brackets(&self.inputs, out);
        out.tokens(&[Token::Word(Word::Output)]);
        self.outputs.print(out);
        out.tokens(&[Token::Word(Word::Worst)]);
        self.worst.x.print(out);
        out.tokens(&[Token::Sign(Sign::Semicolon)]);
    }
}

// The word of an abstract task.
fn abstract_word(outputs: &OutNodes, out: &mut Printer)
    ensures { Adds (abstract_tokens (outs_of outputs.now)) out.old out.new }
{
    match outputs {
        OutNodes::Concrete { .. } => out.tokens(&[]),
        OutNodes::Abstract { .. } => out.tokens(&[Token::Word(Word::Abstract)]),
    }
}

impl Print for ParamNode {
    ghost tokens = { param_tokens };

    fn print(&self, out: &mut Printer) {
        self.ty.print(out);
        out.tokens(&[Token::Ident(self.name.name)]);
    }
}

impl Print for OutNodes {
    ghost tokens = { λ o. outs_tokens (outs_of o) };

    fn print(&self, out: &mut Printer) {
        match self {
            OutNodes::Concrete { outs } => in_brackets(outs, out),
            OutNodes::Abstract { outs } => in_brackets(outs, out),
        }
    }
}

impl Print for OutNode {
    ghost tokens = { λ o. out_tokens (out_of o) };

    fn print(&self, out: &mut Printer) {
        self.param.print(out);
        term(&[Token::Sign(Sign::Assign)], &self.value.whole(), out);
    }
}

impl Print for ModeNode {
    ghost tokens = { λ m. mode_tokens (mode_of m) };

    fn print(&self, out: &mut Printer) {
        out.tokens(&[
            Token::Word(Word::Mode),
            Token::Ident(self.name.name),
            Token::Word(Word::Period),
        ]);
        self.period.x.print(out);
        clause(Word::Program, &self.program, out);
        out.tokens(&[Token::Sign(Sign::OpenBrace)]);
        ports(&self.ports, out);
        each(&self.invokes, out);
        each(&self.switches, out);
        out.tokens(&[Token::Sign(Sign::CloseBrace)]);
    }
}

// A word and a name, where there is a name.
fn clause(word: Word, name: &Option<Id>, out: &mut Printer)
    ensures { Adds (clause_tokens word name.now) out.old out.new }
{
    match name {
        Some(id) => out.tokens(&[Token::Word(word), Token::Ident(id.name)]),
        None => out.tokens(&[]),
    }
}

fn ports(ports: &Seq<ParamNode>, out: &mut Printer)
    ensures { Adds (each port_tokens ports.now) out.old out.new }
{
    for port in ports.as_slice() {
        out.tokens(&[Token::Word(Word::Port)]);
        port.print(out);
        out.tokens(&[Token::Sign(Sign::Semicolon)]);
    }
}

impl Print for InvokeNode {
    ghost tokens = { invoke_tokens };

    fn print(&self, out: &mut Printer) {
        out.tokens(&[
            Token::Word(Word::Invoke),
            Token::Ident(self.task.name),
            Token::Word(Word::Input),
        ]);
        in_brackets(&self.reads, out);
        out.tokens(&[Token::Word(Word::Output)]);
        in_brackets(&self.writes, out);
        clause(Word::Parent, &self.parent, out);
        out.tokens(&[Token::Sign(Sign::Semicolon)]);
    }
}

impl Print for EndNode {
    ghost tokens = { end_tokens };

    fn print(&self, out: &mut Printer) {
        match self {
            EndNode::Comm { comm, instance } => {
                out.tokens(&[
                    Token::Sign(Sign::OpenParen),
                    Token::Ident(comm.name),
                    Token::Sign(Sign::Comma),
                ]);
                instance.x.print(out);
                out.tokens(&[Token::Sign(Sign::CloseParen)]);
            }
            EndNode::Port { port } => out.tokens(&[Token::Ident(port.name)]),
        }
    }
}

impl Print for SwitchNode {
    ghost tokens = { λ s. switch_tokens (switch_of s) };

    fn print(&self, out: &mut Printer) {
        let word = Token::Word(Word::Switch);
        term(
            &[word, Token::Sign(Sign::OpenParen)],
            &self.cond.whole(),
            out,
        );
        out.tokens(&[
            Token::Sign(Sign::Comma),
            Token::Ident(self.target.name),
            Token::Sign(Sign::CloseParen),
            Token::Sign(Sign::Semicolon),
        ]);
    }
}

// Tokens and an expression behind them. It calls itself once for each level of operators.
fn term(before: &[Token], e: &Operand<'_>, out: &mut Printer)
    ensures { Adds (λ more. before.now ++ expr_tokens e.now more) out.old out.new }
{
    out.tokens(before);
    match e.part() {
        Part::Int { x, .. } => x.print(out),
        Part::Bool { x, .. } => truth(x, out),
        Part::Named { id } => out.tokens(&[Token::Ident(id.name)]),
        Part::Unary { op, e, .. } => {
            let sign = Token::Sign(prefix_sign(op));
            term(&[Token::Sign(Sign::OpenParen), sign], &e, out);
            out.tokens(&[Token::Sign(Sign::CloseParen)]);
        }
        Part::Binary { op, l, r, .. } => {
            term(&[Token::Sign(Sign::OpenParen)], &l, out);
            term(&[Token::Sign(infix_sign(op))], &r, out);
            out.tokens(&[Token::Sign(Sign::CloseParen)]);
        }
        Part::Choose { c, a, b, .. } => {
            let word = Token::Word(Word::If);
            term(&[word, Token::Sign(Sign::OpenParen)], &c, out);
            term(&[Token::Sign(Sign::Comma)], &a, out);
            term(&[Token::Sign(Sign::Comma)], &b, out);
            out.tokens(&[Token::Sign(Sign::CloseParen)]);
        }
    }
}

fn prefix_sign(op: UnOp) -> Sign
    ensures { result ≡ prefix_sign op }
{
    match op {
        UnOp::Neg => Sign::Minus,
        UnOp::Not => Sign::Not,
    }
}

fn infix_sign(op: BinOp) -> Sign
    ensures { result ≡ infix_sign op }
{
    match op {
        BinOp::Add => Sign::Plus,
        BinOp::Sub => Sign::Minus,
        BinOp::Mul => Sign::Star,
        BinOp::Div => Sign::Slash,
        BinOp::Rem => Sign::Percent,
        BinOp::Lt => Sign::Less,
        BinOp::Le => Sign::LessEqual,
        BinOp::Gt => Sign::Greater,
        BinOp::Ge => Sign::GreaterEqual,
        BinOp::Eq => Sign::Equal,
        BinOp::Ne => Sign::NotEqual,
        BinOp::And => Sign::And,
        BinOp::Or => Sign::Or,
    }
}
