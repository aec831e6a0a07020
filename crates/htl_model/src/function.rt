// The functions of tasks and switches.
use htl_base::{BinOp, Seq, Ty, UnOp, Value};

/// An expression over arguments by place. Each part has the number of its token in the source: that of a
/// literal, a name, an operator or `if`.
#[derive(Drop)]
pub enum Expr {
    Int {
        token: u32,
        x: Value,
    },
    Bool {
        token: u32,
        x: bool,
    },
    /// Argument `k`, from 0: an input of the task, or a communicator that the switch reads.
    Arg {
        token: u32,
        k: u16,
    },
    Unary {
        token: u32,
        op: UnOp,
        e: Box<Expr>,
    },
    Binary {
        token: u32,
        op: BinOp,
        l: Box<Expr>,
        r: Box<Expr>,
    },
    /// `if(c, a, b)`: a where c holds, else b; both are evaluated.
    Choose {
        token: u32,
        c: Box<Expr>,
        a: Box<Expr>,
        b: Box<Expr>,
    },
}

/// An instruction of function code, which works on a stack of values.
#[derive(Clone, Copy, PartialEq, Eq)]
pub enum FInstr {
    /// Puts a number.
    Int { x: Value },
    /// Puts a bool, 0 or 1.
    Bool { x: u8 },
    /// Puts argument `k`, from 0.
    Arg { k: u16 },
    Neg,
    Not,
    Add,
    Sub,
    Mul,
    Div,
    Rem,
    Lt,
    Le,
    Gt,
    Ge,
    Eq,
    Ne,
    And,
    Or,
    /// Takes a bool and two values of one type: the lower of the two where the bool holds, else the upper.
    Choose,
}

/// The code of a function in postfix order: operands from left to right, then the operation.
pub struct Code {
    /// The types of the arguments, at most 256.
    pub args: Seq<Ty>,
    /// The type of the result.
    pub want: Ty,
    /// 1 to 512 instructions.
    pub instrs: Seq<FInstr>,
}

impl Drop for Code {
    fn drop(self) {
        let Self {
            args: _,
            want: _,
            instrs: _,
        } = self;
    }
}

/// A function of tables.
#[derive(Drop)]
pub enum Function {
    /// An expression; `first` is the number of its first token, brackets counted.
    Expr { first: u32, e: Expr },
    /// Code.
    Code(Code),
}
