// The operators of expressions.

/// An operator with one operand.
#[derive(Clone, Copy)]
pub enum UnOp {
    /// `-`, from int to int; it wraps.
    Neg,
    /// `!`, from bool to bool.
    Not,
}

/// An operator with two operands.
#[derive(Clone, Copy, Debug)]
pub enum BinOp {
    /// `+`, of two int; it wraps.
    Add,
    /// `-`, of two int; it wraps.
    Sub,
    /// `*`, of two int; it wraps.
    Mul,
    /// `/`, of two int: 0 by a zero divisor, else truncated; the least number by -1 is itself.
    Div,
    /// `%`, of two int: 0 by a zero divisor, else with the sign of the left side.
    Rem,
    /// `<`, of two int.
    Lt,
    /// `<=`, of two int.
    Le,
    /// `>`, of two int.
    Gt,
    /// `>=`, of two int.
    Ge,
    /// `==`, of two values of one type.
    Eq,
    /// `!=`, of two values of one type.
    Ne,
    /// `&&`, of two bool; both sides are evaluated.
    And,
    /// `||`, of two bool; both sides are evaluated.
    Or,
}
