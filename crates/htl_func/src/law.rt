// The law of compiled functions.
ghost use Rattle.htl_func.specs.Compiled.{CodeMeansExpression};

/// A law for callers, with nothing to run: the function of code that is the postfix form of an expression is
/// the function of the expression.
pub fn code_means_expression()
    ensures { CodeMeansExpression }
{}
