// What holds of all tokens and all trees. These functions do nothing; their clauses are the laws.
ghost use Rattle.htl_parse.specs.Laws.{OneTree, HasMisfit, OneMisfit, TreesBounded, TokensAgain, ParsesAgain};

/// Tokens spell at most one tree.
pub fn one_tree()
    ensures { OneTree }
{}

/// Each list of tokens has a place up to which it begins a text, and where more tokens stand there, it begins
/// none with the next.
pub fn has_misfit()
    ensures { HasMisfit }
{}

/// There is only one such place.
pub fn one_misfit()
    ensures { OneMisfit }
{}

/// A tree is bounded that is spelled by at most 1,048,576 tokens, no more than 512 of them in a run without
/// `;`, `{` and `}`: it has at most 1,048,576 programs and items of any kind, at most 256 in each list of
/// parameters or ends, at most 512 nodes in each expression, at most 256 names in each switch condition, and
/// no negative literal.
pub fn trees_bounded()
    ensures { TreesBounded }
{}

/// The tokens of the printed form of a tree spell it again, but for the numbers of its tokens.
pub fn tokens_again()
    ensures { TokensAgain }
{}

/// The printed form of a tree is lexed and parsed to the tree again, but for the numbers of its tokens, where
/// it has at most 1,048,576 bytes and no run of more than 512 tokens without `;`, `{` and `}`. The tree has a
/// program, names that are such, and no negative literal.
pub fn parses_again()
    ensures { ParsesAgain }
{}
