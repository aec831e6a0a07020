// What holds of all texts. These functions do nothing; their clauses are the laws.
ghost use Rattle.htl_text.specs.Laws.{OneTokenList, OneFault, TokensOrFault, TokensSpellable, PrintedTokens};

/// A text has one list of tokens at most, with one place for each.
pub fn one_token_list()
    ensures { OneTokenList }
{}

/// A text has one first fault at most.
pub fn one_fault()
    ensures { OneFault }
{}

/// No text has both tokens and a fault.
pub fn tokens_or_fault()
    ensures { TokensOrFault }
{}

/// Each token of a text is a name, a number from 0 to 9,223,372,036,854,775,807, a reserved word or a sign.
pub fn tokens_spellable()
    ensures { TokensSpellable }
{}

/// The bytes that are printed for tokens have these tokens.
pub fn printed_tokens()
    ensures { PrintedTokens }
{}
