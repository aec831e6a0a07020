// Statements that are too long.
ghost use Rattle.std.specs.Prelude.{◌≡◌, ◌≤◌, ◌<◌, ◌+◌, true, MatchOption, length, take, drop};
ghost use Rattle.htl_text.specs.Kinds.{kind_of};
ghost use Rattle.htl_text.specs.declared.token.Token.{Token};
ghost use Rattle.htl_parse.specs.Runs.{ends_run, IsStatementRun, TellsEnd, AreShort, IsFirstLong};

use htl_text::{Kind, Sign, Tokens};

// How many tokens a run without `;`, `{` and `}` can have.
const RUN_LIMIT: u32 = 512;

fn ends_run(kind: Kind) -> bool
    ensures { (t : Token) → kind_of t ≡ kind → result ≡ ends_run t }
{
    matches!(
        kind,
        Kind::Sign(Sign::Semicolon | Sign::OpenBrace | Sign::CloseBrace)
    )
}

// Whether the token at a place ends a run.
fn ends_at(tokens: &Tokens, place: u32) -> bool
    requires { place < length tokens.now.tokens }
    ensures { TellsEnd tokens.now.tokens place result }
{
    match tokens.kind(place as usize) {
        Some(kind) => ends_run(kind),
        None => false,
    }
}

// The last of 513 tokens, the first of which stands at `begin`, that ends a run.
fn last_end(tokens: &Tokens, begin: u32) -> Option<u32>
    requires { begin + 512 < length tokens.now.tokens }
    ensures { MatchOption result (IsStatementRun (take 513 (drop begin tokens.now.tokens)))
        (λ k. (begin ≤ k) × (k ≤ begin + 512) × TellsEnd tokens.now.tokens k true) }
{
    let _short = tokens.len();
    let mut place = begin + RUN_LIMIT + 1;
    while place > begin {
        place -= 1;
        if ends_at(tokens, place) {
            return Some(place);
        }
    }
    None
}

/// The number of the 513th token of the first run without `;`, `{` and `}` that has more than 512. Of 513 tokens
/// the last one that ends a run is looked for from behind, and the next 513 stand behind it: so most tokens are
/// passed unseen.
pub fn first_long(tokens: &Tokens) -> Option<u32>
    ensures { MatchOption result (AreShort tokens.now.tokens) (λ k. IsFirstLong tokens.now.tokens k) }
{
    let count = tokens.len() as u32;
    let mut begin = 0;
    while begin + RUN_LIMIT < count {
        match last_end(tokens, begin) {
            Some(end) => begin = end + 1,
            None => return Some(begin + RUN_LIMIT),
        }
    }
    None
}
