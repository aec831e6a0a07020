// From a source to tables with code.
ghost use Rattle.std.specs.Prelude.{ℕ, List, ◌≡◌, ◌⊎◌, ◌≤◌, ◌<◌, length, IfOk, MatchResult};
ghost use Rattle.htl_base.specs.declared.limits.TheConstants as limit;
ghost use Rattle.htl_compile.specs.TokenBounds.{AreFunctionsBelow};
ghost use Rattle.htl_compile.specs.Coded.{AreTyped, coded};
ghost use Rattle.htl_compile.specs.Sources.{Reads, BeginsAt, IsTablesOf, IsFrontFault, IsRead};
ghost use Rattle.htl_compile.specs.declared.source.FrontFault.{FrontFault as FaultOf};
ghost use Rattle.htl_model.specs.Tables.{Tables as TablesOf};
ghost use Rattle.htl_model.specs.Broken.{KeepsLimits};
ghost use Rattle.htl_model.specs.FunctionTypes.{FitPlaces};
ghost use Rattle.htl_model.specs.Small.{AreSmall};
ghost use Rattle.htl_parse.specs.Answers.{Spell};
ghost use Rattle.htl_text.specs.Bounds.{IsBounded};
ghost use Rattle.htl_text.specs.Nodes.{tree_of};
ghost use Rattle.htl_text.specs.Spans.{Tokens as IsTokens};

use crate::SourceFault;
use crate::functions::compiled;
use htl_func::FnFault;
use htl_model::Tables;
use htl_names::{NameFault, resolve};
use htl_parse::{ParseFault, parse};
use htl_text::{LexFault, Tokens, Tree, lex};
use std::alloc::Global;

/// Why a source has no tables with code.
#[derive(Clone, Copy, Debug)]
pub enum FrontFault {
    /// The source's one fault.
    Source(SourceFault),
    /// No memory was left.
    Memory,
}

/// The tables of a source of at most 1,048,576 bytes, with each function in postfix code: verified code of the types of its
/// place. They keep the limits on root selections and positions. It is refused exactly where the source has a fault, with its
/// first, in this order: tokens, statements that are too long, the grammar, the name rules, the functions in their order.
/// `TooLong` is never the answer. Want of memory may stand in place of any answer.
pub fn front(alloc: Global, bytes: &[u8]) -> Result<Tables, FrontFault>
    requires { length bytes.now ≤ limit.MAX_SOURCE }
    ensures read { IsRead bytes.now result }
    ensures fits { IfOk result (λ u. FitPlaces u) }
    ensures limits { IfOk result (λ u. KeepsLimits u) }
    ensures only { (t : TablesOf) → IsTablesOf bytes.now t → AreTyped t
        → MatchResult result (λ u. u ≡ coded t) (λ f. f ≡ FrontFault.Memory) }
    ensures refused { (f : FaultOf) → (f ≡ FrontFault.Memory → ⊥) → IsFrontFault bytes.now f
        → MatchResult result (λ _. ⊥) (λ g. (g ≡ f) ⊎ (g ≡ FrontFault.Memory)) }
{
    read_bytes(alloc, bytes)
}

fn read_bytes(alloc: Global, bytes: &[u8]) -> Result<Tables, FrontFault>
    requires { length bytes.now ≤ limit.MAX_SOURCE }
    ensures read { IsRead bytes.now result }
    ensures fits { IfOk result (λ u. FitPlaces u) }
    ensures limits { IfOk result (λ u. KeepsLimits u) }
{
    match lex(alloc, bytes) {
        Ok(tokens) => read_tokens(alloc, &tokens),
        Err(LexFault::Char { offset }) => Err(FrontFault::Source(SourceFault::Char { at: offset })),
        Err(LexFault::Number { offset }) => {
            Err(FrontFault::Source(SourceFault::Number { at: offset }))
        }
        Err(LexFault::NameLong { offset }) => {
            Err(FrontFault::Source(SourceFault::NameLong { at: offset }))
        }
        Err(LexFault::Memory) => Err(FrontFault::Memory),
    }
}

fn read_tokens(alloc: Global, tokens: &Tokens) -> Result<Tables, FrontFault>
    ensures read { (bytes : List ℕ) → IsTokens bytes tokens.now → IsRead bytes result }
    ensures fits { IfOk result (λ u. FitPlaces u) }
    ensures limits { IfOk result (λ u. KeepsLimits u) }
{
    match parse(alloc, tokens) {
        Ok(tree) => read_tree(alloc, tokens, &tree),
        Err(ParseFault::Syntax { token }) => {
            let at = tokens.offset(token as usize);
            Err(FrontFault::Source(SourceFault::Syntax { at }))
        }
        Err(ParseFault::Memory) => Err(FrontFault::Memory),
        Err(ParseFault::Long { token }) => {
            let at = tokens.offset(token as usize);
            Err(FrontFault::Source(SourceFault::Long { at }))
        }
    }
}

fn read_tree(alloc: Global, tokens: &Tokens, tree: &Tree) -> Result<Tables, FrontFault>
    requires spelled { Spell tokens.now.tokens (tree_of tree.now) }
    requires bounded { IsBounded (tree_of tree.now) }
    ensures read { (bytes : List ℕ) → Reads bytes tokens.now → IsRead bytes result }
    ensures fits { IfOk result (λ u. FitPlaces u) }
    ensures limits { IfOk result (λ u. KeepsLimits u) }
{
    match resolve(alloc, tree) {
        Ok(tables) => read_functions(alloc, tokens, tables),
        Err(NameFault::Twice { token }) => {
            let at = first_byte(tokens, token);
            Err(FrontFault::Source(SourceFault::Twice { at }))
        }
        Err(NameFault::Unknown { token }) => {
            let at = first_byte(tokens, token);
            Err(FrontFault::Source(SourceFault::Unknown { at }))
        }
        Err(NameFault::Kind { token }) => {
            let at = first_byte(tokens, token);
            Err(FrontFault::Source(SourceFault::Kind { at }))
        }
        Err(NameFault::NotATree { program }) => {
            Err(FrontFault::Source(SourceFault::NotATree { program }))
        }
        Err(NameFault::Limit { which, count }) => {
            Err(FrontFault::Source(SourceFault::Limit { which, count }))
        }
        Err(NameFault::Memory) => Err(FrontFault::Memory),
    }
}

// The first byte of a token.
fn first_byte(tokens: &Tokens, token: u32) -> u64
    requires { token < length tokens.now.tokens }
    ensures { (bytes : List ℕ) → IsTokens bytes tokens.now → BeginsAt tokens.now token result }
{
    tokens.offset(token as usize)
}

// Tables whose names are right, with their functions compiled, or the fault of the first that isn't.
fn read_functions(alloc: Global, tokens: &Tokens, tables: Tables) -> Result<Tables, FrontFault>
    requires limits { KeepsLimits tables }
    requires small { AreSmall tables }
    requires placed { AreFunctionsBelow (length tokens.now.tokens) tables }
    ensures read { (bytes : List ℕ) (source : IsTablesOf bytes tables) → source.list ≡ tokens.now → IsRead bytes result }
    ensures fits { IfOk result (λ u. FitPlaces u) }
    ensures limits { IfOk result (λ u. KeepsLimits u) }
{
    tables.keeps_ranges();
    match compiled(alloc, tables) {
        Ok(tables) => Ok(tables),
        Err(FnFault::IllTyped { token }) => {
            let at = first_byte(tokens, token);
            Err(FrontFault::Source(SourceFault::IllTyped { at }))
        }
        Err(FnFault::Deep { token }) => {
            let at = first_byte(tokens, token);
            Err(FrontFault::Source(SourceFault::Deep { at }))
        }
        Err(FnFault::Memory) => Err(FrontFault::Memory),
    }
}
