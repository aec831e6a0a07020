// The rules on single rows: each search is one loop over its rows.
ghost use Rattle.std.specs.Prelude.{◌≡◌, map};
ghost use Rattle.htl_model.specs.Lists.{first_some};
ghost use Rattle.htl_names.specs.Parents.{unmatched_at, unmatched_token};
ghost use Rattle.htl_names.specs.Rows.{parent_use_of};
ghost use Rattle.htl_names.specs.Uses.{unknown_token};

use crate::key::{Space, Use};
use crate::programs::{RefinedModes, refined_at};
use crate::rows::ParentName;
use crate::symbols::Symbols;
use htl_text::Id;

// ---- names that stand for nothing

/// The token of the first of these names that stands for nothing.
pub(crate) fn first_unknown(uses: &[Use], symbols: &Symbols) -> Option<u32>
    ensures { result ≡ first_some (unknown_token symbols.now) uses.now }
{
    for k in 0..uses.len() {
        if let Some(token) = unknown(&uses[k], symbols) {
            return Some(token);
        }
    }
    None
}

fn unknown(used: &Use, symbols: &Symbols) -> Option<u32>
    ensures { result ≡ unknown_token symbols.now used.now }
{
    match symbols.get(&used.key) {
        None => Some(used.token),
        Some(n) => match used.below {
            None => None,
            Some(bound) => if bound <= n { Some(used.token) } else { None },
        },
    }
}

// ---- names after `parent`

/// The token of the first name after `parent` that stands in the root program, or for no invocation of the mode that
/// its program refines. `refined` has the modes that each program refines.
pub(crate) fn first_unmatched(
    parents: &[ParentName],
    symbols: &Symbols,
    refined: &[RefinedModes],
) -> Option<u32>
    ensures { result ≡ first_some (unmatched_token symbols.now refined.now) (map parent_use_of parents.now) }
{
    for k in 0..parents.len() {
        let parent = parents[k];
        if let Some(token) = unmatched(parent.program, &parent.id, symbols, refined) {
            return Some(token);
        }
    }
    None
}

fn unmatched(p: usize, id: &Id, symbols: &Symbols, refined: &[RefinedModes]) -> Option<u32>
    ensures { result ≡ unmatched_at symbols.now refined.now p id.now }
{
    let mode = if p == 0 { None } else { refined_at(p, refined) };
    if let Some(a) = mode {
        let key = Space::Invokes.of(a.program, a.module, a.mode).key(id.name);
        if symbols.get(&key).is_some() {
            return None;
        }
    }
    Some(id.token)
}
