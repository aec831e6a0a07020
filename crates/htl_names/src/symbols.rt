// What declared names mean: a table of symbols, which contracts see as the list of its entries.
ghost use Rattle.std.specs.Prelude.{◌≡◌, ◌++◌, ◌∷◌, [], IfOk, MatchResult, None, map};
ghost use Rattle.htl_names.specs.Keys.{look_up, pair_of};
ghost use Rattle.htl_names.specs.Entries.{EntriesAreApart, IsRepeat};

use crate::fault::NameFault;
use crate::key::{Entry, Key};
use indexmap::IndexMap;
use std::alloc::{AllocError, Global};
use std::marker::Model;

/// The places of declared names in their lists, in the order in which the names came.
#[derive(Drop)]
pub struct Symbols {
    map: IndexMap<Key, usize>,
}

impl Model for Symbols {
    ghost use Rattle.std.specs.Prelude.{List, ℕ};
    ghost use Rattle.htl_names.specs.declared.key.Key.{Key};

    ghost Value = { List (Key × ℕ) };

    ghost view = { λ s. s.map.entries };
}

impl Symbols {
    /// The place of the first entry with this key.
    pub fn get(&self, key: &Key) -> Option<usize>
        ensures { result ≡ look_up key.now self.now }
    {
        self.map.get(key).copied()
    }

    /// Puts a key behind the others, unless it is there: then its place is returned.
    pub fn add(&mut self, key: Key, number: usize) -> Result<Option<usize>, AllocError>
        ensures old { IfOk result (λ old. old ≡ look_up key self.old) }
        ensures added { IfOk result (λ old. old ≡ None → self.new ≡ self.old ++ (key, number) ∷ []) }
    {
        let old = self.map.insert(key, number)?;
        Ok(old)
    }
}

/// The table of the declared names, in source order; or the first that repeats an earlier one of its list.
pub(crate) fn declare(alloc: Global, entries: &[Entry]) -> Result<Symbols, NameFault>
    ensures { MatchResult result (λ symbols. (symbols ≡ map pair_of entries.now) × EntriesAreApart entries.now) (IsRepeat entries.now) }
{
    let mut symbols = Symbols {
        map: IndexMap::with_capacity(alloc, entries.len())?,
    };
    for k in 0..entries.len() {
        let e = entries[k];
        if let Some(_) = symbols.add(e.key, e.number)? {
            return Err(NameFault::Twice { token: e.token });
        }
    }
    Ok(symbols)
}
