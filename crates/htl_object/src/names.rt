// The names of the items before the next.
ghost use Rattle.std.specs.Prelude.{◌≡◌, ◌++◌, ◌∷◌, [], true, not, IfOk};
ghost use Rattle.std.specs.Cmp.{decided, partial_equiv_from_equiv};
ghost use Rattle.std.specs.Hash as fed;
ghost use Rattle.std.specs.List.{list_any};
ghost use Rattle.htl_object.specs.Names.{same_name, owned};
ghost use Rattle.htl_object.specs.SameNames.{same_name_decides, name_writes, hashed_alike};

use htl_base::Name;
use indexmap::IndexSet;
use std::alloc::{AllocError, Global};
use std::hash::{Hash, Hasher};
use std::marker::Model;

/// A name and the place of its owner, which is 0 where items have none. Only the bytes that a name has are compared and
/// hashed.
#[derive(Clone, Copy)]
pub struct OwnedName {
    pub owner: u16,
    pub name: Name,
}

impl PartialEq for OwnedName {
    ghost eq = { same_name };

    ghost laws = { partial_equiv_from_equiv (decided same_name same_name_decides) };

    fn eq(&self, other: &OwnedName) -> bool {
        other.owner == self.owner && other.name.as_bytes() == self.name.as_bytes()
    }
}

impl Eq for OwnedName {
    ghost laws = { decided same_name same_name_decides };
}

impl Hash for OwnedName {
    ghost hash_input = { name_writes };

    ghost respects_eq = { hashed_alike };

    fn hash<H: Hasher>(&self, state: &mut H) {
        state.write_u16(self.owner);
        state.write(self.name.as_bytes());
    }
}

/// The names of a list so far, each under its owner; contracts see them in the order of the list.
#[derive(Drop)]
pub struct Names {
    set: IndexSet<OwnedName>,
}

impl Model for Names {
    ghost use Rattle.std.specs.Prelude.{List};
    ghost use Rattle.htl_object.specs.declared.names.OwnedName.{OwnedName};

    ghost Value = { List OwnedName };

    ghost view = { λ n. n.set.keys };
}

impl Names {
    /// None yet.
    pub fn new(alloc: Global) -> Names
        ensures { result ≡ [] }
    {
        Names {
            set: IndexSet::new(alloc),
        }
    }

    /// Puts a name behind the others, and tells whether it is none of them. One look at a table, however many there are.
    pub fn add(&mut self, owner: u16, name: Name) -> Result<bool, AllocError>
        ensures differs { IfOk result (λ differs. differs ≡ not (list_any (same_name (owned owner name)) self.old)) }
        ensures added { IfOk result (λ differs. differs ≡ true → self.new ≡ self.old ++ owned owner name ∷ []) }
    {
        let (_, differs) = self.set.insert_full(OwnedName { owner, name })?;
        Ok(differs)
    }
}
