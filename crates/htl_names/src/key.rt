// What a name is looked up by.
ghost use Rattle.std.specs.Prelude.{◌≡◌, ◌++◌, ◌∷◌, []};
ghost use Rattle.std.specs.Cmp.{decided, partial_equiv_from_equiv};
ghost use Rattle.std.specs.Hash as fed;
ghost use Rattle.htl_names.specs.Keys.{key_in, same_key};
ghost use Rattle.htl_names.specs.SameKeys.{same_key_decides, mixed, key_writes, hashed_alike};

use htl_base::Name;
use std::hash::{Hash, Hasher};

/// The kinds of lists in which names have to differ.
#[derive(Clone, Copy)]
pub enum Space {
    /// The programs of the source.
    Programs,
    /// The communicators of the source.
    Comms,
    /// The modules of the source.
    Modules,
    /// The tasks of a module.
    Tasks,
    /// The modes of a module.
    Modes,
    /// The inputs and outputs of a task, taken together.
    Params,
    /// The ports of a mode.
    Ports,
    /// The tasks invoked in a mode.
    Invokes,
}

impl Space {
    /// The list of this kind that an owner has.
    pub fn of(self, program: usize, module: usize, item: usize) -> Scope
        ensures { result ≡ record { space = self; program = program; «module» = «module»; item = item } }
    {
        Scope {
            space: self,
            program,
            module,
            item,
        }
    }
}

/// A list of names: its kind, and its owner by the owner's places, the program, the module in it, and the task or mode
/// in that; each is 0 where the list has no such owner.
#[derive(Clone, Copy)]
pub struct Scope {
    pub space: Space,
    pub program: usize,
    pub module: usize,
    pub item: usize,
}

impl Scope {
    /// A name in the list.
    pub fn key(self, name: Name) -> Key
        ensures { result ≡ key_in self name }
    {
        Key { scope: self, name }
    }
}

/// A name in a list. Only the bytes that a name has are compared and hashed.
#[derive(Clone, Copy)]
pub struct Key {
    pub scope: Scope,
    pub name: Name,
}

impl PartialEq for Key {
    ghost eq = { same_key };

    ghost laws = { partial_equiv_from_equiv (decided same_key same_key_decides) };

    fn eq(&self, other: &Key) -> bool {
        let (own, theirs) = (self.scope, other.scope);
        own.space as u8 == theirs.space as u8
            && own.program == theirs.program
            && own.module == theirs.module
            && own.item == theirs.item
            && self.name.as_bytes() == other.name.as_bytes()
    }
}

impl Eq for Key {
    ghost laws = { decided same_key same_key_decides };
}

impl Hash for Key {
    ghost hash_input = { key_writes };

    ghost respects_eq = { hashed_alike };

    fn hash<H: Hasher>(&self, state: &mut H) {
        let scope = self.scope;
        let program = mixed(scope.space as usize, scope.program);
        state.write_usize(mixed(mixed(program, scope.module), scope.item));
        state.write(self.name.as_bytes());
    }
}

// The list of a key as one number: lists that have the same number cost time alone.
fn mixed(a: usize, b: usize) -> usize
    ensures { result ≡ mixed a b }
{
    a.wrapping_mul(1_048_583).wrapping_add(b)
}

/// A name where it is declared: its place in its list, and its token.
#[derive(Clone, Copy)]
pub struct Entry {
    pub key: Key,
    pub number: usize,
    pub token: u32,
}

/// A name where it is used: what it is looked up by, and its token. Where `below` is a number, the item has to have a
/// place below it.
#[derive(Clone, Copy)]
pub struct Use {
    pub key: Key,
    pub below: Option<usize>,
    pub token: u32,
}
