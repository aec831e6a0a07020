// What one walk over a source leaves for the name rules.
use crate::key::{Entry, Use};
use htl_text::Id;
use std::marker::Model;

/// A name after `parent`, in an invocation of a program.
#[derive(Clone, Copy)]
pub struct ParentName {
    pub program: usize,
    pub id: Id,
}

/// The names that a source declares, those that it uses, the tokens of its values and numbers that are not of their
/// kind, and the names after `parent`, each list in source order.
#[derive(Drop)]
pub struct Rows {
    pub entries: Vec<Entry>,
    pub uses: Vec<Use>,
    pub wrong: Vec<u32>,
    pub parents: Vec<ParentName>,
}

impl Model for Rows {
    ghost use Rattle.std.specs.Prelude.{map};
    ghost use Rattle.htl_names.specs.Rows.{Rows as Plain, parent_use_of};

    ghost Value = { Plain };

    ghost view = { λ r. record {
      entries = r.entries.items;
      uses = r.uses.items;
      wrong = r.wrong.items;
      parents = map parent_use_of r.parents.items;
    } };
}
