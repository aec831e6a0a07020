// Rows as a walk over a source records them.
#![tactic(auto, unfolding(crate::specs::Rows::wrong_of))]

ghost use Rattle.std.specs.Prelude.{◌≡◌, ◌≤◌, ◌^◌, ◌-◌, ◌∷◌, [], OnOk, cond, false, length, map};
ghost use Rattle.htl_text.specs.Bounds.{names_of};
ghost use Rattle.htl_names.specs.Entries.{entry};
ghost use Rattle.htl_names.specs.Recorded.{Adds};
ghost use Rattle.htl_names.specs.Rows.{declaring, using, judging, refining, rows_by, rows_with};
ghost use Rattle.htl_names.specs.Kinds.{Span, Instance, Initial, is_span, is_instance};
ghost use Rattle.htl_names.specs.Keys.{key_in};
ghost use Rattle.htl_names.specs.Parents.{invoke_parent};
ghost use Rattle.htl_names.specs.Uses.{use_in};

use crate::Done;
use crate::key::{Entry, Scope, Use};
use crate::rows::{ParentName, Rows};
use htl_base::limits::MAX_PERIOD;
use htl_base::{Ty, Value};
use htl_text::{ConstNode, Expression, Id, InvokeNode, Node, Num};
use std::alloc::{AllocError, Global};

/// Rows as they come. Once memory was lacking they are of no use, and the end tells so.
#[derive(Drop)]
pub struct Recorder {
    pub rows: Rows,
    pub lacks_memory: bool,
}

impl Recorder {
    /// No rows.
    pub fn new(alloc: Global) -> Recorder
        ensures { result ≡ record { rows = declaring []; lacks_memory = false } }
    {
        let rows = Rows {
            entries: Vec::new(alloc),
            uses: Vec::new(alloc),
            wrong: Vec::new(alloc),
            parents: Vec::new(alloc),
        };
        Recorder {
            rows,
            lacks_memory: false,
        }
    }

    /// Whether memory sufficed so far.
    pub fn done(&self) -> Done
        ensures { OnOk result (self.now.lacks_memory ≡ false) }
    {
        if self.lacks_memory {
            return Err(AllocError);
        }
        Ok(())
    }

    /// The rows.
    pub fn into_rows(self) -> Rows
        ensures { result ≡ self.rows }
    {
        self.rows
    }

    /// A name that is declared, and its place in its list.
    pub fn declare(&mut self, scope: Scope, number: usize, id: &Id)
        ensures rows { Adds (declaring (entry (key_in scope id.now.name) number id.now ∷ [])) self.old self.new }
        ensures few { self.new.lacks_memory ≡ false → length self.new.rows.entries ≤ 2 ^ 63 - 1 }
    {
        let entry = Entry {
            key: scope.key(id.name),
            number,
            token: id.token,
        };
        self.lacks_memory |= self.rows.entries.push(entry).is_err();
    }

    /// A name that is used; where `below` is a number, for an item at a place below it.
    pub fn mention(&mut self, scope: Scope, below: Option<usize>, id: &Id)
        ensures { Adds (using (use_in scope below id.now ∷ [])) self.old self.new }
    {
        let used = Use {
            key: scope.key(id.name),
            below,
            token: id.token,
        };
        self.lacks_memory |= self.rows.uses.push(used).is_err();
    }

    /// The names of an expression, each used in this way.
    pub fn mention_all(&mut self, scope: Scope, below: Option<usize>, e: &Expression)
        ensures { Adds (using (map (use_in scope below) (names_of e.now))) self.old self.new }
    {
        let nodes = e.nodes();
        for k in 0..nodes.len() {
            if let Node::Named { id } = &nodes[k] {
                self.mention(scope, below, id);
            }
        }
    }

    /// The name after `parent`, where an invocation of a program has one.
    pub fn refine(&mut self, program: usize, invoke: &InvokeNode)
        ensures { Adds (refining (invoke_parent program invoke.now)) self.old self.new }
    {
        if let Some(id) = invoke.parent {
            self.lacks_memory |= self.rows.parents.push(ParentName { program, id }).is_err();
        }
    }

    /// A name that is declared with a period or worst case, in ticks.
    pub fn declare_with(&mut self, scope: Scope, number: usize, id: &Id, span: &Num)
        ensures { Adds (rows_with (entry (key_in scope id.now.name) number id.now ∷ []) [] (Span span.now ∷ []) []) self.old self.new }
    {
        self.declare(scope, number, id);
        self.judge(is_span(span.x), span.token);
    }

    /// An instance of a communicator.
    pub fn instance(&mut self, n: &Num)
        ensures { Adds (judging (Instance n.now ∷ [])) self.old self.new }
    {
        self.judge(is_instance(n.x), n.token);
    }

    /// An initial value, and the type that it has to have.
    pub fn initial(&mut self, wanted: Ty, c: ConstNode)
        ensures { Adds (judging (Initial wanted c ∷ [])) self.old self.new }
    {
        match (wanted, c) {
            (Ty::Int, ConstNode::Int { token, .. }) => self.judge(true, token),
            (Ty::Int, ConstNode::Bool { token, .. }) => self.judge(false, token),
            (Ty::Bool, ConstNode::Int { token, .. }) => self.judge(false, token),
            (Ty::Bool, ConstNode::Bool { token, .. }) => self.judge(true, token),
        }
    }

    fn judge(&mut self, is_right: bool, token: u32)
        ensures { Adds (rows_by [] [] (cond is_right [] (token ∷ [])) []) self.old self.new }
    {
        if !is_right {
            self.lacks_memory |= self.rows.wrong.push(token).is_err();
        }
    }
}

fn is_span(x: Value) -> bool
    ensures { result ≡ is_span x }
{
    1 <= x && x <= i64::from(MAX_PERIOD)
}

fn is_instance(x: Value) -> bool
    ensures { result ≡ is_instance x }
{
    0 <= x && x <= i64::from(MAX_PERIOD)
}
