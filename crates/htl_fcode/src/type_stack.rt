// The types of the values on the function machine's stack.
ghost use Rattle.std.specs.Prelude.{◌≡◌, ◌↔◌, ◌<◌, [], ◌∷◌, length, IsTrue, MatchOption};
ghost use Rattle.htl_fcode.specs.Stacks.{put};

use htl_base::Ty;
use htl_base::limits::MAX_STACK;
use std::marker::Model;

/// At most 64 types, held in place; contracts see them as a list, the top first.
#[derive(Drop)]
pub struct TypeStack {
    types: [Ty; MAX_STACK],
    height: usize,
}

impl Model for TypeStack {
    ghost use Rattle.std.specs.Prelude.{◌≡◌, ◌≤◌, List, take, reverse, length};
    ghost use Rattle.htl_base.specs.declared.Ty.{Ty};

    ghost Value = { List Ty };

    ghost view = { λ s. reverse (take s.height s.types) };

    ghost invariant = { λ s. (s.height ≤ 64) × (length s.types ≡ 64) };
}

impl TypeStack {
    /// The empty stack.
    pub fn new() -> TypeStack
        ensures { result ≡ [] }
    {
        TypeStack {
            types: [Ty::Int; MAX_STACK],
            height: 0,
        }
    }

    /// Puts a type on top.
    pub fn push(&mut self, ty: Ty)
        requires { length self.old < 64 }
        ensures { self.new ≡ ty ∷ self.old }
    {
        self.types[self.height] = ty;
        self.height += 1;
    }

    /// Puts a type on top. None exactly where 64 are on the stack.
    pub fn try_push(&mut self, ty: Ty) -> Option<()>
        ensures { MatchOption result (put ty self.old ≡ None) (λ _. put ty self.old ≡ Some self.new) }
    {
        if self.height == MAX_STACK {
            return None;
        }
        self.push(ty);
        Some(())
    }

    /// Takes the type on top. None exactly where the stack is empty.
    pub fn pop(&mut self) -> Option<Ty>
        ensures taken { MatchOption result (self.old ≡ []) (λ ty. self.old ≡ ty ∷ self.new) }
        ensures room { length self.new < 64 }
    {
        if self.height == 0 {
            return None;
        }
        self.height -= 1;
        Some(self.types[self.height])
    }

    /// Whether this type stands alone.
    pub fn is_only(&self, ty: Ty) -> bool
        ensures { IsTrue result ↔ (self.now ≡ ty ∷ []) }
    {
        self.height == 1 && self.types[0] == ty
    }
}
