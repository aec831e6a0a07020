// The values on the function machine's stack.
ghost use Rattle.std.specs.Prelude.{◌≡◌, ◌<◌, [], ◌∷◌, length};

use htl_base::Value;
use htl_base::limits::MAX_STACK;
use std::marker::Model;

/// At most 64 values, held in place; contracts see them as a list, the top first.
#[derive(Drop)]
pub struct ValueStack {
    values: [Value; MAX_STACK],
    height: usize,
}

impl Model for ValueStack {
    ghost use Rattle.std.specs.Prelude.{◌≤◌, List, ℤ, take, reverse};

    ghost Value = { List ℤ };

    ghost view = { λ s. reverse (take s.height s.values) };

    ghost invariant = { λ s. s.height ≤ 64 };
}

impl ValueStack {
    /// The empty stack.
    pub fn new() -> ValueStack
        ensures { result ≡ [] }
    {
        ValueStack {
            values: [0; MAX_STACK],
            height: 0,
        }
    }

    /// Puts a value on top.
    pub fn push(&mut self, x: Value)
        requires { length self.old < 64 }
        ensures { self.new ≡ x ∷ self.old }
    {
        self.values[self.height] = x;
        self.height += 1;
    }

    /// Takes the value on top.
    pub fn pop(&mut self) -> Value
        requires { 0 < length self.old }
        ensures taken { self.old ≡ result ∷ self.new }
        ensures room { length self.new < 64 }
    {
        self.height -= 1;
        self.values[self.height]
    }
}
