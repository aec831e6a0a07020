// The flat lists of a program. A number that names another item is its place in that item's list.
use crate::Function;
use htl_base::{Name, Seq, Ty, Value};

/// A communicator: a timed variable whose instances are the multiples of its period.
#[derive(Drop)]
pub struct Comm {
    pub name: Name,
    pub ty: Ty,
    /// Whether the script writes it, and no invocation.
    pub sensor: bool,
    /// In ticks, 1 to 1,000,000.
    pub period: u32,
    /// The value at instant 0; 0 or 1 for a bool.
    pub init: Value,
}

/// A mode of a module.
#[derive(Drop)]
pub struct Mode {
    pub name: Name,
    /// The module whose mode it is.
    pub module: u16,
    /// The length of its rounds in ticks, 1 to 1,000,000.
    pub period: u32,
}

/// A module: in one mode at a time, or inactive.
#[derive(Drop)]
pub struct Module {
    pub name: Name,
    /// The mode that it refines; None for a root module.
    pub parent: Option<u16>,
    /// The mode in which it starts, one of its own.
    pub start: u16,
}

/// A port of a mode: it passes a value from one invocation to others in the same round.
#[derive(Drop)]
pub struct Port {
    pub name: Name,
    pub mode: u16,
    pub ty: Ty,
}

/// A task of a module.
pub struct Task {
    pub name: Name,
    pub module: u16,
    /// Whether it has no functions and only holds a place for a refinement.
    pub is_abstract: bool,
    /// The declared worst-case execution time in ticks, 1 to 1,000,000.
    pub worst: u32,
    /// The types of its inputs, at most 256.
    pub inputs: Seq<Ty>,
    /// The types of its outputs, at most 256.
    pub outputs: Seq<Ty>,
}

impl Drop for Task {
    fn drop(self) {
        let Self {
            name: _,
            module: _,
            is_abstract: _,
            worst: _,
            inputs: _,
            outputs: _,
        } = self;
    }
}

/// Where an input of an invocation comes from, or an output goes to.
#[derive(Clone, Copy)]
pub enum End {
    /// An instance of a communicator, 0 to 1,000,000: at the offset `instance` times its period in the round.
    Comm { comm: u16, instance: u32 },
    /// A port of the mode.
    Port { port: u16 },
}

/// An invocation of a task in a mode.
pub struct Inv {
    pub mode: u16,
    pub task: u16,
    /// The abstract invocation of the refined mode in whose place it stands.
    pub parent: Option<u16>,
    /// At most 256.
    pub reads: Seq<End>,
    /// At most 256.
    pub writes: Seq<End>,
}

impl Drop for Inv {
    fn drop(self) {
        let Self {
            mode: _,
            task: _,
            parent: _,
            reads: _,
            writes: _,
        } = self;
    }
}

/// A switch of a mode, tried at the end of each round, in order.
pub struct Switch {
    pub mode: u16,
    /// The mode in which the module goes on where the condition holds; one of the same module.
    pub target: u16,
    /// The distinct communicators of the condition in order of first occurrence, the arguments of its
    /// function; at most 256.
    pub reads: Seq<u16>,
}

impl Drop for Switch {
    fn drop(self) {
        let Self {
            mode: _,
            target: _,
            reads: _,
        } = self;
    }
}

/// The flat lists.
#[derive(Drop)]
pub struct Parts {
    /// In source order.
    pub comms: Seq<Comm>,
    /// By module, then in source order.
    pub modes: Seq<Mode>,
    /// In preorder: a root module, then for each of its modes in order the modules of its refinement with
    /// theirs, then the next root module.
    pub modules: Seq<Module>,
    /// By mode, then in source order.
    pub ports: Seq<Port>,
    /// By module, then in source order.
    pub tasks: Seq<Task>,
    /// By mode, then in source order.
    pub invs: Seq<Inv>,
    /// By mode, then in source order.
    pub switches: Seq<Switch>,
    /// One for each output of each concrete task, in order, then one for each switch.
    pub functions: Seq<Function>,
}
