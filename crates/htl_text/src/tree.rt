// The tree of a source. Each name, literal and operator keeps the number of its token; tokens are counted
// from 0 over the whole source.
use crate::expression::Expression;
use htl_base::{Name, Seq, Ty, Value};

/// A name where it stands in the source.
#[derive(Clone, Copy)]
pub struct Id {
    /// The name.
    pub name: Name,
    /// The number of its token.
    pub token: u32,
}

/// A number where it stands in the source.
#[derive(Clone, Copy)]
pub struct Num {
    /// The number, from 0 to 9,223,372,036,854,775,807.
    pub x: Value,
    /// The number of its token.
    pub token: u32,
}

/// A whole source.
#[derive(Drop)]
pub struct Tree {
    /// Its programs in order, at least one.
    pub programs: Seq<ProgramNode>,
}

/// `program NAME { COMMUNICATORS MODULES }`
pub struct ProgramNode {
    /// The program's name.
    pub name: Id,
    /// Its communicators, in order.
    pub comms: Seq<CommNode>,
    /// Its modules, in order.
    pub modules: Seq<ModuleNode>,
}

impl Drop for ProgramNode {
    fn drop(self) {
        let Self {
            name: _,
            comms: _,
            modules: _,
        } = self;
    }
}

/// `communicator TYPE NAME period NUMBER init CONSTANT ;`, or the same with `sensor`
#[derive(Clone, Copy)]
pub struct CommNode {
    /// Whether it is a sensor.
    pub sensor: bool,
    /// The type of its values.
    pub ty: Ty,
    /// Its name.
    pub name: Id,
    /// Its period, in ticks.
    pub period: Num,
    /// Its initial value.
    pub init: ConstNode,
}

/// A constant.
#[derive(Clone, Copy)]
pub enum ConstNode {
    /// A number, maybe with a `-` before it.
    Int {
        /// The number of its first token: of the `-`, where there is one.
        token: u32,
        /// Whether a `-` stands before it.
        minus: bool,
        /// The number itself, from 0 to 9,223,372,036,854,775,807.
        x: Value,
    },
    /// `true` or `false`.
    Bool {
        /// The number of its token.
        token: u32,
        /// Which of the two it is.
        x: bool,
    },
}

/// `module NAME start NAME { TASKS MODES }`
pub struct ModuleNode {
    /// The module's name.
    pub name: Id,
    /// The name of the mode in which it starts.
    pub start: Id,
    /// Its tasks, in order.
    pub tasks: Seq<TaskNode>,
    /// Its modes, in order.
    pub modes: Seq<ModeNode>,
}

impl Drop for ModuleNode {
    fn drop(self) {
        let Self {
            name: _,
            start: _,
            tasks: _,
            modes: _,
        } = self;
    }
}

/// `task NAME input ( INPUTS ) output ( OUTPUTS ) worst NUMBER ;`, or the same with `abstract` before it
pub struct TaskNode {
    /// The task's name.
    pub name: Id,
    /// Its inputs, in order.
    pub inputs: Seq<ParamNode>,
    /// Its outputs, which also say whether it is abstract.
    pub outputs: OutNodes,
    /// Its worst-case execution time, in ticks.
    pub worst: Num,
}

impl Drop for TaskNode {
    fn drop(self) {
        let Self {
            name: _,
            inputs: _,
            outputs: _,
            worst: _,
        } = self;
    }
}

/// `TYPE NAME`
#[derive(Clone, Copy)]
pub struct ParamNode {
    /// The type.
    pub ty: Ty,
    /// The name.
    pub name: Id,
}

/// The outputs of a task.
#[derive(Drop)]
pub enum OutNodes {
    /// Those of a task with code, each with its expression.
    Concrete {
        /// In order.
        outs: Seq<OutNode>,
    },
    /// Those of an abstract task.
    Abstract {
        /// In order.
        outs: Seq<ParamNode>,
    },
}

/// `TYPE NAME = EXPRESSION`
pub struct OutNode {
    /// The output's type and name.
    pub param: ParamNode,
    /// The number of the expression's first token, brackets counted.
    pub first: u32,
    /// The expression, over the task's inputs.
    pub value: Expression,
}

impl Drop for OutNode {
    fn drop(self) {
        let Self {
            param: _,
            first: _,
            value: _,
        } = self;
    }
}

/// `mode NAME period NUMBER { PORTS INVOCATIONS SWITCHES }`, with `program NAME` before the brace where a
/// program refines the mode
pub struct ModeNode {
    /// The mode's name.
    pub name: Id,
    /// Its period, in ticks.
    pub period: Num,
    /// The program that refines it.
    pub program: Option<Id>,
    /// Its ports, in order.
    pub ports: Seq<ParamNode>,
    /// Its task invocations, in order.
    pub invokes: Seq<InvokeNode>,
    /// Its mode switches, in order.
    pub switches: Seq<SwitchNode>,
}

impl Drop for ModeNode {
    fn drop(self) {
        let Self {
            name: _,
            period: _,
            program: _,
            ports: _,
            invokes: _,
            switches: _,
        } = self;
    }
}

/// `invoke NAME input ( ENDS ) output ( ENDS ) ;`, with `parent NAME` before the `;` where the invocation
/// refines another
pub struct InvokeNode {
    /// The name of the task.
    pub task: Id,
    /// Whence its inputs come, in order.
    pub reads: Seq<EndNode>,
    /// Where its outputs go, in order.
    pub writes: Seq<EndNode>,
    /// The abstract task whose invocation it refines.
    pub parent: Option<Id>,
}

impl Drop for InvokeNode {
    fn drop(self) {
        let Self {
            task: _,
            reads: _,
            writes: _,
            parent: _,
        } = self;
    }
}

/// Where an input of an invocation comes from, or an output goes.
#[derive(Clone, Copy)]
pub enum EndNode {
    /// `( NAME , NUMBER )`: an instance of a communicator.
    Comm {
        /// The communicator.
        comm: Id,
        /// The instance, in periods of the communicator from the round's start.
        instance: Num,
    },
    /// `NAME`: a port of the mode.
    Port {
        /// The port.
        port: Id,
    },
}

/// `switch ( EXPRESSION , NAME ) ;`
pub struct SwitchNode {
    /// The number of the condition's first token, brackets counted.
    pub first: u32,
    /// The condition, over communicators.
    pub cond: Expression,
    /// The mode to which the module then switches.
    pub target: Id,
}

impl Drop for SwitchNode {
    fn drop(self) {
        let Self {
            first: _,
            cond: _,
            target: _,
        } = self;
    }
}
