// Copies of tables.
ghost use Rattle.std.specs.Prelude.{◌≡◌, All, IfOk};
ghost use Rattle.htl_model.specs.FunctionCode.{AreCode, HoldsCode};

use crate::{Code, Comm, Function, Inv, Mode, Module, Parts, Port, Switch, Tables, Task};
use htl_base::{Memory, Seq};
use std::alloc::{AllocError, Global};

// An item of the tables of which a copy can be made, under a condition.
trait Item: Sized + Drop {
    ghost use Rattle.std.specs.Prelude.{◌≡◌, IfOk};

    ghost can: { Self → Type 0 };

    // An equal item.
    fn copy(&self, alloc: Global) -> Result<Self, AllocError>
        requires { can self.now }
        ensures { IfOk result (λ x. x ≡ self.now) };
}

impl Item for Comm {
    ghost can = { λ _. Unit {0} };

    fn copy(&self, _alloc: Global) -> Result<Comm, AllocError> {
        Ok(Comm {
            name: self.name,
            ty: self.ty,
            sensor: self.sensor,
            period: self.period,
            init: self.init,
        })
    }
}

impl Item for Mode {
    ghost can = { λ _. Unit {0} };

    fn copy(&self, _alloc: Global) -> Result<Mode, AllocError> {
        Ok(Mode {
            name: self.name,
            module: self.module,
            period: self.period,
        })
    }
}

impl Item for Module {
    ghost can = { λ _. Unit {0} };

    fn copy(&self, _alloc: Global) -> Result<Module, AllocError> {
        Ok(Module {
            name: self.name,
            parent: self.parent,
            start: self.start,
        })
    }
}

impl Item for Port {
    ghost can = { λ _. Unit {0} };

    fn copy(&self, _alloc: Global) -> Result<Port, AllocError> {
        Ok(Port {
            name: self.name,
            mode: self.mode,
            ty: self.ty,
        })
    }
}

impl Item for Task {
    ghost can = { λ _. Unit {0} };

    fn copy(&self, alloc: Global) -> Result<Task, AllocError> {
        Ok(Task {
            name: self.name,
            module: self.module,
            is_abstract: self.is_abstract,
            worst: self.worst,
            inputs: Seq::new(Vec::from_slice(alloc, self.inputs.as_slice())?),
            outputs: Seq::new(Vec::from_slice(alloc, self.outputs.as_slice())?),
        })
    }
}

impl Item for Inv {
    ghost can = { λ _. Unit {0} };

    fn copy(&self, alloc: Global) -> Result<Inv, AllocError> {
        Ok(Inv {
            mode: self.mode,
            task: self.task,
            parent: self.parent,
            reads: Seq::new(Vec::from_slice(alloc, self.reads.as_slice())?),
            writes: Seq::new(Vec::from_slice(alloc, self.writes.as_slice())?),
        })
    }
}

impl Item for Switch {
    ghost can = { λ _. Unit {0} };

    fn copy(&self, alloc: Global) -> Result<Switch, AllocError> {
        Ok(Switch {
            mode: self.mode,
            target: self.target,
            reads: Seq::new(Vec::from_slice(alloc, self.reads.as_slice())?),
        })
    }
}

impl Item for Function {
    ghost use Rattle.htl_model.specs.FunctionCode.{HoldsCode};

    ghost can = { HoldsCode };

    fn copy(&self, alloc: Global) -> Result<Function, AllocError> {
        match self {
            Function::Expr { .. } => unreachable!(),
            Function::Code(code) => Ok(Function::Code(Code {
                args: Seq::new(Vec::from_slice(alloc, code.args.as_slice())?),
                want: code.want,
                instrs: Seq::new(Vec::from_slice(alloc, code.instrs.as_slice())?),
            })),
        }
    }
}

fn copies<T: Item>(alloc: Global, items: &Seq<T>) -> Result<Seq<T>, AllocError>
    requires { All T.can items.now }
    ensures { IfOk result (λ v. v ≡ items.now) }
{
    let mut found = Vec::new(alloc);
    for item in items.as_slice() {
        found.push(item.copy(alloc)?)?;
    }
    Ok(Seq::new(found))
}

type Names = (Seq<Comm>, Seq<Mode>, Seq<Module>, Seq<Port>);

type Work = (Seq<Task>, Seq<Inv>, Seq<Switch>, Seq<Function>);

fn copy_names(alloc: Global, parts: &Parts) -> Result<Names, AllocError>
    ensures { IfOk result (λ n. (n.0 ≡ parts.now.comms) × (n.1 ≡ parts.now.modes) × (n.2 ≡ parts.now.modules) × (n.3 ≡ parts.now.ports)) }
{
    let comms = copies(alloc, &parts.comms)?;
    let modes = copies(alloc, &parts.modes)?;
    let modules = copies(alloc, &parts.modules)?;
    Ok((comms, modes, modules, copies(alloc, &parts.ports)?))
}

fn copy_work(alloc: Global, parts: &Parts) -> Result<Work, AllocError>
    requires { All HoldsCode parts.now.functions }
    ensures { IfOk result (λ w. (w.0 ≡ parts.now.tasks) × (w.1 ≡ parts.now.invs) × (w.2 ≡ parts.now.switches) × (w.3 ≡ parts.now.functions)) }
{
    let tasks = copies(alloc, &parts.tasks)?;
    let invs = copies(alloc, &parts.invs)?;
    let switches = copies(alloc, &parts.switches)?;
    Ok((tasks, invs, switches, copies(alloc, &parts.functions)?))
}

fn copy_parts(alloc: Global, parts: &Parts) -> Result<Parts, AllocError>
    requires { All HoldsCode parts.now.functions }
    ensures { IfOk result (λ p. p ≡ parts.now) }
{
    let (comms, modes, modules, ports) = copy_names(alloc, parts)?;
    let (tasks, invs, switches, functions) = copy_work(alloc, parts)?;
    Ok(Parts {
        comms,
        modes,
        modules,
        ports,
        tasks,
        invs,
        switches,
        functions,
    })
}

impl Tables {
    /// Tables with equal parts. All functions are code.
    ///
    /// `Memory` comes only where there is none left. The cost is one step for each item, each end of an invocation and
    /// each instruction of a function, and as much memory as the tables hold.
    pub fn copy(&self, alloc: Global) -> Result<Tables, Memory>
        requires { AreCode self.now }
        ensures { IfOk result (λ t. t ≡ self.now) }
    {
        match copy_parts(alloc, self.parts()) {
            Ok(parts) => Ok(Tables::new(parts)),
            Err(_) => Err(Memory),
        }
    }
}
