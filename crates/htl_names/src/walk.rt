// The one walk over a source: what each of its parts declares, uses, holds and refines, in source order.
#![tactic(auto, using(crate::proofs::Walking::walking))]

ghost use Rattle.std.specs.Prelude.{◌≡◌, ◌+◌, ◌≤◌, ◌^◌, ◌-◌, ◌∷◌, [], ℕ, List, OnOk, IfOk, length};
ghost use Rattle.htl_text.specs.Nodes.{tree_of};
ghost use Rattle.htl_names.specs.Rows as rows;
ghost use Rattle.std.proofs.Common.{rules};
ghost use Rattle.std.proofs.lemmas.Grind.{common_steps};
ghost use Rattle.htl_names.specs.Recorded.{Adds};
ghost use Rattle.htl_names.specs.Rows.{Rows as Plain, rows_joined, AreInOrder};
ghost use Rattle.htl_names.specs.declared.key.Scope.{Scope as AScope};

use crate::Done;
use crate::key::{Scope, Space};
use crate::recorder::Recorder;
use crate::rows::Rows;
use htl_text::{
    CommNode, EndNode, InvokeNode, ModeNode, ModuleNode, OutNode, OutNodes, ParamNode, ProgramNode,
    SwitchNode, TaskNode, Tree,
};
use std::alloc::{AllocError, Global};

/// A part of a source. Its list is the one in which its name has to differ; an end, which has none, goes with the ports of
/// its mode, a switch with the modes of its module.
pub(crate) trait Part {
    ghost rows_of: { AScope → ℕ → List Self → Plain };

    /// Puts the rows of the part, and of its own parts, behind others.
    fn add(&self, list: Scope, place: usize, into: &mut Recorder)
        ensures { Adds (rows_of list place (self.now ∷ [])) into.old into.new };

    ghost in_order: { (list : AScope) → AreInOrder (rows_of list) };
}

/// Puts the rows of the parts in a list behind others; the first part stands at this place.
fn add_all<T: Part>(list: Scope, first: usize, parts: &[T], into: &mut Recorder)
    requires { first + length parts.now ≤ 2 ^ 64 - 1 }
    ensures { Adds (T.rows_of list first parts.now) into.old into.new }
{
    for k in 0..parts.len() {
        parts[k].add(list, first + k, into);
    }
}

/// The rows of a source. Communicators are numbered over the whole of it.
pub(crate) fn rows_of(alloc: Global, tree: &Tree) -> Result<Rows, AllocError>
    ensures { IfOk result (λ r. r ≡ rows.rows (tree_of tree.now)) }
{
    let programs = tree.programs.as_slice();
    let mut into = Recorder::new(alloc);
    let mut first = 0;
    for p in 0..programs.len() {
        let program = &programs[p];
        add_program(p, first, program, &mut into)?;
        first += program.comms.as_slice().len();
    }
    Ok(into.into_rows())
}

fn add_program(p: usize, first: usize, program: &ProgramNode, into: &mut Recorder) -> Done
    requires { first ≤ length into.old.rows.entries }
    ensures rows { OnOk result (into.new.rows ≡ rows_joined into.old.rows (rows.program_rows p first (program.now ∷ []))) }
    ensures few { OnOk result (first ≤ 2 ^ 63 - 1) }
{
    into.declare(Space::Programs.of(0, 0, 0), p, &program.name);
    into.done()?;
    let comms = Space::Comms.of(0, 0, 0);
    add_all(comms, first, program.comms.as_slice(), into);
    let modules = Space::Modules.of(p, 0, 0);
    add_all(modules, 0, program.modules.as_slice(), into);
    into.done()
}

impl Part for CommNode {
    ghost rows_of = { rows.comm_rows };

    ghost in_order = { Prim.search (rules, common_steps) };

    fn add(&self, _list: Scope, place: usize, into: &mut Recorder) {
        into.declare_with(Space::Comms.of(0, 0, 0), place, &self.name, &self.period);
        into.initial(self.ty, self.init);
    }
}

impl Part for ModuleNode {
    ghost rows_of = { rows.module_rows };

    ghost in_order = { Prim.search (rules, common_steps) };

    fn add(&self, list: Scope, place: usize, into: &mut Recorder) {
        let modes = Space::Modes.of(list.program, place, 0);
        into.declare(Space::Modules.of(0, 0, 0), place, &self.name);
        into.mention(modes, None, &self.start);
        let tasks = Space::Tasks.of(list.program, place, 0);
        add_all(tasks, 0, self.tasks.as_slice(), into);
        add_all(modes, 0, self.modes.as_slice(), into);
    }
}

// ---- tasks

impl Part for TaskNode {
    ghost rows_of = { rows.task_rows };

    ghost in_order = { Prim.search (rules, common_steps) };

    fn add(&self, list: Scope, place: usize, into: &mut Recorder) {
        let inputs = self.inputs.as_slice();
        let params = Space::Params.of(list.program, list.module, place);
        let tasks = Space::Tasks.of(list.program, list.module, 0);
        into.declare_with(tasks, place, &self.name, &self.worst);
        add_all(params, 0, inputs, into);
        match &self.outputs {
            OutNodes::Concrete { outs } => add_outs(params, inputs.len(), outs.as_slice(), into),
            OutNodes::Abstract { outs } => add_all(params, inputs.len(), outs.as_slice(), into),
        }
    }
}

// Inputs, outputs and ports.
impl Part for ParamNode {
    ghost rows_of = { rows.param_rows };

    ghost in_order = { Prim.search (rules, common_steps) };

    fn add(&self, list: Scope, place: usize, into: &mut Recorder) {
        into.declare(list, place, &self.name);
    }
}

// Outputs come behind the inputs. An output's expression uses the inputs of its task.
fn add_outs(params: Scope, inputs: usize, outs: &[OutNode], into: &mut Recorder)
    requires { inputs ≤ 2 ^ 63 - 1 }
    ensures { Adds (rows.out_rows params inputs inputs outs.now) into.old into.new }
{
    for j in 0..outs.len() {
        let out = &outs[j];
        into.declare(params, inputs + j, &out.param.name);
        into.mention_all(params, Some(inputs), &out.value);
    }
}

// ---- modes

impl Part for ModeNode {
    ghost rows_of = { rows.mode_rows };

    ghost in_order = { Prim.search (rules, common_steps) };

    fn add(&self, list: Scope, place: usize, into: &mut Recorder) {
        let modes = Space::Modes.of(list.program, list.module, 0);
        let ports = Space::Ports.of(list.program, list.module, place);
        let invokes = Space::Invokes.of(list.program, list.module, place);
        into.declare_with(modes, place, &self.name, &self.period);
        if let Some(id) = &self.program {
            into.mention(Space::Programs.of(0, 0, 0), None, id);
        }
        add_all(ports, 0, self.ports.as_slice(), into);
        add_all(invokes, 0, self.invokes.as_slice(), into);
        add_all(modes, 0, self.switches.as_slice(), into);
    }
}

impl Part for InvokeNode {
    ghost rows_of = { rows.invoke_rows };

    ghost in_order = { Prim.search (rules, common_steps) };

    fn add(&self, list: Scope, place: usize, into: &mut Recorder) {
        let tasks = Space::Tasks.of(list.program, list.module, 0);
        let ports = Space::Ports.of(list.program, list.module, list.item);
        let invokes = Space::Invokes.of(list.program, list.module, list.item);
        into.declare(invokes, place, &self.task);
        into.mention(tasks, None, &self.task);
        add_all(ports, 0, self.reads.as_slice(), into);
        add_all(ports, 0, self.writes.as_slice(), into);
        into.refine(list.program, self);
    }
}

impl Part for EndNode {
    ghost rows_of = { rows.end_rows };

    ghost in_order = { Prim.search (rules, common_steps) };

    fn add(&self, list: Scope, _place: usize, into: &mut Recorder) {
        match self {
            EndNode::Comm { comm, instance } => {
                into.mention(Space::Comms.of(0, 0, 0), None, comm);
                into.instance(instance)
            }
            EndNode::Port { port } => {
                into.mention(
                    Space::Ports.of(list.program, list.module, list.item),
                    None,
                    port,
                )
            }
        }
    }
}

// A condition uses communicators.
impl Part for SwitchNode {
    ghost rows_of = { rows.switch_rows };

    ghost in_order = { Prim.search (rules, common_steps) };

    fn add(&self, list: Scope, _place: usize, into: &mut Recorder) {
        into.mention_all(Space::Comms.of(0, 0, 0), None, &self.cond);
        into.mention(
            Space::Modes.of(list.program, list.module, 0),
            None,
            &self.target,
        );
    }
}
