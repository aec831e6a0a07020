// The flat tables of sources, against those written by hand.
use crate::asserts::{holds, same, same_in};
use crate::tables::table_rows::{
    A_LEFT_REFINEMENT, A_PORT, A_REFINED_TASK, CommRow, InvRow, ModeRow, ModuleRow, NO_TASK,
    ONE_DOUBLING_TASK, PREEMPTION, Place, PortRow, Source, SwitchRow, THREE_LEVELS, TWO_MODES,
    TWO_PERIODS, TWO_TANKS, TaskRow,
};
use crate::texts::tables_of;
use htl_base::{BinOp, Name, UnOp};
use htl_model::{Comm, End, Expr, Function, Inv, Mode, Module, Port, Switch, Tables, Task};
use htl_samples::samples;
use std::alloc::Global;

fn is_name(name: &Name, text: &str) -> bool {
    name.as_bytes() == text.as_bytes()
}

fn is_comm(comm: &Comm, row: &CommRow) -> bool {
    let (name, ty, sensor, period, init) = *row;
    is_name(&comm.name, name)
        && comm.ty == ty
        && comm.sensor == sensor
        && comm.period == period
        && comm.init == init
}

fn are_comms(comms: &[Comm], rows: &[CommRow]) -> bool {
    for k in 0..comms.len() {
        if k >= rows.len() || !is_comm(&comms[k], &rows[k]) {
            return false;
        }
    }
    comms.len() == rows.len()
}

fn is_module(module: &Module, row: &ModuleRow) -> bool {
    let (name, parent, start) = *row;
    is_name(&module.name, name) && module.parent == parent && module.start == start
}

fn are_modules(modules: &[Module], rows: &[ModuleRow]) -> bool {
    for k in 0..modules.len() {
        if k >= rows.len() || !is_module(&modules[k], &rows[k]) {
            return false;
        }
    }
    modules.len() == rows.len()
}

fn is_mode(mode: &Mode, row: &ModeRow) -> bool {
    let (name, module, period) = *row;
    is_name(&mode.name, name) && mode.module == module && mode.period == period
}

fn are_modes(modes: &[Mode], rows: &[ModeRow]) -> bool {
    for k in 0..modes.len() {
        if k >= rows.len() || !is_mode(&modes[k], &rows[k]) {
            return false;
        }
    }
    modes.len() == rows.len()
}

fn is_port(port: &Port, row: &PortRow) -> bool {
    let (name, mode, ty) = *row;
    is_name(&port.name, name) && port.mode == mode && port.ty == ty
}

fn are_ports(ports: &[Port], rows: &[PortRow]) -> bool {
    for k in 0..ports.len() {
        if k >= rows.len() || !is_port(&ports[k], &rows[k]) {
            return false;
        }
    }
    ports.len() == rows.len()
}

fn is_task(task: &Task, row: &TaskRow) -> bool {
    let (name, module, is_abstract, worst, inputs, outputs) = *row;
    is_name(&task.name, name)
        && task.module == module
        && task.is_abstract == is_abstract
        && task.worst == worst
        && task.inputs.as_slice() == inputs
        && task.outputs.as_slice() == outputs
}

fn are_tasks(tasks: &[Task], rows: &[TaskRow]) -> bool {
    for k in 0..tasks.len() {
        if k >= rows.len() || !is_task(&tasks[k], &rows[k]) {
            return false;
        }
    }
    tasks.len() == rows.len()
}

fn is_end(end: End, place: Place) -> bool {
    match (end, place) {
        (End::Comm { comm, instance }, Place::At(c, i)) => comm == c && instance == i,
        (End::Port { port }, Place::Port(p)) => port == p,
        (End::Comm { .. }, Place::Port(_)) => false,
        (End::Port { .. }, Place::At(_, _)) => false,
    }
}

fn are_ends(ends: &[End], places: &[Place]) -> bool {
    for k in 0..ends.len() {
        if k >= places.len() || !is_end(ends[k], places[k]) {
            return false;
        }
    }
    ends.len() == places.len()
}

fn is_inv(inv: &Inv, row: &InvRow) -> bool {
    let (mode, task, parent, reads, writes) = *row;
    inv.mode == mode
        && inv.task == task
        && inv.parent == parent
        && are_ends(inv.reads.as_slice(), reads)
        && are_ends(inv.writes.as_slice(), writes)
}

fn are_invs(invs: &[Inv], rows: &[InvRow]) -> bool {
    for k in 0..invs.len() {
        if k >= rows.len() || !is_inv(&invs[k], &rows[k]) {
            return false;
        }
    }
    invs.len() == rows.len()
}

fn is_switch(switch: &Switch, row: &SwitchRow) -> bool {
    let (mode, target, reads) = *row;
    switch.mode == mode && switch.target == target && switch.reads.as_slice() == reads
}

fn are_switches(switches: &[Switch], rows: &[SwitchRow]) -> bool {
    for k in 0..switches.len() {
        if k >= rows.len() || !is_switch(&switches[k], &rows[k]) {
            return false;
        }
    }
    switches.len() == rows.len()
}

// The first list that isn't the source's.
fn unlike(tables: &Tables, want: &Source) -> Option<&'static str> {
    let parts = tables.parts();
    if !are_comms(parts.comms.as_slice(), want.comms) {
        return Some("communicators");
    }
    if !are_modules(parts.modules.as_slice(), want.modules) {
        return Some("modules");
    }
    if !are_modes(parts.modes.as_slice(), want.modes) {
        return Some("modes");
    }
    if !are_ports(parts.ports.as_slice(), want.ports) {
        return Some("ports");
    }
    unlike_behind(tables, want)
}

// The same of the lists behind the ports.
fn unlike_behind(tables: &Tables, want: &Source) -> Option<&'static str> {
    let parts = tables.parts();
    if !are_tasks(parts.tasks.as_slice(), want.tasks) {
        return Some("tasks");
    }
    if !are_invs(parts.invs.as_slice(), want.invs) {
        return Some("invocations");
    }
    if !are_switches(parts.switches.as_slice(), want.switches) {
        return Some("switches");
    }
    if parts.functions.as_slice().len() != want.functions {
        return Some("functions");
    }
    None
}

// The first list of the text's tables that isn't the source's.
fn first_unlike(alloc: Global, want: &Source) -> Option<&'static str> {
    match tables_of(alloc, want.text.as_bytes()) {
        Some(Ok(tables)) => unlike(&tables, want),
        _ => Some("text"),
    }
}

const SOURCES: [Source; 10] = [
    ONE_DOUBLING_TASK,
    NO_TASK,
    PREEMPTION,
    A_PORT,
    A_REFINED_TASK,
    A_LEFT_REFINEMENT,
    TWO_MODES,
    TWO_PERIODS,
    TWO_TANKS,
    // modules are numbered in preorder
    THREE_LEVELS,
];

#[test]
fn sources_have_their_tables(rt: HostRuntime) {
    for source in SOURCES {
        same_in(&rt, source.text, first_unlike(rt.alloc(), &source), None);
    }
}

// What stands for the first root invocation of the first selection where the child is in this mode.
fn standing(tables: &Tables, child: Option<u16>) -> Option<u16> {
    if tables.positions(0) == 0 {
        return None;
    }
    tables.chosen(&[Some(0), child], tables.position(0, 0))
}

fn refined(alloc: Global) -> Option<Tables> {
    tables_of(alloc, samples::REFINED.as_bytes())?.ok()
}

fn standing_in(alloc: Global, child: Option<u16>) -> Option<Option<u16>> {
    let tables = refined(alloc)?;
    Some(standing(&tables, child))
}

#[test]
fn the_mode_of_a_child_says_what_stands(rt: HostRuntime) {
    for (child, wanted) in [(Some(2), Some(1)), (Some(3), Some(2)), (None, None)] {
        same(&rt, standing_in(rt.alloc(), child), Some(wanted));
    }
}

// The argument at this token.
fn is_arg(e: &Expr, at: u32, place: u16) -> bool {
    match e {
        Expr::Arg { token, k } => *token == at && *k == place,
        _ => false,
    }
}

// The number at this token.
fn is_int(e: &Expr, at: u32, number: i64) -> bool {
    match e {
        Expr::Int { token, x } => *token == at && *x == number,
        _ => false,
    }
}

// The only argument, the operator at the token behind it, and a number behind that.
fn is_with_number(function: &Function, from: u32, operator: BinOp, number: i64) -> bool {
    match function {
        Function::Expr {
            first,
            e: Expr::Binary { token, op, l, r },
        } => {
            *first == from
                && *token == from.saturating_add(1)
                && *op == operator
                && is_arg(l, from, 0)
                && is_int(r, from.saturating_add(2), number)
        }
        _ => false,
    }
}

// The only argument.
fn is_plain(function: &Function, from: u32) -> bool {
    match function {
        Function::Expr { first, e } => *first == from && is_arg(e, from, 0),
        Function::Code(_) => false,
    }
}

// Not the only argument.
fn is_denied(function: &Function, from: u32) -> bool {
    match function {
        Function::Expr {
            first,
            e: Expr::Unary { token, op, e },
        } => {
            *first == from
                && *token == from
                && *op == UnOp::Not
                && is_arg(e, from.saturating_add(1), 0)
        }
        _ => false,
    }
}

// The functions of the refined task's source, by the tokens at which they begin.
fn are_functions(functions: &[Function]) -> bool {
    match functions {
        [fix, fast, on, off] => {
            is_with_number(fix, 60, BinOp::Add, 1)
                && is_with_number(fast, 135, BinOp::Mul, 10)
                && is_plain(on, 149)
                && is_denied(off, 183)
        }
        _ => false,
    }
}

fn has_functions(alloc: Global, text: &[u8]) -> bool {
    match tables_of(alloc, text) {
        Some(Ok(tables)) => are_functions(tables.parts().functions.as_slice()),
        _ => false,
    }
}

#[test]
fn functions_are_those_of_outputs_then_switches(rt: HostRuntime) {
    holds(
        &rt,
        has_functions(rt.alloc(), A_REFINED_TASK.text.as_bytes()),
    );
}
