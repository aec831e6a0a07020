// The listing of an object: its sections in their order.
ghost use Rattle.std.specs.Prelude.{map};
ghost use Rattle.std.specs.Option.{option_copied};
ghost use Rattle.htl_edge.specs.Content.{Puts};
ghost use Rattle.htl_model.specs.Tables.{fun_of};
ghost use Rattle.htl_console.specs.Listing.{all_lines, comm_line, module_line, mode_line, inv_line, function_line, code_line, schedule_line, schedule_lines, tables_lines, platform_lines, listing};

use crate::items::{
    show_comm, show_function, show_instr, show_inv, show_mode, show_module, show_platform,
    show_step,
};
use htl_base::Name;
use htl_ecode::{ECode, EInstr};
use htl_edge::{Failed, Sink};
use htl_model::{Comm, Function, Inv, Mode, Module, Tables};
use htl_walk::{SInstr, Schedule};

/// Writes the listing of tables whose functions are code, with their E code and the schedules of the nodes: the line
/// `platform NAME` where there is a platform, and then a line for each communicator, module, mode, invocation, function, E
/// instruction and S instruction, in this order; that each is one piece is tested. It takes no memory. After `Failed`, which comes
/// only where the sink counted a fault, a prefix was written. A number in E code that names no item is written as it is; a function
/// that is no code has no line.
pub fn show<W: Sink>(
    sink: &mut W,
    platform: Option<&Name>,
    t: &Tables,
    code: &ECode,
    schedules: &[Schedule],
) -> Result<(), Failed>
    ensures { Puts (W.written sink.old) (W.written sink.new) (W.faults sink.old) (W.faults sink.new) (listing (option_copied platform.entry) t.now code.now schedules.now) result }
{
    if let Err(failed) = show_head(sink, platform) {
        return Err(failed);
    }
    if let Err(failed) = show_tables(sink, t) {
        return Err(failed);
    }
    if let Err(failed) = show_code(sink, t, code.instrs.as_slice()) {
        return Err(failed);
    }
    show_schedules(sink, schedules)
}

// The platform, where there is one.
fn show_head<W: Sink>(sink: &mut W, platform: Option<&Name>) -> Result<(), Failed>
    ensures { Puts (W.written sink.old) (W.written sink.new) (W.faults sink.old) (W.faults sink.new) (platform_lines (option_copied platform.entry)) result }
{
    match platform {
        Some(name) => show_platform(sink, name),
        None => Ok(()),
    }
}

// The sections of the tables.
fn show_tables<W: Sink>(sink: &mut W, t: &Tables) -> Result<(), Failed>
    ensures { Puts (W.written sink.old) (W.written sink.new) (W.faults sink.old) (W.faults sink.new) (tables_lines t.now) result }
{
    let parts = t.parts();
    if let Err(failed) = show_comms(sink, parts.comms.as_slice()) {
        return Err(failed);
    }
    if let Err(failed) = show_modules(sink, t, parts.modules.as_slice()) {
        return Err(failed);
    }
    if let Err(failed) = show_modes(sink, t, parts.modes.as_slice()) {
        return Err(failed);
    }
    if let Err(failed) = show_invs(sink, t, parts.invs.as_slice()) {
        return Err(failed);
    }
    show_functions(sink, parts.functions.as_slice())
}

fn show_comms<W: Sink>(sink: &mut W, comms: &[Comm]) -> Result<(), Failed>
    ensures { Puts (W.written sink.old) (W.written sink.new) (W.faults sink.old) (W.faults sink.new) (all_lines (λ k c. comm_line c) comms.now) result }
{
    for k in 0..comms.len() {
        if let Err(failed) = show_comm(sink, &comms[k]) {
            return Err(failed);
        }
    }
    Ok(())
}

fn show_modules<W: Sink>(sink: &mut W, t: &Tables, modules: &[Module]) -> Result<(), Failed>
    ensures { Puts (W.written sink.old) (W.written sink.new) (W.faults sink.old) (W.faults sink.new) (all_lines (λ k x. module_line t.now x) modules.now) result }
{
    for k in 0..modules.len() {
        if let Err(failed) = show_module(sink, t, &modules[k]) {
            return Err(failed);
        }
    }
    Ok(())
}

fn show_modes<W: Sink>(sink: &mut W, t: &Tables, modes: &[Mode]) -> Result<(), Failed>
    ensures { Puts (W.written sink.old) (W.written sink.new) (W.faults sink.old) (W.faults sink.new) (all_lines (λ k m. mode_line t.now m) modes.now) result }
{
    for k in 0..modes.len() {
        if let Err(failed) = show_mode(sink, t, &modes[k]) {
            return Err(failed);
        }
    }
    Ok(())
}

fn show_invs<W: Sink>(sink: &mut W, t: &Tables, invs: &[Inv]) -> Result<(), Failed>
    ensures { Puts (W.written sink.old) (W.written sink.new) (W.faults sink.old) (W.faults sink.new) (all_lines (λ k i. inv_line t.now i) invs.now) result }
{
    for k in 0..invs.len() {
        if let Err(failed) = show_inv(sink, t, &invs[k]) {
            return Err(failed);
        }
    }
    Ok(())
}

fn show_functions<W: Sink>(sink: &mut W, functions: &[Function]) -> Result<(), Failed>
    ensures { Puts (W.written sink.old) (W.written sink.new) (W.faults sink.old) (W.faults sink.new) (all_lines function_line (map fun_of functions.now)) result }
{
    for k in 0..functions.len() {
        if let Err(failed) = show_function(sink, k, &functions[k]) {
            return Err(failed);
        }
    }
    Ok(())
}

fn show_code<W: Sink>(sink: &mut W, t: &Tables, instrs: &[EInstr]) -> Result<(), Failed>
    ensures { Puts (W.written sink.old) (W.written sink.new) (W.faults sink.old) (W.faults sink.new) (all_lines (code_line t.now) instrs.now) result }
{
    for k in 0..instrs.len() {
        if let Err(failed) = show_instr(sink, t, k, &instrs[k]) {
            return Err(failed);
        }
    }
    Ok(())
}

fn show_schedule<W: Sink>(sink: &mut W, selection: usize, instrs: &[SInstr]) -> Result<(), Failed>
    ensures { Puts (W.written sink.old) (W.written sink.new) (W.faults sink.old) (W.faults sink.new) (all_lines (schedule_line selection) instrs.now) result }
{
    for k in 0..instrs.len() {
        if let Err(failed) = show_step(sink, selection, k, &instrs[k]) {
            return Err(failed);
        }
    }
    Ok(())
}

/// Writes the lines `S NUMBER:PLACE TEXT` of schedules, each with its number from 0: those that end a listing. It takes no memory.
/// After `Failed`, which comes only where the sink counted a fault, a prefix was written.
pub fn show_schedules<W: Sink>(sink: &mut W, schedules: &[Schedule]) -> Result<(), Failed>
    ensures { Puts (W.written sink.old) (W.written sink.new) (W.faults sink.old) (W.faults sink.new) (all_lines schedule_lines schedules.now) result }
{
    for k in 0..schedules.len() {
        if let Err(failed) = show_schedule(sink, k, schedules[k].instrs.as_slice()) {
            return Err(failed);
        }
    }
    Ok(())
}
