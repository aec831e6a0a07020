// The instructions of a phase, with their lines.
ghost use Rattle.std.specs.Prelude.{◌≡◌, cond, eqb, List, OnOk};
ghost use Rattle.htl_edge.specs.Content.{Puts};
ghost use Rattle.htl_model.specs.declared.event.Event.{Event};
ghost use Rattle.htl_walk.specs.declared.schedule.SInstr.{SInstr as Instr};
ghost use Rattle.htl_smach.specs.Rounds.{Stands};
ghost use Rattle.htl_ecode.specs.Phases.{number_of};
ghost use Rattle.htl_machine.specs.Asking.{AreStarting};
ghost use Rattle.htl_runs.specs.instants.Releases.{s_machine_does};
ghost use Rattle.htl_machine.specs.Doing.{instr_lines};
ghost use Rattle.htl_machine.specs.Parts.{PartGiven, PhaseText, DoesPhase, PhaseKeeps};

use crate::lengths::position;
use crate::works::{Machines, Program};
use htl_base::Time;
use htl_console::{Shown, line_e};
use htl_ecode::{EInstr, Phase};
use htl_edge::{Failed, Sink};
use htl_model::Tables;
use htl_smach::{PosState, SMach};
use htl_walk::Job;

// The line of an instruction.
fn tell_instr<W: Sink>(
    sink: &mut W,
    t: &Tables,
    show: Shown,
    at: Time,
    address: u32,
    instr: EInstr,
) -> Result<(), Failed>
    ensures { Puts (W.written sink.old) (W.written sink.new) (W.faults sink.old) (W.faults sink.new) (instr_lines t.now show at address instr) result }
{
    if show.code() {
        // Only here does the instruction need a place in memory.
        let told = instr;
        line_e(sink, t, at, address, &told)
    } else {
        Ok(())
    }
}

// The release of an invocation whose position is pending is told.
fn release(s_machine: &mut SMach, jobs: &[Job], instr: EInstr)
    requires jobs { s_machine.old.jobs ≡ jobs.now }
    ensures s_machine { s_machine.new ≡ s_machine_does instr s_machine.old }
    ensures jobs { s_machine.new.jobs ≡ s_machine.old.jobs }
    ensures stands { (s : List Instr) → Stands s_machine.old s → Stands s_machine.new s }
{
    if let EInstr::Release { inv } = instr {
        if let Some(p) = position(jobs, inv) {
            match s_machine.state(p) {
                PosState::Pending => s_machine.release(p),
                _ => {}
            }
        }
    }
}

// In the read phase releases are told.
fn release_in(s_machine: &mut SMach, jobs: &[Job], phase: Phase, instr: EInstr)
    requires jobs { s_machine.old.jobs ≡ jobs.now }
    ensures s_machine { s_machine.new ≡ cond (eqb (number_of phase) 3) (s_machine_does instr s_machine.old) s_machine.old }
    ensures jobs { s_machine.new.jobs ≡ s_machine.old.jobs }
    ensures stands { (s : List Instr) → Stands s_machine.old s → Stands s_machine.new s }
{
    match phase {
        Phase::Read => release(s_machine, jobs, instr),
        Phase::Write | Phase::Switch => {}
    }
}

/// Does a whole phase of an instant, for every list of events that the machine follows: writes and counts its instructions, marks what
/// they may change, and in the read phase tells the S machine of releases. After `Failed` a prefix of the lines was written.
pub fn do_instrs<W: Sink>(
    sink: &mut W,
    machines: &mut Machines,
    program: &Program<'_>,
    jobs: &[Job],
    phase: Phase,
    at: Time,
) -> Result<(), Failed>
    requires given { PartGiven program.now jobs.now at machines.old }
    requires starts { (es : List Event) × AreStarting program.now es at (number_of phase) machines.old }
    ensures text { PhaseText program.now at phase machines.old (W.written sink.old) (W.written sink.new) (W.faults sink.old) (W.faults sink.new) result }
    ensures events { DoesPhase program.now at phase machines.old machines.new result }
    ensures keeps { OnOk result (PhaseKeeps program.now (number_of phase) machines.old machines.new) }
{
    let t = program.tables;
    let _parts = t.parts();
    if !machines.emach.is_due(t, program.code, phase, at) {
        return Ok(());
    }
    do_due(sink, machines, program, jobs, phase, at)
}

// The same, instruction by instruction. It stands alone, so that a phase in which nothing is due makes no room for it.
#[inline(never)]
fn do_due<W: Sink>(
    sink: &mut W,
    machines: &mut Machines,
    program: &Program<'_>,
    jobs: &[Job],
    phase: Phase,
    at: Time,
) -> Result<(), Failed>
    requires given { PartGiven program.now jobs.now at machines.old }
    requires starts { (es : List Event) × AreStarting program.now es at (number_of phase) machines.old }
    ensures text { PhaseText program.now at phase machines.old (W.written sink.old) (W.written sink.new) (W.faults sink.old) (W.faults sink.new) result }
    ensures events { DoesPhase program.now at phase machines.old machines.new result }
    ensures keeps { OnOk result (PhaseKeeps program.now (number_of phase) machines.old machines.new) }
{
    let t = program.tables;
    let _parts = t.parts();
    loop {
        match machines
            .emach
            .do_next(t, program.code, &mut machines.works.world, phase, at)
        {
            Some(done) => {
                machines.works.tally.instr();
                machines.noted.note(t, &done);
                release_in(&mut machines.works.s_machine, jobs, phase, done.instr);
                if let Err(failed) = tell_instr(
                    sink,
                    t,
                    program.show,
                    at,
                    done.address,
                    done.instr,
                ) {
                    return Err(failed);
                }
            }
            None => return Ok(()),
        }
    }
}
