// The length of a job that isn't released yet.
ghost use Rattle.std.specs.Prelude.{◌≡◌, ◌&&◌, eqb, ◌≤◌, ◌<◌, ℕ, List, length, slice_get, IfSome, Some};
ghost use Rattle.htl_walk.specs.declared.job.Job.{Job as Work};
ghost use Rattle.htl_walk.specs.declared.schedule.SInstr.{SInstr as Instr};
ghost use Rattle.htl_walk.specs.Walk.{job_at};
ghost use Rattle.htl_smach.specs.Rounds.{Stands};
ghost use Rattle.htl_runs.specs.frames.LastPositions.{position_from};
ghost use Rattle.htl_runs.specs.events.ToldSoFar.{s_machine_taking};

use htl_base::Time;
use htl_smach::{PosState, SMach};
use htl_walk::Job;

// Whether a job is of an invocation.
fn is_of(job: &Job, inv: u16) -> bool
    ensures { result ≡ (job.now.present && eqb job.now.inv inv) }
{
    job.inv == inv && job.present
}

// The last position of an invocation among the jobs of a frame: that of its present round.
pub(crate) fn position(jobs: &[Job], inv: u16) -> Option<usize>
    ensures place { result ≡ position_from 0 jobs.now inv }
    ensures known { IfSome result (λ p. p < length jobs.now) }
{
    let mut p = jobs.len();
    while p > 0 {
        p -= 1;
        if is_of(&jobs[p], inv) {
            return Some(p);
        }
    }
    None
}

/// A job of the invocation that is pending takes so long: from 1 to its worst case.
pub fn take(s_machine: &mut SMach, jobs: &[Job], inv: u16, ticks: Time)
    requires jobs { s_machine.old.jobs ≡ jobs.now }
    requires some { 1 ≤ ticks }
    requires worst { (p : ℕ) → position_from 0 jobs.now inv ≡ Some p → ticks ≤ (job_at jobs.now p).worst }
    ensures s_machine { s_machine.new ≡ s_machine_taking inv ticks s_machine.old }
    ensures jobs { s_machine.new.jobs ≡ s_machine.old.jobs }
    ensures stands { (s : List Instr) → Stands s_machine.old s → Stands s_machine.new s }
{
    if let Some(p) = position(jobs, inv) {
        match s_machine.state(p) {
            PosState::Pending => s_machine.set_length(p, ticks),
            _ => {}
        }
    }
}
