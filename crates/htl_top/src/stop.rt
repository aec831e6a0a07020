// Why commands stop, each with stops of its own.
use crate::input::InputStop;
use htl_audit::LogFault;
use htl_compile::SourceStop;
use htl_open::{FetchStop, OpenStop};
use htl_patch::PatchStop;
use htl_script::ScriptFault;

/// Why a command on an object stops.
#[derive(Drop)]
pub enum OnObject<A> {
    /// No accepted object is had, or not the file beside it.
    Open(OpenStop),
    /// What is done with an accepted one stops.
    Work(A),
}

impl<A: Drop> From<OpenStop> for OnObject<A> {
    ghost use Rattle.std.specs.Prelude.{◌≡◌};
    ghost use Rattle.htl_top.specs.declared.stop.OnObject.TheVariants as on;

    ghost from_gives = { λ stop s. s ≡ on.Open stop };

    fn from(stop: OpenStop) -> OnObject<A> {
        OnObject::Open(stop)
    }
}

/// Why bytes aren't made and written.
#[derive(Clone, Copy, PartialEq, Eq, Debug)]
pub enum PutStop {
    /// The output failed; a prefix was written.
    Write,
    /// No memory was left; nothing was written.
    Memory,
}

/// Why the slack of a task isn't told.
#[derive(Clone, Copy, PartialEq, Eq, Debug)]
pub enum SlackStop {
    /// The names are those of no task that is invoked in a root module.
    Task,
    /// No memory was left; nothing was written.
    Memory,
    /// The output failed; a prefix was written.
    Write,
}

/// Why a run ends before the script does, or a plan isn't written.
#[derive(Clone, Copy, PartialEq, Eq, Debug)]
pub enum RunStop {
    /// The script, or the selection, isn't whole.
    Script(ScriptFault),
    /// The input failed.
    Read,
    /// The output failed; a prefix was written.
    Write,
    /// No memory was left; nothing was read and nothing written.
    Memory,
}

/// Why a job log isn't found legal.
#[derive(Clone, Copy, PartialEq, Eq, Debug)]
pub enum AuditStop {
    /// The log has a fault.
    Log(LogFault),
    /// The run that it is audited for stops.
    Run(RunStop),
}

/// Why an object isn't written with a donor's refinement.
#[derive(Drop)]
pub enum DonorStop {
    /// The refinement isn't taken over.
    Patch(PatchStop),
    /// The new object isn't written.
    Put(PutStop),
}

/// Why the object of the input isn't written.
#[derive(Drop)]
pub enum CompileStop {
    /// The input wasn't had whole.
    Input(InputStop),
    /// No object is built of the source.
    Source(SourceStop),
    /// The output failed; a prefix was written.
    Write,
}

/// Why the object of the input on a platform isn't written.
#[derive(Drop)]
pub enum CompileWithStop {
    /// The platform file isn't had.
    File(FetchStop),
    /// The input isn't compiled for it.
    Compile(CompileStop),
}

/// Why a source isn't compiled and run to its script's end.
#[derive(Drop)]
pub enum GoStop {
    /// The source isn't had.
    File(FetchStop),
    /// No object is built of it.
    Source(SourceStop),
    /// The run of its object stops.
    Run(RunStop),
}
