// What the top call answers.
ghost use Rattle.std.specs.Prelude.{◌≡◌};
ghost use Rattle.htl_top.specs.Status.{status_of};

use htl_audit::LogFault;
use htl_base::Time;
use htl_compile::SourceFault;
use htl_load::ObjectFault;
use htl_model::FormFault;
use htl_open::ShelfCause;
use htl_patch::PatchFault;
use htl_platform::PlatformFault;
use htl_script::ScriptFault;

/// What a command of the tool came to.
#[derive(Clone, Copy, PartialEq, Eq, Debug)]
pub enum Outcome {
    /// All was written.
    Done,
    /// The words are no command.
    Usage,
    /// The source has no tables whose functions are compiled.
    Source(SourceFault),
    /// The tables of the source break a form rule.
    IllFormed(FormFault),
    /// A path through a frame of the source is overloaded: no schedules whatever keep its deadlines.
    Unschedulable {
        /// The number of the first such path: where all root modules have one period, that of the root selection.
        selection: u32,
        /// The overloaded interval, in ticks from the start of the frame.
        from: Time,
        /// Its end.
        to: Time,
        /// The worst cases that have to be done in it, in ticks.
        demand: u64,
    },
    /// The file is no accepted object: its bytes are none, or the object fails a test.
    Object(ObjectFault),
    /// The script isn't whole; the lines of the events before its first fault were written.
    Script(ScriptFault),
    /// The shelf didn't give the file.
    Shelf(ShelfCause),
    /// The input failed.
    Read,
    /// The output failed; a prefix was written.
    Write,
    /// No memory was left.
    Memory,
    /// The platform file has a fault for the tables of the source.
    Platform(PlatformFault),
    /// The names are those of no task that is invoked in a root module.
    Task,
    /// The job log has a fault: a line that can't be read, before anything was read or written, or the first fault of its audit, after
    /// values and modes were written.
    Log(LogFault),
    /// The donor's refinement isn't taken over.
    Patch(PatchFault),
}

/// The status with which the program ends: 0 for Done, 2 Usage, 3 Source, 4 IllFormed, 5 Unschedulable, 6 Object, 7
/// Script, 8 Shelf, 9 Read, 10 Write, 11 Memory, 12 Platform, 13 Log, 14 Patch and 15 Task.
pub fn status(o: &Outcome) -> u8
    ensures { result ≡ status_of o.now }
{
    match o {
        Outcome::Done => 0,
        Outcome::Usage => 2,
        Outcome::Source(_) => 3,
        Outcome::IllFormed(_) => 4,
        Outcome::Unschedulable { .. } => 5,
        Outcome::Object(_) => 6,
        Outcome::Script(_) => 7,
        Outcome::Shelf(_) => 8,
        Outcome::Read => 9,
        Outcome::Write => 10,
        Outcome::Memory => 11,
        Outcome::Platform(_) => 12,
        Outcome::Task => 15,
        Outcome::Log(_) => 13,
        Outcome::Patch(_) => 14,
    }
}
