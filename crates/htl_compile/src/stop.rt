// Why no object is built of a source.
use crate::building::BackFault;
use crate::compiling::CompileFault;
use crate::compiling_on::WithFault;
use crate::source::FrontFault;
use crate::source_fault::SourceFault;
use htl_base::{Memory, Time};
use htl_model::{FormFault, Tables};
use htl_platform::{PlatformFault, PlatformStop};

/// Why no object is built of a source, with the tables that a fault of theirs speaks of.
#[derive(Drop)]
pub enum SourceStop {
    /// The source has no tables whose functions are compiled.
    Fault(SourceFault),
    /// The platform file has a fault for its tables.
    Platform(PlatformFault),
    /// Its tables break a form rule.
    IllFormed {
        /// The first that is broken, and where.
        fault: FormFault,
        /// The tables, with code for their functions, and with the worst cases of a platform where one is named.
        tables: Tables,
    },
    /// A path is overloaded.
    Unschedulable {
        /// The number of the first such path.
        selection: u32,
        /// The overloaded interval, in ticks from the start of the frame.
        from: Time,
        /// Its end.
        to: Time,
        /// The worst cases that have to be done in it, in ticks.
        demand: u64,
    },
    /// No memory was left.
    Memory,
}

impl From<Memory> for SourceStop {
    ghost use Rattle.std.specs.Prelude.{◌≡◌};
    ghost use Rattle.htl_compile.specs.declared.stop.SourceStop.TheVariants as stop;

    ghost from_gives = { λ _ s. s ≡ stop.Memory };

    fn from(_memory: Memory) -> SourceStop {
        SourceStop::Memory
    }
}

impl From<FrontFault> for SourceStop {
    ghost use Rattle.std.specs.Prelude.{◌≡◌};
    ghost use Rattle.htl_compile.specs.Stops.{unread_of};

    ghost from_gives = { λ fault s. s ≡ unread_of fault };

    fn from(fault: FrontFault) -> SourceStop {
        match fault {
            FrontFault::Source(fault) => SourceStop::Fault(fault),
            FrontFault::Memory => SourceStop::Memory,
        }
    }
}

impl From<PlatformStop> for SourceStop {
    ghost use Rattle.std.specs.Prelude.{◌≡◌};
    ghost use Rattle.htl_compile.specs.Stops.{unplaced_of};

    ghost from_gives = { λ fault s. s ≡ unplaced_of fault };

    fn from(fault: PlatformStop) -> SourceStop {
        match fault {
            PlatformStop::Refused(fault) => SourceStop::Platform(fault),
            PlatformStop::Memory => SourceStop::Memory,
        }
    }
}

impl From<(Tables, BackFault)> for SourceStop {
    ghost use Rattle.std.specs.Prelude.{◌≡◌};
    ghost use Rattle.htl_compile.specs.Stops.{stop_of};

    ghost from_gives = { λ e s. s ≡ stop_of e.0 e.1 };

    fn from(refused: (Tables, BackFault)) -> SourceStop {
        let (tables, fault) = refused;
        match fault {
            BackFault::IllFormed(fault) => SourceStop::IllFormed { fault, tables },
            BackFault::Unschedulable {
                selection,
                from,
                to,
                demand,
            } => SourceStop::Unschedulable {
                selection,
                from,
                to,
                demand,
            },
            BackFault::Memory => SourceStop::Memory,
        }
    }
}

impl From<SourceStop> for WithFault {
    ghost use Rattle.std.specs.Prelude.{◌≡◌};
    ghost use Rattle.htl_compile.specs.Stops.{fault_of};

    ghost from_gives = { λ s f. f ≡ fault_of s };

    fn from(stop: SourceStop) -> WithFault {
        match stop {
            SourceStop::Fault(fault) => WithFault::Compile(CompileFault::Source(fault)),
            SourceStop::Platform(fault) => WithFault::Platform(fault),
            SourceStop::IllFormed { fault, tables: _ } => {
                WithFault::Compile(CompileFault::IllFormed(fault))
            }
            SourceStop::Unschedulable {
                selection,
                from,
                to,
                demand,
            } => WithFault::Compile(CompileFault::Unschedulable {
                selection,
                from,
                to,
                demand,
            }),
            SourceStop::Memory => WithFault::Compile(CompileFault::Memory),
        }
    }
}
