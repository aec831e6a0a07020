// Why a platform file is refused.
ghost use Rattle.std.specs.Prelude.{◌≡◌};
ghost use Rattle.htl_platform.specs.declared.fault.PlatformStop.TheVariants.{Memory};

use std::alloc::AllocError;

/// The first fault of a platform file.
///
/// Entries are numbered from 0: those of the file's own table by the bytes of their keys, then those of `worst` in the same
/// way. The kinds are tried in the order in which they stand here.
#[derive(Clone, Copy, PartialEq, Eq, Debug)]
pub enum PlatformFault {
    /// The bytes are no UTF-8 or no TOML. A whole number outside 64 bits is no TOML.
    Text,
    /// The first entry that has another key than `name` and `worst`, a `name` that is no text or no name, a `worst` that is
    /// no table, or an entry of `worst` that is no whole number. Where there is none of these and no `name`, the number of
    /// entries of the file's own table.
    Shape { entry: u32 },
    /// The first entry of `worst` whose key isn't `module.task` of a declared task.
    Unknown { entry: u32 },
    /// The first entry of `worst` whose number isn't from 1 to 1,000,000.
    Range { entry: u32 },
}

/// Why no platform was read.
#[derive(Clone, Copy, PartialEq, Eq, Debug)]
pub enum PlatformStop {
    /// The file's first fault.
    Refused(PlatformFault),
    /// No memory was left; or the number of the first fault's entry is above 4,294,967,295, for which a file has to have
    /// as many bytes.
    Memory,
}

impl From<AllocError> for PlatformStop {
    ghost from_gives = { λ _ stop. stop ≡ Memory };

    fn from(_error: AllocError) -> PlatformStop {
        PlatformStop::Memory
    }
}
