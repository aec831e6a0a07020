// The phases of an instant.
ghost use Rattle.std.specs.Prelude.{◌≡◌};
ghost use Rattle.htl_ecode.specs.Phases.{number_of, phase_of};

/// A phase of an instant. All modules are done with one before the next begins.
#[derive(Clone, Copy, PartialEq, Eq)]
pub enum Phase {
    /// Outputs are written to their communicators.
    Write,
    /// Modules go on or switch.
    Switch,
    /// Inputs are read and jobs are released.
    Read,
}

impl Phase {
    /// Its number, as instructions of E code hold it: 1 write, 2 switch, 3 read.
    pub fn number(self) -> u8
        ensures { result ≡ number_of self }
    {
        match self {
            Phase::Write => 1,
            Phase::Switch => 2,
            Phase::Read => 3,
        }
    }

    /// The phase with this number; any number but 1 and 2 stands for the last phase.
    pub fn of(number: u8) -> Phase
        ensures { result ≡ phase_of number }
    {
        match number {
            1 => Phase::Write,
            2 => Phase::Switch,
            _ => Phase::Read,
        }
    }
}
