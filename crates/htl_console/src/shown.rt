// What a run shows.
ghost use Rattle.std.specs.Prelude.{◌≡◌};
ghost use Rattle.htl_console.specs.Shows.{shows_values, shows_jobs, shows_code};

/// Which lines of a run are shown; the totals line always is.
#[derive(Clone, Copy)]
pub enum Shown {
    /// The totals alone.
    Nothing,
    /// The values of communicators and the modes of modules.
    Values,
    /// The slices of jobs and when they are done, too.
    Jobs,
    /// The instructions of both machines, too.
    Code,
}

impl Shown {
    /// Whether values and modes are shown.
    pub fn values(self) -> bool
        ensures { result ≡ shows_values self }
    {
        match self {
            Shown::Nothing => false,
            Shown::Values | Shown::Jobs | Shown::Code => true,
        }
    }

    /// Whether slices and jobs that are done are shown.
    pub fn jobs(self) -> bool
        ensures { result ≡ shows_jobs self }
    {
        match self {
            Shown::Nothing | Shown::Values => false,
            Shown::Jobs | Shown::Code => true,
        }
    }

    /// Whether instructions are shown.
    pub fn code(self) -> bool
        ensures { result ≡ shows_code self }
    {
        match self {
            Shown::Nothing | Shown::Values | Shown::Jobs => false,
            Shown::Code => true,
        }
    }
}
