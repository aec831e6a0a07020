// The greatest of counts of ticks, one for each path.
ghost use Rattle.std.specs.Prelude.{◌≡◌};
ghost use Rattle.htl_times.specs.Noting.{greater_of};

use htl_base::Time;

/// The greatest of counts of ticks, one for each path through a frame.
#[derive(Clone, Copy, PartialEq, Eq, Debug)]
pub struct Greatest {
    /// In ticks.
    pub ticks: Time,
    /// The first path that has it.
    pub path: u32,
}

/// The greater of what is noted and the count of a further path; of two alike the one that is noted.
pub fn greater(noted: Option<Greatest>, ticks: Time, path: u32) -> Option<Greatest>
    ensures { result ≡ greater_of noted ticks path }
{
    match noted {
        Some(greatest) => {
            if greatest.ticks < ticks {
                Some(Greatest { ticks, path })
            } else {
                Some(greatest)
            }
        }
        None => Some(Greatest { ticks, path }),
    }
}
