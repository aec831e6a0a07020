// An answer with what its line speaks of.
ghost use Rattle.std.specs.Prelude.{◌≡◌, None};
ghost use Rattle.htl_times_top.specs.Answers.{unopened_as, tables_unopened};

use crate::Outcome;
use htl_model::Tables;
use htl_open::OpenStop;

/// An answer, and the tables that its line speaks of: where a form rule is broken, those that break it.
pub struct Answer {
    pub outcome: Outcome,
    pub tables: Option<Tables>,
}

impl Drop for Answer {
    fn drop(self) {
        let Self {
            outcome: _,
            tables: _,
        } = self;
    }
}

impl Answer {
    /// An answer whose line speaks of no tables.
    pub fn plain(outcome: Outcome) -> Answer
        ensures outcome { result.outcome ≡ outcome }
        ensures tables { result.tables ≡ None }
    {
        Answer {
            outcome,
            tables: None,
        }
    }

    /// Why no accepted object is had, as an answer.
    pub fn unopened(stop: OpenStop) -> Answer
        ensures outcome { result.outcome ≡ unopened_as stop }
        ensures tables { result.tables ≡ tables_unopened stop }
    {
        match stop {
            OpenStop::Shelf(why) => Answer::plain(Outcome::Shelf(why)),
            OpenStop::Object { fault, tables } => Answer {
                outcome: Outcome::Object(fault),
                tables,
            },
            OpenStop::Memory => Answer::plain(Outcome::Memory),
        }
    }
}
