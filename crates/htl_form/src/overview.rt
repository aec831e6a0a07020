// What is counted once before the rules are tried.
ghost use Rattle.htl_form.specs.AbstractWriters.{is_abstractly_written, MarksPorts};
ghost use Rattle.htl_form.specs.Overviews.{IsOverviewOf};

use crate::abstract_ports::AbstractPorts;
use crate::frame_rule::frames;
use crate::survey::Survey;
use htl_model::{FormFault, Tables};

/// What is counted once over the tables, so that each part is judged in a few steps.
pub struct Overview {
    pub survey: Survey,
    pub abstract_ports: AbstractPorts,
    /// What the limits of frames answer.
    pub frame: Result<(), FormFault>,
}

impl Drop for Overview {
    fn drop(self) {
        let Self {
            survey: _,
            abstract_ports: _,
            frame: _,
        } = self;
    }
}

impl Overview {
    /// The overview of these tables.
    pub fn of(t: &Tables) -> Overview
        ensures { IsOverviewOf t.now result }
    {
        Overview {
            survey: Survey::of(t),
            abstract_ports: AbstractPorts::of(t),
            frame: frames(t),
        }
    }
}
