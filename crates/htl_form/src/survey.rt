// What is counted once over the tables before their ends are judged.
ghost use Rattle.htl_form.specs.Surveys.{IsSurveyOf};

use crate::apart::mark_apart;
use crate::cycles::mark_cycles;
use crate::ports::{count_writers, note_first_writers};
use htl_base::limits::{MAX_INVOCATIONS, MAX_PORTS};
use htl_model::Tables;

/// Counts over the whole tables, so that each end is judged in a few steps.
#[derive(Drop)]
pub struct Survey {
    /// For each port how many outputs write it.
    pub writers: [u32; MAX_PORTS],
    /// For each port the first invocation that writes it.
    pub first_writers: [Option<u16>; MAX_PORTS],
    /// For each invocation whether it precedes itself by the ports.
    pub on_cycle: [bool; MAX_INVOCATIONS],
    /// For each invocation whether it surely writes nothing that an earlier concrete one writes.
    pub apart: [bool; MAX_INVOCATIONS],
}

impl Survey {
    /// The survey of these tables.
    pub fn of(t: &Tables) -> Survey
        ensures { IsSurveyOf t.now result }
    {
        t.keeps_ranges();
        let mut survey = Survey {
            writers: [0; MAX_PORTS],
            first_writers: [None; MAX_PORTS],
            on_cycle: [false; MAX_INVOCATIONS],
            apart: [false; MAX_INVOCATIONS],
        };
        count_writers(t, &mut survey.writers);
        note_first_writers(t, &mut survey.first_writers);
        mark_cycles(t, &mut survey.on_cycle);
        mark_apart(t, &mut survey.apart);
        survey
    }
}
