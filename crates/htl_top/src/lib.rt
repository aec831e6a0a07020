//! The commands: from the words, a shelf and a script to the lines of a run, and from an object to what is told of it.
#![tactic(auto)]

mod answer;
mod audit;
mod audit_play;
mod bulk;
mod check;
mod commands;
mod compile;
mod execute;
mod fault_line;
mod fetch;
mod go;
mod input;
mod laws;
mod outcome;
mod patch;
mod patch_line;
mod plan;
mod play;
mod positions;
mod run;
mod show;
mod slack;
mod source;
mod stop;
mod top;
mod words;

pub use fault_line::report;
pub use htl_audit::{LogFault, LogKind};
pub use htl_compile::SourceFault;
pub use htl_open::ShelfCause;
pub use htl_patch::PatchFault;
pub use htl_plan::read_selection;
pub use htl_platform::PlatformFault;
pub use htl_script::ScriptStop;
pub use laws::{
    earlier_readings_decide_texts, earlier_readings_decide_values, go_job_lines_are_found,
    go_keeps_deadlines, go_shows_job_lines, go_shows_the_meaning, go_tells_a_legal_log,
    go_tells_jobs_in_time, go_value_lines_are_found, names_tell_apart, sensors_decide_lines,
};
pub use outcome::{Outcome, status};
pub use top::htl;
