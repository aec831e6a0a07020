//! What a run prints, line by line, and the listing of an object.
//!
//! Each line is given to the sink in one piece, which tests see and no clause says. No call takes memory. `Failed` comes only
//! where the sink counted a fault; what was written is then a prefix of the text. Instants and lengths are in ticks.
#![tactic(auto)]

mod instrs;
mod items;
mod lines;
mod listing;
mod names;
mod shown;

pub use lines::{line_d, line_e, line_end, line_j, line_m, line_plan, line_s, line_v};
pub use listing::{show, show_schedules};
pub use shown::Shown;
