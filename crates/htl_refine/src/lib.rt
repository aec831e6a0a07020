//! Refinement: the form rules 13 to 16, selections of running modes, and the jobs of a round in one.
#![tactic(auto)]

mod answer;
mod begun;
mod derived;
mod derived_path;
pub mod laws;
mod order;
mod refining;
mod roots;
mod rule;
mod selection;
mod trial;

pub use answer::{refine, try_rules};
pub use begun::{begun_choice, derive_begun};
pub use derived::derive;
pub use derived_path::derive_path;
pub use roots::selection_of;
pub use selection::{Selection, is_selection};
