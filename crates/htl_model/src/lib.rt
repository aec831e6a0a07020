//! The tables of a program and what they mean: windows, functions, and the values and modes of logical
//! execution time.
#![tactic(auto)]

mod accessors;
pub mod bits;
pub mod choice;
mod copying;
pub mod eval;
mod event;
pub mod exchange;
mod form_fault;
pub mod frame;
mod frame_limits;
mod function;
pub mod items;
mod line;
pub mod lookup;
mod nodes;
mod parts;
pub mod places;
pub mod port_ends;
pub mod port_table;
pub mod rounds;
pub mod search;
pub mod selections;
mod starts;
mod state;
mod tables;
pub mod window;

pub use event::Event;
pub use form_fault::FormFault;
pub use function::{Code, Expr, FInstr, Function};
pub use line::Line;
pub use parts::{Comm, End, Inv, Mode, Module, Parts, Port, Switch, Task};
pub use state::{State, Stay, Write};
pub use tables::Tables;
pub use window::Window;
