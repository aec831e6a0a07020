//! How large programs, objects and scripts may be.

/// Limit 1: communicators of a source.
pub const MAX_COMMUNICATORS: usize = 1_024;

/// Limit 2: modules of a source.
pub const MAX_MODULES: usize = 64;

/// Limit 3: modes of a source.
pub const MAX_MODES: usize = 256;

/// Limit 4: ports of a source.
pub const MAX_PORTS: usize = 4_096;

/// Limit 5: tasks of a source.
pub const MAX_TASKS: usize = 4_096;

/// Limit 6: invocations of a source.
pub const MAX_INVOCATIONS: usize = 2_048;

/// Limit 7: switches of a source.
pub const MAX_SWITCHES: usize = 4_096;

/// Limit 8: invocations in one mode.
pub const MAX_MODE_INVOCATIONS: usize = 128;

/// Limit 9: levels of programs, the root counted.
pub const MAX_LEVELS: usize = 8;

/// Limit 10: root selections.
pub const MAX_SELECTIONS: u32 = 1_024;

/// Limit 11: positions in one selection.
pub const MAX_POSITIONS: usize = 128;

/// Bytes of a source.
pub const MAX_SOURCE: u64 = 1_048_576;

/// Bytes of an object that is fetched.
pub const MAX_OBJECT: u64 = 16_777_216;

/// Bytes of a name.
pub const MAX_NAME: usize = 48;

/// Tokens of a statement: of a run without `;`, `{` and `}`.
pub const MAX_STATEMENT: usize = 512;

/// A period, a worst case or an instance; periods and worst cases are in ticks.
pub const MAX_PERIOD: u32 = 1_000_000;

/// Inputs, and outputs, of a task or an invocation.
pub const MAX_ENDS: usize = 256;

/// Arguments of a function.
pub const MAX_ARGUMENTS: usize = 256;

/// Instructions of a function.
pub const MAX_INSTRUCTIONS: usize = 512;

/// Values on the stack of a function.
pub const MAX_STACK: usize = 64;

/// Bytes of a line of a script, its line feed left out.
pub const MAX_LINE: usize = 255;

/// Bytes of a script.
pub const MAX_SCRIPT: u64 = 1_073_741_824;

/// Ticks of a frame: of the least common multiple of the root periods.
pub const MAX_FRAME: u64 = 1_000_000;

/// Starts of a frame.
pub const MAX_STARTS: usize = 32;

/// Rounds of a frame: one for each module and start at most.
pub const MAX_ROUNDS: usize = 2_048;

/// Paths through a frame.
pub const MAX_PATHS: u32 = 1_024;

/// An instant of a run, in ticks.
pub const MAX_INSTANT: u64 = 1_000_000_000;
