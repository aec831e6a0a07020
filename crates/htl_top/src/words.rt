// The words of a command.
ghost use Rattle.std.specs.Prelude.{◌≡◌, ◌≤◌, ◌<◌, Option, None, Some, IfSome, length};
ghost use Rattle.std.specs.Fmt.{decimal};
ghost use Rattle.std.specs.List.{position_from};
ghost use Rattle.std.specs.Option.{option_map};
ghost use Rattle.std.specs.Str.{bytes_eq};
ghost use Rattle.htl_base.specs.declared.limits.TheConstants as limit;
ghost use Rattle.htl_top.specs.Words.{with_file as with_file_of, command_in, modules_in, of_two, of_three, slack_of, is_dot, both_names as both_names_of, joined_names as joined_names_of, patch_of, of_four, asked_for, AreFewModules};

use htl_base::Name;
use htl_base::limits::MAX_MODULES;
use htl_console::Shown;
use itoa::Buffer;

/// A mode, by the name of its module and its own.
#[derive(Clone, Copy)]
pub struct ModeNames {
    pub unit: Name,
    pub mode: Name,
}

/// A command.
#[derive(Clone, Copy)]
pub enum Asked<'a> {
    /// Compiles a source and runs it.
    Go(&'a str),
    /// Compiles the source that the input is.
    Compile,
    /// Compiles it for the platform that a file says.
    CompileWith(&'a str),
    /// Runs an object, and shows this.
    Run(Shown, &'a str),
    /// Tests an object.
    Check(&'a str),
    /// Writes a frame of an object at a selection of running modes.
    Plan(&'a str),
    /// Lists an object.
    Show(&'a str),
    /// Runs the generated program of so many modules, 1 to 64.
    Bulk(u32),
    /// Tells how far the worst case of a task of an object can be raised.
    Slack {
        name: &'a str,
        owner: Name,
        task: Name,
    },
    /// Audits a job log for an object.
    Audit {
        name: &'a str,
        log: &'a str,
    },
    /// Replaces the refinement of a mode of an object by that of another object.
    Patch {
        name: &'a str,
        unit: Name,
        mode: Name,
        donor: &'a str,
    },
}

// What is asked for by a verb and the name of a file.
fn with_file<'a>(word: &str, name: &'a str) -> Option<Asked<'a>>
    ensures command { with_file_of word.now name.now ≡ option_map asked_for result }
    ensures few { IfSome result AreFewModules }
{
    match word {
        "go" => Some(Asked::Go(name)),
        "run" => Some(Asked::Run(Shown::Values, name)),
        "jobs" => Some(Asked::Run(Shown::Jobs, name)),
        "code" => Some(Asked::Run(Shown::Code, name)),
        "check" => Some(Asked::Check(name)),
        "plan" => Some(Asked::Plan(name)),
        "show" => Some(Asked::Show(name)),
        _ => None,
    }
}

// The names of a module and of a task or a mode.
fn both_names(owner: &[u8], task: &[u8]) -> Option<(Name, Name)>
    ensures { both_names_of owner.now task.now ≡ option_map (λ (names : Name × Name). (names.0, names.1)) result }
{
    let owner = Name::new(owner)?;
    let task = Name::new(task)?;
    Some((owner, task))
}

// The place of the first dot.
fn first_dot(bytes: &[u8]) -> Option<usize>
    ensures first { result ≡ position_from is_dot 0 bytes.now }
    ensures bound { IfSome result (λ place. place < length bytes.now) }
{
    bytes.iter().position(|b| *b == b'.')
}

// The two names of a word that are joined by one dot.
fn joined_names(word: &[u8]) -> Option<(Name, Name)>
    ensures { joined_names_of word.now ≡ option_map (λ (names : Name × Name). (names.0, names.1)) result }
{
    match first_dot(word) {
        Some(at) => both_names(&word[..at], &word[at + 1..]),
        None => None,
    }
}

// What is asked for by the name of an object file and a task.
fn read_slack<'a>(name: &'a str, word: &str) -> Option<Asked<'a>>
    ensures command { slack_of name.now word.now ≡ option_map asked_for result }
    ensures few { IfSome result AreFewModules }
{
    match joined_names(word.as_bytes()) {
        Some((owner, task)) => Some(Asked::Slack { name, owner, task }),
        None => None,
    }
}

// What is asked for by three words: `slack`, the name of an object file and a task; `audit` and the names of an object file and a log; or
// `compile with` and a platform file.
fn read_three<'a>(first: &str, second: &'a str, third: &'a str) -> Option<Asked<'a>>
    ensures command { of_three first.now second.now third.now ≡ option_map asked_for result }
    ensures few { IfSome result AreFewModules }
{
    match (first, second) {
        ("slack", _) => read_slack(second, third),
        ("audit", _) => Some(Asked::Audit {
            name: second,
            log: third,
        }),
        ("compile", "with") => Some(Asked::CompileWith(third)),
        _ => None,
    }
}

// What is asked for by the name of an object file, a mode and the name of the donor's file.
fn read_patch<'a>(name: &'a str, word: &str, donor: &'a str) -> Option<Asked<'a>>
    ensures command { patch_of name.now word.now donor.now ≡ option_map asked_for result }
    ensures few { IfSome result AreFewModules }
{
    match joined_names(word.as_bytes()) {
        Some((unit, mode)) => Some(Asked::Patch {
            name,
            unit,
            mode,
            donor,
        }),
        None => None,
    }
}

// What is asked for by four words: `patch`, the name of an object file, a mode and the name of the donor's file.
fn read_four<'a>(first: &str, second: &'a str, third: &str, fourth: &'a str) -> Option<Asked<'a>>
    ensures command { of_four first.now second.now third.now fourth.now ≡ option_map asked_for result }
    ensures few { IfSome result AreFewModules }
{
    match first {
        "patch" => read_patch(second, third, fourth),
        _ => None,
    }
}

// Whether a word is the decimal digits of a number.
fn is_decimal(word: &str, n: u32) -> bool
    ensures { result ≡ bytes_eq word.now (decimal n) }
{
    let mut buffer = Buffer::new();
    word == buffer.format(n)
}

// How many modules a word asks for: its decimal digits are those of a number from 1 to 64.
fn modules_in(word: &str) -> Option<u32>
    ensures number { result ≡ modules_in word.now }
    ensures few { IfSome result (λ n. (1 ≤ n) × (n ≤ limit.MAX_MODULES)) }
{
    for k in 0..MAX_MODULES as u32 {
        if is_decimal(word, k + 1) {
            return Some(k + 1);
        }
    }
    None
}

// What is asked for by two words: `bulk` and a number of modules, or a verb and the name of a file.
fn read_two<'a>(word: &str, other: &'a str) -> Option<Asked<'a>>
    ensures command { of_two word.now other.now ≡ option_map asked_for result }
    ensures few { IfSome result AreFewModules }
{
    match word {
        "bulk" => match modules_in(other) {
            Some(modules) => Some(Asked::Bulk(modules)),
            None => None,
        },
        _ => with_file(word, other),
    }
}

// The words of the longest command.
const MOST_WORDS: usize = 4;

/// The command that words ask for; None where they are none: `compile` alone, `compile with` and the name of a platform file, a verb
/// and the name of a file, `bulk` and a number of modules from 1 to 64, in decimal with no zero before it, `slack`, the name of a
/// file, and the names of a module and a task with one dot between them, `audit` and the names of two files, or `patch`, the name of
/// a file, the names of a module and a mode, likewise joined, and the name of a second file.
pub fn read_words<'a>(words: &[&'a str]) -> Option<Asked<'a>>
    ensures command { command_in words.now ≡ option_map asked_for result }
    ensures few { IfSome result AreFewModules }
{
    if words.len() > MOST_WORDS {
        return None;
    }
    match words {
        [word] if *word == "compile" => Some(Asked::Compile),
        [first, second, third] => read_three(first, second, third),
        [first, second, third, fourth] => read_four(first, second, third, fourth),
        [word, other] => read_two(word, other),
        _ => None,
    }
}
