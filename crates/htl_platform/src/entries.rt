// What an entry of a file has to be.
ghost use Rattle.std.specs.Prelude.{◌≡◌, option_map};
ghost use Rattle.toml.specs.View.{view};
ghost use Rattle.htl_platform.specs.Entries.{is_platform_name, is_top_entry, is_whole_entry, is_worst, is_worst_entry, worst_or};

use crate::search::Test;
use htl_base::Name;
use htl_base::limits::MAX_PERIOD;
use toml::Value;

// A text that is a name.
fn is_platform_name(value: &Value) -> bool
    ensures { result ≡ is_platform_name (view value.now) }
{
    match value.as_str() {
        Some(text) => Name::new(text.as_bytes()).is_some(),
        None => false,
    }
}

// A worst case is from 1 to 1,000,000 ticks.
fn is_worst(x: i64) -> bool
    ensures { result ≡ is_worst x }
{
    1 <= x && x <= MAX_PERIOD as i64
}

/// The worst case that an entry gives, where there is one in range, else the task's own; both in ticks.
pub fn worst_or(own: u32, value: Option<&Value>) -> u32
    ensures { result ≡ worst_or own (option_map (λ v. view v.now) value.entry) }
{
    match value {
        Some(value) => match value.as_integer() {
            Some(x) => if is_worst(x) { x as u32 } else { own },
            None => own,
        },
        None => own,
    }
}

/// An entry of the file's own table: a `name` that is one, or a table `worst`.
pub struct TopEntry;

impl Test for TopEntry {
    ghost passes = { λ _. is_top_entry };

    fn passes(&self, key: &str, value: &Value) -> bool {
        if key == "name" {
            is_platform_name(value)
        } else {
            key == "worst" && value.is_table()
        }
    }
}

/// An entry of `worst`: a whole number.
pub struct WholeNumber;

impl Test for WholeNumber {
    ghost passes = { λ _. is_whole_entry };

    fn passes(&self, _key: &str, value: &Value) -> bool {
        value.is_integer()
    }
}

/// An entry of `worst`: a worst case in range.
pub struct WorstCase;

impl Test for WorstCase {
    ghost passes = { λ _. is_worst_entry };

    fn passes(&self, _key: &str, value: &Value) -> bool {
        match value.as_integer() {
            Some(x) => is_worst(x),
            None => false,
        }
    }
}
