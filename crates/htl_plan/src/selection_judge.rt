// One line of a plan's input, judged behind the entries before it.
ghost use Rattle.std.specs.Prelude.{◌≡◌, Some, Ok, Err};
ghost use Rattle.htl_script.specs.Statements.{fields_of};
ghost use Rattle.htl_plan.specs.SelectionInput.{named_mode as named_of, named_by, mode_told, is_next as is_next_of, entered_as, entered, judged_text};

use crate::selection_lookup::{is_active, mode_of, parent_of, unit_of};
use htl_model::Tables;
use htl_script::ScriptKind;
use htl_script::field::cut;

// The entry of a line of at most 255 bytes; None where it is passed over.
pub fn judge(
    t: &Tables,
    modes: &[Option<u16>],
    text: &[u8],
) -> Result<Option<Option<u16>>, ScriptKind>
    ensures { result ≡ judged_text t.now modes.now text.now }
{
    if text.is_empty() || text[0] == b'#' {
        return Ok(None);
    }
    if modes.len() == t.parts().modules.as_slice().len() {
        return Err(ScriptKind::After);
    }
    statement(t, modes, text)
}

fn statement(
    t: &Tables,
    modes: &[Option<u16>],
    text: &[u8],
) -> Result<Option<Option<u16>>, ScriptKind>
    ensures { result ≡ entered t.now modes.now (named_by (fields_of text.now)) }
{
    let Some((word, rest)) = cut(text) else {
        return Err(ScriptKind::Form);
    };
    let Some((unit, mode)) = cut(rest) else {
        return Err(ScriptKind::Form);
    };
    match cut(mode) {
        Some(_) => Err(ScriptKind::Form),
        None => named(t, modes, word, unit, mode),
    }
}

// `mode MODULE MODE`.
fn named(
    t: &Tables,
    modes: &[Option<u16>],
    word: &[u8],
    unit: &[u8],
    mode: &[u8],
) -> Result<Option<Option<u16>>, ScriptKind>
    ensures { result ≡ entered t.now modes.now (named_of word.now unit.now mode.now) }
{
    if unit.is_empty() {
        return Err(ScriptKind::Form);
    }
    if mode.is_empty() {
        return Err(ScriptKind::Form);
    }
    if word == "mode".as_bytes() {
        match unit_of(t, unit) {
            Some(u) => told(t, modes, u, mode),
            None => Err(ScriptKind::Unknown),
        }
    } else {
        Err(ScriptKind::Form)
    }
}

// The entry of a module: a mode of it, or `-` for none.
fn told(
    t: &Tables,
    modes: &[Option<u16>],
    unit: u16,
    mode: &[u8],
) -> Result<Option<Option<u16>>, ScriptKind>
    ensures { result ≡ entered_as t.now modes.now unit (mode_told t.now unit mode.now) }
{
    if mode == "-".as_bytes() {
        return placed(t, modes, unit, None);
    }
    match mode_of(t, unit, mode) {
        Some(m) => placed(t, modes, unit, Some(m)),
        None => Err(ScriptKind::Unknown),
    }
}

fn placed(
    t: &Tables,
    modes: &[Option<u16>],
    unit: u16,
    mode: Option<u16>,
) -> Result<Option<Option<u16>>, ScriptKind>
    ensures { result ≡ entered_as t.now modes.now unit (Some mode) }
{
    if is_next(t, modes, unit, mode) {
        Ok(Some(mode))
    } else {
        Err(ScriptKind::Order)
    }
}

// Whether the module is the next one, and has a mode exactly where it is active.
fn is_next(t: &Tables, modes: &[Option<u16>], unit: u16, mode: Option<u16>) -> bool
    ensures { result ≡ is_next_of t.now modes.now unit mode }
{
    if unit as usize != modes.len() {
        return false;
    }
    let active = is_active(t, modes, parent_of(t, unit));
    match mode {
        Some(_) => active,
        None => !active,
    }
}
