// Which modes can stand together: those whose paths hold no module in two different modes.
ghost use Rattle.std.specs.Prelude.{◌≡◌};
ghost use Rattle.std.specs.List.{list_any};
ghost use Rattle.htl_form.specs.WriterFaults.{path, are_rivals as are_rivals_of, has_rival as has_rival_of, stand_together as stand_together_of};

use htl_model::Tables;
use htl_model::lookup::{mode_module, parent_mode};

// Whether two modes are different modes of one module.
fn are_rivals(t: &Tables, a: u16, b: u16) -> bool
    ensures { result ≡ are_rivals_of t.now a b }
{
    mode_module(t, a) == mode_module(t, b) && !(a == b)
}

// Whether a mode has a rival among the first `steps` of the path of another.
fn has_rival(t: &Tables, a: u16, b: u16, steps: u8) -> bool
    ensures { result ≡ has_rival_of t.now (path steps t.now b) a }
{
    if steps == 0 {
        return false;
    }
    if are_rivals(t, a, b) {
        return true;
    }
    match parent_mode(t, b) {
        Some(p) => has_rival(t, a, p, steps - 1),
        None => false,
    }
}

// Whether a mode among the first `steps` of the path of one has a rival on the path of the other.
fn paths_rival(t: &Tables, a: u16, b: u16, steps: u8) -> bool
    ensures { result ≡ list_any (has_rival_of t.now (path 8 t.now b)) (path steps t.now a) }
{
    if steps == 0 {
        return false;
    }
    if has_rival(t, a, b, 8) {
        return true;
    }
    match parent_mode(t, a) {
        Some(p) => paths_rival(t, p, b, steps - 1),
        None => false,
    }
}

/// Whether two modes can stand together.
pub fn stand_together(t: &Tables, a: u16, b: u16) -> bool
    ensures { result ≡ stand_together_of t.now a b }
{
    !paths_rival(t, a, b, 8)
}
