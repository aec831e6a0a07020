// The tables of texts, with what calls ask of tables beyond their type.
ghost use Rattle.std.specs.Prelude.{◌≡◌, true, None, IfSome};
ghost use Rattle.htl_ecode.specs.Conditions.{KeepsOffsets};
ghost use Rattle.htl_model.specs.Broken.{KeepsLimits};
ghost use Rattle.htl_model.specs.FrameRules.{KeptApart};
ghost use Rattle.htl_model.specs.Frames.{frame_limit};
ghost use Rattle.htl_model.specs.FunctionCode.{AreCode};
ghost use Rattle.htl_model.specs.FunctionTypes.{FitPlaces};

use htl_base::limits::MAX_SOURCE;
use htl_compile::front;
use htl_form::{form, frames};
use htl_model::Tables;
use htl_samples::pieces::{Text, text_of};
use std::alloc::Global;

/// The tables of a text, each function in postfix code; None where it has none.
pub fn made(alloc: Global, text: &str) -> Option<Tables>
    ensures limits { IfSome result (λ t. KeepsLimits t) }
    ensures fits { IfSome result (λ t. FitPlaces t) }
    ensures code { IfSome result (λ t. AreCode t) }
{
    if text.len() > MAX_SOURCE as usize {
        return None;
    }
    match front(alloc, text.as_bytes()) {
        Ok(t) => {
            t.keeps_ranges();
            Some(t)
        }
        Err(_) => None,
    }
}

/// The same of a text that may have other pieces.
pub fn made_of(alloc: Global, text: Text) -> Option<Tables>
    ensures limits { IfSome result (λ t. KeepsLimits t) }
    ensures fits { IfSome result (λ t. FitPlaces t) }
    ensures code { IfSome result (λ t. AreCode t) }
{
    let text = text_of(alloc, text).ok()?;
    made(alloc, text.as_str())
}

/// Whether tables keep the form rules 1 to 12, and the limits of frames.
pub fn is_formed(t: &Tables) -> bool
    ensures formed { result ≡ true → KeptApart t.now 12 }
    ensures limits { result ≡ true → frame_limit t.now ≡ None }
{
    match form(t) {
        Ok(()) => frames(t).is_ok(),
        Err(_) => false,
    }
}

/// Whether tables keep the form rules as far as that on offsets.
pub fn keeps_offsets(t: &Tables) -> bool
    ensures { result ≡ true → KeepsOffsets t.now }
{
    match form(t) {
        Ok(()) => true,
        Err(fault) => fault.rule > 4,
    }
}
