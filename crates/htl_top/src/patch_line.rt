// The lines that tell why a refinement isn't taken over.
ghost use Rattle.std.specs.Prelude.{◌≡◌};
ghost use Rattle.std.specs.Option.{option_copied};
ghost use Rattle.htl_top.specs.Status.{patch_line};

use crate::fault_line::limit_line;
use htl_edge::LineBuffer;
use htl_model::Tables;
use htl_open::field_line;
use htl_open::line::{form_text, numbered_line, plain_line};
use htl_patch::PatchFault;

/// The line of a fault of a patch. That of a broken form rule has its names from `tables`, the new ones.
pub fn patch_line(tables: Option<&Tables>, fault: &PatchFault) -> LineBuffer
    ensures { result ≡ patch_line (option_copied tables.entry) fault.now }
{
    match fault {
        PatchFault::Malformed(bad) => field_line(b"htl: patch malformed ", bad),
        PatchFault::Mode => plain_line(b"htl: patch mode\n"),
        PatchFault::Comms { place } => numbered_line(b"htl: patch comms ", *place as u64),
        PatchFault::Parent { inv } => numbered_line(b"htl: patch parent ", *inv as u64),
        PatchFault::Twice { module } => numbered_line(b"htl: patch twice ", *module as u64),
        PatchFault::Limit { which, count } => limit_line(b"htl: patch limit ", *which, *count),
        PatchFault::IllFormed(fault) => form_text(b"htl: patch ill-formed ", tables, fault),
        PatchFault::Function { id } => numbered_line(b"htl: patch function ", *id as u64),
    }
}
