// An object to its bytes.
ghost use Rattle.std.specs.Prelude.{◌≡◌, length, IfOk, OnOk, Ok, All};
ghost use Rattle.std.specs.List.{flat_map};
ghost use Rattle.htl_model.specs.Tables.{tables_of};
ghost use Rattle.htl_model.specs.Lists.{list_to};
ghost use Rattle.htl_object.specs.Bytes.{Puts};
ghost use Rattle.htl_object.specs.Files.{counts_bytes, anchors_bytes, AreAnchors};
ghost use Rattle.htl_object.specs.Lists.{anchors_of, counts_in};
ghost use Rattle.htl_object.specs.Objects.{object_bytes, object_in, KeepsTypes, IsObject};
ghost use Rattle.htl_object.specs.Items.{IsSInstr};
ghost use Rattle.htl_object.specs.Ranges.{IsInRange, IsShort};
ghost use Rattle.htl_object.specs.Versions.{head_bytes, schedules_bytes, tail_bytes, IsPlatformName};

use crate::block_writer::put_blocks;
use crate::bytes::Bytes;
use crate::lists::Anchors;
use crate::object::Object;
use crate::writer::{Spelled, put_all, put_count, put_long_list, put_name, put16};
use htl_base::{Memory, Name};
use htl_ecode::ECode;
use htl_model::Parts;
use htl_walk::Schedule;
use std::alloc::Global;

// The file's text, its version, and the name of a platform where there is one.
fn put_head(out: &mut Bytes, platform: &Option<Name>)
    ensures spelled { Puts (head_bytes platform.now) out.old out.new }
    ensures types { IsPlatformName platform.now }
{
    out.extend(b"HTLO");
    match platform {
        None => put16(out, 1),
        Some(name) => {
            put16(out, 2);
            put_name(out, name);
        }
    }
}

// The schedules one by one, or equal ones once where the object names a platform.
fn put_schedules(
    alloc: Global,
    out: &mut Bytes,
    platform: &Option<Name>,
    schedules: &[Schedule],
) -> Result<(), Memory>
    requires { All IsShort schedules.now }
    ensures spelled { OnOk result (Puts (schedules_bytes platform.now schedules.now) out.old out.new) }
    ensures types { OnOk result (All (λ s. All IsSInstr s.instrs) schedules.now) }
{
    match platform {
        None => {
            put_all(out, schedules);
            Ok(())
        }
        Some(_) => put_blocks(alloc, out, schedules),
    }
}

// How many schedules there are, and these.
fn put_tail(
    alloc: Global,
    out: &mut Bytes,
    platform: &Option<Name>,
    schedules: &[Schedule],
) -> Result<(), Memory>
    requires { All IsShort schedules.now }
    ensures spelled { OnOk result (Puts (tail_bytes platform.now schedules.now) out.old out.new) }
    ensures types { OnOk result (All (λ s. All IsSInstr s.instrs) schedules.now) }
{
    put_count(out, schedules.len());
    put_schedules(alloc, out, platform, schedules)
}

// The number of items of each list.
fn put_counts(out: &mut Bytes, parts: &Parts)
    ensures { Puts (counts_bytes (counts_in (tables_of parts.now))) out.old out.new }
{
    put_all(
        out,
        &[
            parts.comms.as_slice().len(),
            parts.modes.as_slice().len(),
            parts.modules.as_slice().len(),
            parts.ports.as_slice().len(),
            parts.tasks.as_slice().len(),
            parts.invs.as_slice().len(),
            parts.switches.as_slice().len(),
        ],
    );
}

// The addresses of each mode.
fn put_anchors(out: &mut Bytes, code: &ECode, modes: usize)
    requires enter { length code.now.enter ≡ modes }
    requires begin { length code.now.begin ≡ modes }
    requires decide { length code.now.decide ≡ modes }
    ensures spelled { Puts (flat_map anchors_bytes (list_to (anchors_of code.now) modes)) out.old out.new }
    ensures types { All AreAnchors (list_to (anchors_of code.now) modes) }
{
    let enter = code.enter.as_slice();
    let begin = code.begin.as_slice();
    let decide = code.decide.as_slice();
    for m in 0..modes {
        let anchors = Anchors {
            enter: enter[m],
            begin: begin[m],
            decide: decide[m],
        };
        anchors.put(out);
    }
}

// Puts the spelling of an object.
fn put_object(alloc: Global, out: &mut Bytes, o: &Object) -> Result<(), Memory>
    requires range { IsInRange o.now }
    ensures spelled { OnOk result (Puts (object_bytes o.now) out.old out.new) }
    ensures types { OnOk result (KeepsTypes o.now) }
{
    let parts = o.tables.parts();
    put_head(out, &o.platform);
    put_counts(out, parts);
    put_all(out, parts.comms.as_slice());
    put_all(out, parts.modes.as_slice());
    put_all(out, parts.modules.as_slice());
    put_all(out, parts.ports.as_slice());
    put_all(out, parts.tasks.as_slice());
    put_all(out, parts.invs.as_slice());
    put_all(out, parts.switches.as_slice());
    put_all(out, parts.functions.as_slice());
    put_anchors(out, &o.ecode, parts.modes.as_slice().len());
    put_long_list(out, o.ecode.instrs.as_slice());
    put_tail(alloc, out, &o.platform, o.schedules.as_slice())
}

/// The one spelling of an object in range. It says this object: decoded, it is this object again, or want of memory. Memory
/// where no memory was left. One pass over the object, in the time of the bytes that it writes; where a platform is named,
/// in that of the bytes of all schedules, also of those that are written once.
pub fn encode(alloc: Global, o: &Object) -> Result<Vec<u8>, Memory>
    requires { IsInRange o.now }
    ensures spelled { IfOk result (λ bytes. bytes.items ≡ object_bytes o.now) }
    ensures object { IfOk result (λ _. IsObject o.now) }
    ensures again { IfOk result (λ bytes. object_in bytes.items ≡ Ok o.now) }
{
    let mut out = Bytes::new(alloc);
    put_object(alloc, &mut out, o)?;
    out.into_items()
}
