// Bytes to an object, or their first bad field.
ghost use Rattle.std.specs.Prelude.{◌≡◌, ◌≤◌, List, ℕ, IfOk};
ghost use Rattle.htl_object.specs.Reading.{Gives, IsBytes};
ghost use Rattle.htl_object.specs.Files.{counts_at, front_at, is_node_count, malformed_at};
ghost use Rattle.htl_object.specs.Versions.{schedules_at, tail_at};
ghost use Rattle.htl_object.specs.Objects.{object_bytes, object_at, IsObject, IsDecoded, IsReadAs};
ghost use Rattle.htl_object.specs.declared.object.Object.{Object};

use crate::assembly::assemble;
use crate::block_reader::blocks;
use crate::code_reader::e_code;
use crate::cursor::{Cursor, bad};
use crate::declaration_reader::{ModuleAround, TaskAround, named_items};
use crate::invocation_reader::{InvAround, SwitchAround};
use crate::items::{items, noted_items};
use crate::lists::{Counts, Lists};
use crate::malformed::{Bad, MalKind, Malformed, Stop};
use crate::notes::InvNotes;
use crate::object::Object;
use crate::selections::{function_count, is_node_count};
use htl_base::limits::{
    MAX_COMMUNICATORS, MAX_INVOCATIONS, MAX_MODES, MAX_MODULES, MAX_PORTS, MAX_SWITCHES, MAX_TASKS,
};
use htl_base::{Name, Seq};
use htl_model::Tables;
use htl_walk::Schedule;
use std::alloc::Global;

/// Why bytes gave no object.
#[derive(Debug, Drop)]
pub enum DecodeFault {
    /// They are no object; the first bad field.
    Malformed(Malformed),
    /// No memory was left.
    Memory,
}

// The numbers of items.
fn counts(cursor: &mut Cursor<'_>) -> Result<Counts, Stop>
    ensures reads { Gives (λ x. x) (counts_at cursor.old) cursor.new result }
    ensures few { IfOk result (λ n. n.tasks ≤ 4096) }
    ensures few_comms { IfOk result (λ n. n.comms ≤ 1024) }
{
    let comms = cursor.count(MAX_COMMUNICATORS)?;
    let modes = cursor.count(MAX_MODES)?;
    let modules = cursor.count(MAX_MODULES)?;
    let ports = cursor.count(MAX_PORTS)?;
    let tasks = cursor.count(MAX_TASKS)?;
    let invs = cursor.count(MAX_INVOCATIONS)?;
    let switches = cursor.count(MAX_SWITCHES)?;
    Ok(Counts {
        comms,
        modes,
        modules,
        ports,
        tasks,
        invs,
        switches,
    })
}

// So many schedules, one by one, or equal ones once where the file names a platform.
fn schedules(
    alloc: Global,
    cursor: &mut Cursor<'_>,
    platform: &Option<Name>,
    count: u16,
) -> Result<Vec<Schedule>, Stop>
    ensures { Gives (λ x. x.items) (schedules_at platform.now count cursor.old) cursor.new result }
{
    match platform {
        None => items(alloc, cursor, &alloc, count as usize),
        Some(_) => blocks(alloc, cursor, count),
    }
}

// The schedules, as many as the tables have nodes.
fn tail(
    alloc: Global,
    cursor: &mut Cursor<'_>,
    platform: &Option<Name>,
    t: &Tables,
) -> Result<Vec<Schedule>, Stop>
    ensures { Gives (λ x. x.items) (tail_at platform.now (is_node_count t.now) cursor.old) cursor.new result }
{
    let left = cursor.left();
    let count = cursor.u16()?;
    if !is_node_count(t, count) {
        return Err(bad(MalKind::Index, left));
    }
    schedules(alloc, cursor, platform, count)
}

// The lists of a file before its schedules, item by item.
fn front(alloc: Global, cursor: &mut Cursor<'_>) -> Result<Lists, Stop>
    ensures { Gives (λ x. x) (front_at cursor.old) cursor.new result }
{
    let platform = cursor.head()?;
    let n = counts(cursor)?;
    let comms = named_items(alloc, cursor, &(), n.comms)?;
    let modes = named_items(alloc, cursor, &n.modules, n.modes)?;
    let around = ModuleAround { modes: &modes };
    let modules = named_items(alloc, cursor, &around, n.modules)?;
    let ports = named_items(alloc, cursor, &n.modes, n.ports)?;
    let around = TaskAround {
        alloc,
        modules: n.modules,
    };
    let tasks = named_items(alloc, cursor, &around, n.tasks)?;
    let around = InvAround {
        alloc,
        comms: n.comms,
        invs: n.invs,
        modes: &modes,
        tasks: &tasks,
        ports: &ports,
    };
    let mut noted = InvNotes::new();
    let invs = noted_items(alloc, cursor, &around, &mut noted, n.invs as usize)?;
    let around = SwitchAround {
        alloc,
        comms: n.comms,
        modes: &modes,
    };
    let switches = items(alloc, cursor, &around, n.switches as usize)?;
    let count = function_count(&tasks, n.switches);
    let functions = items(alloc, cursor, &alloc, count)?;
    let anchors = items(alloc, cursor, &(), n.modes as usize)?;
    let instrs = e_code(alloc, cursor)?;
    Ok(Lists {
        comms: Seq::new(comms),
        modes: Seq::new(modes),
        modules: Seq::new(modules),
        ports: Seq::new(ports),
        tasks: Seq::new(tasks),
        invs: Seq::new(invs),
        switches: Seq::new(switches),
        functions: Seq::new(functions),
        anchors: Seq::new(anchors),
        instrs: Seq::new(instrs),
        schedules: Seq::new(Vec::new(alloc)),
        platform,
    })
}

// The object of a file, which is all of the bytes. Its tables say how many schedules there are.
fn object(alloc: Global, cursor: &mut Cursor<'_>) -> Result<Object, Stop>
    requires { IsBytes cursor.old }
    ensures { Gives (λ x. x) (object_at cursor.old) cursor.new result }
{
    let lists = front(alloc, cursor)?;
    let o = assemble(alloc, lists)?;
    let schedules = tail(alloc, cursor, &o.platform, &o.tables)?;
    if !cursor.is_at_end() {
        return Err(bad(MalKind::Trailing, cursor.left()));
    }
    Ok(Object {
        tables: o.tables,
        ecode: o.ecode,
        schedules: Seq::new(schedules),
        platform: o.platform,
    })
}

// Where a bad field begins.
fn placed(bytes: &[u8], bad: Bad) -> Malformed
    ensures { result ≡ malformed_at bytes.now bad }
{
    Malformed {
        offset: bytes.len().saturating_sub(bad.left) as u64,
        kind: bad.kind,
    }
}

/// The object in range that has these bytes. Malformed exactly where none has them: the first bad field, with the offset
/// of its first byte. Want of memory may stand in place of either. One pass over the bytes; a name is looked up
/// once among those of its list, and the invocations of all modes are counted in one pass. Where a platform is named,
/// each block is looked up once by its bytes among those before, and each schedule is a copy of its block: it takes
/// memory for each node, though the block stands once in the bytes. How many nodes there are is asked of the tables once,
/// by `Tables::frame_limits` and `Tables::nodes`.
pub fn decode(alloc: Global, bytes: &[u8]) -> Result<Object, DecodeFault>
    ensures found { IfOk result (λ o. IsObject o × (bytes.now ≡ object_bytes o)) }
    ensures exact { IsDecoded bytes.now result }
    ensures only { (o : Object) → IsObject o → bytes.now ≡ object_bytes o → IsReadAs o result }
{
    let mut cursor = Cursor::new(bytes);
    match object(alloc, &mut cursor) {
        Ok(o) => Ok(o),
        Err(Stop::Memory) => Err(DecodeFault::Memory),
        Err(Stop::Bad(bad)) => Err(DecodeFault::Malformed(placed(bytes, bad))),
    }
}
