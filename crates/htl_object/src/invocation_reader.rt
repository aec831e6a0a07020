// Invocations and switches out of bytes, each read by what stands before it.
ghost use Rattle.std.specs.Prelude.{◌≡◌, ◌<◌, ◌≤◌, ◌==◌, ◌&&◌, true, length, count_by};
ghost use Rattle.std.specs.List.{list_any};
ghost use Rattle.htl_object.specs.Reading.{Gives};
ghost use Rattle.htl_object.specs.Invocations.{is_port_of, is_inv_mode, is_inv_task, is_parent, last_switch_mode, is_target, is_read};
ghost use Rattle.htl_object.specs.Notes.{MarksRead, CountsMode, IsNoted};

use crate::cursor::{Cursor, bad};
use crate::declaration_reader::is_mode_of;
use crate::items::{Item, NotedItem, list, noted_list};
use crate::malformed::{MalKind, Stop};
use crate::notes::{InvNotes, ReadMarks};
use htl_base::Seq;
use htl_base::limits::{MAX_ARGUMENTS, MAX_ENDS, MAX_MODE_INVOCATIONS, MAX_PERIOD};
use htl_model::{End, Inv, Mode, Port, Switch, Task};
use std::alloc::Global;

// ---- ends

fn is_port_of(ports: &[Port], mode: u16, port: u16) -> bool
    ensures { result ≡ is_port_of ports.now mode port }
{
    match ports.get(port as usize) {
        None => false,
        Some(p) => p.mode == mode,
    }
}

/// What the ends of an invocation are read by.
#[derive(Drop)]
pub struct EndAround<'a> {
    pub comms: u16,
    pub ports: &'a [Port],
    pub mode: u16,
}

impl<'a> Item<EndAround<'a>> for End {
    ghost use Rattle.htl_object.specs.Invocations.{end_at};

    ghost item_at = { λ around _. end_at around.comms around.ports.now around.mode };

    fn read(cursor: &mut Cursor<'_>, around: &EndAround<'a>, _before: &[End]) -> Result<End, Stop> {
        let left = cursor.left();
        match cursor.byte()? {
            0 => {
                let comm = cursor.place(around.comms as usize)?;
                let left = cursor.left();
                let instance = cursor.u32()?;
                if instance > MAX_PERIOD {
                    return Err(bad(MalKind::Index, left));
                }
                Ok(End::Comm { comm, instance })
            }
            1 => {
                let left = cursor.left();
                let port = cursor.u16()?;
                if !is_port_of(around.ports, around.mode, port) {
                    return Err(bad(MalKind::Index, left));
                }
                Ok(End::Port { port })
            }
            _ => Err(bad(MalKind::Tag, left)),
        }
    }
}

// ---- invocations

// How many invocations before are of the mode, where none is of a later one.
fn count_in(noted: &InvNotes, before: &[Inv], mode: u16) -> usize
    requires noted { CountsMode noted.now before.now }
    requires later { noted.now.mode ≤ mode }
    ensures { result ≡ count_by (λ i. i.mode == mode) before.now }
{
    if mode == noted.mode { noted.count } else { 0 }
}

// The mode may have one more invocation behind those before.
fn is_inv_mode(modes: usize, noted: &InvNotes, before: &[Inv], mode: u16) -> bool
    requires { IsNoted noted.now before.now }
    ensures holds { result ≡ is_inv_mode modes before.now mode }
    ensures later { result ≡ true → noted.now.mode ≤ mode }
    ensures few { result ≡ true → count_by (λ i. i.mode == mode) before.now < 128 }
{
    (mode as usize) < modes
        && noted.mode <= mode
        && count_in(noted, before, mode) < MAX_MODE_INVOCATIONS
}

fn is_invoked(noted: &InvNotes, _before: &[Inv], task: u16) -> bool
    requires noted { CountsMode noted.now _before.now }
    requires few { task < 4096 }
    ensures { result ≡ list_any (λ i. (i.mode == noted.now.mode) && (i.task == task)) _before.now }
{
    noted.invoked[task as usize]
}

// The task is one of the mode's module, and the mode doesn't invoke it yet.
fn is_inv_task(modes: &[Mode], tasks: &[Task], noted: &InvNotes, before: &[Inv], task: u16) -> bool
    requires noted { CountsMode noted.now before.now }
    requires few { length tasks.now ≤ 4096 }
    ensures { result ≡ is_inv_task modes.now tasks.now before.now noted.now.mode task }
{
    match tasks.get(task as usize) {
        None => false,
        Some(t) => {
            is_mode_of(modes, t.module as usize, noted.mode as usize)
                && !is_invoked(noted, before, task)
        }
    }
}

fn is_parent(invs: u16, parent: Option<u16>) -> bool
    ensures { result ≡ is_parent invs parent }
{
    match parent {
        None => true,
        Some(n) => n < invs,
    }
}

/// What an invocation is read by.
#[derive(Drop)]
pub struct InvAround<'a> {
    pub alloc: Global,
    pub comms: u16,
    pub invs: u16,
    pub modes: &'a [Mode],
    pub tasks: &'a [Task],
    pub ports: &'a [Port],
    ghost few: { length tasks.now ≤ 4096 },
}

impl<'a> NotedItem<InvAround<'a>, InvNotes> for Inv {
    ghost use Rattle.htl_object.specs.Invocations.{inv_at};
    ghost use Rattle.htl_object.specs.Notes.{IsNoted};

    ghost item_at = { λ around. inv_at around.comms around.invs around.modes.now around.tasks.now around.ports.now };

    ghost notes = { IsNoted };

    fn read(
        cursor: &mut Cursor<'_>,
        around: &InvAround<'a>,
        before: &[Inv],
        noted: &mut InvNotes,
    ) -> Result<Inv, Stop> {
        let left = cursor.left();
        let mode = cursor.u16()?;
        if !is_inv_mode(around.modes.len(), noted, before, mode) {
            return Err(bad(MalKind::Index, left));
        }
        noted.turn_to(before, mode);
        let left = cursor.left();
        let task = cursor.u16()?;
        if !is_inv_task(around.modes, around.tasks, noted, before, task) {
            return Err(bad(MalKind::Index, left));
        }
        let left = cursor.left();
        let parent = cursor.option()?;
        if !is_parent(around.invs, parent) {
            return Err(bad(MalKind::Index, left));
        }
        let ends = EndAround {
            comms: around.comms,
            ports: around.ports,
            mode,
        };
        let reads = list(around.alloc, cursor, MAX_ENDS, &ends)?;
        let writes = list(around.alloc, cursor, MAX_ENDS, &ends)?;
        noted.add(task);
        Ok(Inv {
            mode,
            task,
            parent,
            reads: Seq::new(reads),
            writes: Seq::new(writes),
        })
    }
}

// ---- switches

fn last_switch_mode(before: &[Switch]) -> u16
    ensures { result ≡ last_switch_mode before.now }
{
    match before.last() {
        None => 0,
        Some(s) => s.mode,
    }
}

// The mode is one of the module of the other.
fn is_target(modes: &[Mode], mode: u16, target: u16) -> bool
    ensures { result ≡ is_target modes.now mode target }
{
    match modes.get(target as usize) {
        None => false,
        Some(m) => is_mode_of(modes, m.module as usize, mode as usize),
    }
}

fn is_already_read(noted: &ReadMarks, _before: &[u16], comm: u16) -> bool
    requires noted { MarksRead noted.now.marks _before.now }
    requires few { comm < 1024 }
    ensures { result ≡ list_any (λ c. c == comm) _before.now }
{
    noted.marks[comm as usize]
}

fn is_read(comms: u16, noted: &ReadMarks, before: &[u16], comm: u16) -> bool
    requires noted { MarksRead noted.now.marks before.now }
    requires few { comms ≤ 1024 }
    ensures { result ≡ is_read comms before.now comm }
{
    comm < comms && !is_already_read(noted, before, comm)
}

/// How many communicators there are.
#[derive(Drop)]
pub struct CommCount {
    pub comms: u16,
    ghost few: { comms ≤ 1024 },
}

impl NotedItem<CommCount, ReadMarks> for u16 {
    ghost use Rattle.std.specs.Prelude.{ℕ};
    ghost use Rattle.htl_object.specs.Notes.{MarksRead};
    ghost use Rattle.std.specs.Int.{w16};
    ghost use Rattle.htl_object.specs.declared.malformed.MalKind.TheVariants.{Index};
    ghost use Rattle.htl_object.specs.Reading.{field_at, number_at};
    ghost use Rattle.htl_object.specs.Invocations.{is_read};

    ghost item_at = { λ around before. field_at Index (is_read around.comms before) (number_at w16) };

    ghost notes = { λ noted before. MarksRead noted.marks before };

    fn read(
        cursor: &mut Cursor<'_>,
        around: &CommCount,
        before: &[u16],
        noted: &mut ReadMarks,
    ) -> Result<u16, Stop> {
        let left = cursor.left();
        let n = cursor.u16()?;
        if !is_read(around.comms, noted, before, n) {
            return Err(bad(MalKind::Index, left));
        }
        noted.mark(n);
        Ok(n)
    }
}

/// What a switch is read by.
#[derive(Drop)]
pub struct SwitchAround<'a> {
    pub alloc: Global,
    pub comms: u16,
    pub modes: &'a [Mode],
    ghost few: { comms ≤ 1024 },
}

impl<'a> Item<SwitchAround<'a>> for Switch {
    ghost use Rattle.htl_object.specs.Invocations.{switch_at};

    ghost item_at = { λ around. switch_at around.comms around.modes.now };

    fn read(
        cursor: &mut Cursor<'_>,
        around: &SwitchAround<'a>,
        before: &[Switch],
    ) -> Result<Switch, Stop> {
        let left = cursor.left();
        let mode = cursor.owner(around.modes.len(), last_switch_mode(before))?;
        let left = cursor.left();
        let target = cursor.u16()?;
        if !is_target(around.modes, mode, target) {
            return Err(bad(MalKind::Index, left));
        }
        let mut noted = ReadMarks::new();
        let count = CommCount {
            comms: around.comms,
        };
        let reads = noted_list(around.alloc, cursor, MAX_ARGUMENTS, &count, &mut noted)?;
        Ok(Switch {
            mode,
            target,
            reads: Seq::new(reads),
        })
    }
}
