// What tables declare, out of bytes: communicators, modes, modules, ports and tasks, each read by what stands before it.
ghost use Rattle.std.specs.Prelude.{◌≡◌, ◌++◌, ◌∷◌, [], true, not, IfOk};
ghost use Rattle.htl_object.specs.Reading.{Gives, items_at};
ghost use Rattle.htl_object.specs.Names.{owned, comm_names, mode_names, module_names, port_names, task_names};
ghost use Rattle.htl_object.specs.Comms.{is_named_comm};
ghost use Rattle.htl_object.specs.Modes.{is_named_mode, last_module};
ghost use Rattle.htl_object.specs.Modules.{is_named_module, is_mode_of, leads_up_within as is_within};
ghost use Rattle.htl_object.specs.Ports.{is_named_port, last_mode, is_named_task, last_owner};

use crate::cursor::{Cursor, bad};
use crate::items::{Item, NotedItem, list, noted_items};
use crate::malformed::{MalKind, Stop};
use crate::names::Names;
use htl_base::limits::{MAX_ENDS, MAX_LEVELS};
use htl_base::{Name, Seq, Ty};
use htl_model::{Comm, Mode, Module, Port, Task};
use std::alloc::{AllocError, Global};

/// So many items, each with a name that none before has under the same owner.
pub fn named_items<A, T: NotedItem<A, Names>>(
    alloc: Global,
    cursor: &mut Cursor<'_>,
    around: &A,
    count: u16,
) -> Result<Vec<T>, Stop>
    requires { T.notes [] [] }
    ensures { Gives (λ x. x.items) (items_at (T.item_at around.now) count [] cursor.old) cursor.new result }
{
    let mut noted = Names::new(alloc);
    noted_items(alloc, cursor, around, &mut noted, count as usize)
}

// ---- communicators

// Notes the name of a communicator, and tells whether none before has it.
fn note_comm(noted: &mut Names, _before: &[Comm], name: Name) -> Result<bool, AllocError>
    requires { noted.old ≡ comm_names _before.now }
    ensures differs { IfOk result (λ differs. differs ≡ not (is_named_comm _before.now name)) }
    ensures added { IfOk result (λ differs. differs ≡ true → noted.new ≡ comm_names _before.now ++ owned 0 name ∷ []) }
{
    noted.add(0, name)
}

impl NotedItem<(), Names> for Comm {
    ghost use Rattle.std.specs.Prelude.{◌≡◌};
    ghost use Rattle.htl_object.specs.Comms.{comm_at};
    ghost use Rattle.htl_object.specs.Names.{comm_names};

    ghost item_at = { λ _. comm_at };

    ghost notes = { λ noted before. noted ≡ comm_names before };

    fn read(
        cursor: &mut Cursor<'_>,
        _around: &(),
        before: &[Comm],
        noted: &mut Names,
    ) -> Result<Comm, Stop> {
        let left = cursor.left();
        let name = cursor.name()?;
        if !note_comm(noted, before, name)? {
            return Err(bad(MalKind::Spelling, left));
        }
        let ty = cursor.ty()?;
        let sensor = cursor.flag()?;
        let period = cursor.span()?;
        let init = cursor.init(ty)?;
        Ok(Comm {
            name,
            ty,
            sensor,
            period,
            init,
        })
    }
}

// ---- modes

fn last_module(before: &[Mode]) -> u16
    ensures { result ≡ last_module before.now }
{
    match before.last() {
        None => 0,
        Some(m) => m.module,
    }
}

// Notes the name of a mode, and tells whether no mode of its owner before has it.
fn note_mode(
    noted: &mut Names,
    _before: &[Mode],
    module: u16,
    name: Name,
) -> Result<bool, AllocError>
    requires { noted.old ≡ mode_names _before.now }
    ensures differs { IfOk result (λ differs. differs ≡ not (is_named_mode _before.now «module» name)) }
    ensures added { IfOk result (λ differs. differs ≡ true → noted.new ≡ mode_names _before.now ++ owned «module» name ∷ []) }
{
    noted.add(module, name)
}

impl NotedItem<u16, Names> for Mode {
    ghost use Rattle.std.specs.Prelude.{◌≡◌};
    ghost use Rattle.htl_object.specs.Modes.{mode_at};
    ghost use Rattle.htl_object.specs.Names.{mode_names};

    ghost item_at = { mode_at };

    ghost notes = { λ noted before. noted ≡ mode_names before };

    fn read(
        cursor: &mut Cursor<'_>,
        modules: &u16,
        before: &[Mode],
        noted: &mut Names,
    ) -> Result<Mode, Stop> {
        let left = cursor.left();
        let name = cursor.name()?;
        let module = cursor.owner(*modules as usize, last_module(before))?;
        if !note_mode(noted, before, module, name)? {
            return Err(bad(MalKind::Spelling, left));
        }
        let period = cursor.span()?;
        Ok(Mode {
            name,
            module,
            period,
        })
    }
}

// ---- modules

/// Whether the mode is one of the module.
pub fn is_mode_of(modes: &[Mode], module: usize, mode: usize) -> bool
    ensures { result ≡ is_mode_of modes.now «module» mode }
{
    match modes.get(mode) {
        None => false,
        Some(m) => m.module as usize == module,
    }
}

// Going from parent to parent over the modules before ends within so many steps.
fn is_within(steps: u8, modes: &[Mode], before: &[Module], parent: Option<u16>) -> bool
    ensures { result ≡ is_within steps modes.now before.now parent }
{
    let Some(mode) = parent else {
        return true;
    };
    if steps == 0 {
        return false;
    }
    match modes.get(mode as usize) {
        None => false,
        Some(m) => match before.get(m.module as usize) {
            None => false,
            Some(above) => is_within(steps - 1, modes, before, above.parent),
        },
    }
}

/// What a module is read by.
#[derive(Drop)]
pub struct ModuleAround<'a> {
    pub modes: &'a [Mode],
}

// Notes the name of a module, and tells whether none before has it.
fn note_module(noted: &mut Names, _before: &[Module], name: Name) -> Result<bool, AllocError>
    requires { noted.old ≡ module_names _before.now }
    ensures differs { IfOk result (λ differs. differs ≡ not (is_named_module _before.now name)) }
    ensures added { IfOk result (λ differs. differs ≡ true → noted.new ≡ module_names _before.now ++ owned 0 name ∷ []) }
{
    noted.add(0, name)
}

impl<'a> NotedItem<ModuleAround<'a>, Names> for Module {
    ghost use Rattle.std.specs.Prelude.{◌≡◌};
    ghost use Rattle.htl_object.specs.Modules.{module_at};
    ghost use Rattle.htl_object.specs.Names.{module_names};

    ghost item_at = { λ around. module_at around.modes.now };

    ghost notes = { λ noted before. noted ≡ module_names before };

    fn read(
        cursor: &mut Cursor<'_>,
        around: &ModuleAround<'a>,
        before: &[Module],
        noted: &mut Names,
    ) -> Result<Module, Stop> {
        let left = cursor.left();
        let name = cursor.name()?;
        if !note_module(noted, before, name)? {
            return Err(bad(MalKind::Spelling, left));
        }
        let left = cursor.left();
        let parent = cursor.option()?;
        if !is_within(MAX_LEVELS as u8 - 1, around.modes, before, parent) {
            return Err(bad(MalKind::Index, left));
        }
        let left = cursor.left();
        let start = cursor.u16()?;
        if !is_mode_of(around.modes, before.len(), start as usize) {
            return Err(bad(MalKind::Index, left));
        }
        Ok(Module {
            name,
            parent,
            start,
        })
    }
}

// ---- ports

fn last_mode(before: &[Port]) -> u16
    ensures { result ≡ last_mode before.now }
{
    match before.last() {
        None => 0,
        Some(p) => p.mode,
    }
}

// Notes the name of a port, and tells whether no port of its owner before has it.
fn note_port(noted: &mut Names, _before: &[Port], mode: u16, name: Name) -> Result<bool, AllocError>
    requires { noted.old ≡ port_names _before.now }
    ensures differs { IfOk result (λ differs. differs ≡ not (is_named_port _before.now mode name)) }
    ensures added { IfOk result (λ differs. differs ≡ true → noted.new ≡ port_names _before.now ++ owned mode name ∷ []) }
{
    noted.add(mode, name)
}

impl NotedItem<u16, Names> for Port {
    ghost use Rattle.std.specs.Prelude.{◌≡◌};
    ghost use Rattle.htl_object.specs.Ports.{port_at};
    ghost use Rattle.htl_object.specs.Names.{port_names};

    ghost item_at = { port_at };

    ghost notes = { λ noted before. noted ≡ port_names before };

    fn read(
        cursor: &mut Cursor<'_>,
        modes: &u16,
        before: &[Port],
        noted: &mut Names,
    ) -> Result<Port, Stop> {
        let left = cursor.left();
        let name = cursor.name()?;
        let mode = cursor.owner(*modes as usize, last_mode(before))?;
        if !note_port(noted, before, mode, name)? {
            return Err(bad(MalKind::Spelling, left));
        }
        let ty = cursor.ty()?;
        Ok(Port { name, mode, ty })
    }
}

// ---- tasks

fn last_owner(before: &[Task]) -> u16
    ensures { result ≡ last_owner before.now }
{
    match before.last() {
        None => 0,
        Some(t) => t.module,
    }
}

impl Item<()> for Ty {
    ghost use Rattle.htl_object.specs.Fields.{type_at};

    ghost item_at = { λ _ _. type_at };

    fn read(cursor: &mut Cursor<'_>, _around: &(), _before: &[Ty]) -> Result<Ty, Stop> {
        cursor.ty()
    }
}

/// What a task is read by.
#[derive(Drop)]
pub struct TaskAround {
    pub alloc: Global,
    pub modules: u16,
}

// Notes the name of a task, and tells whether no task of its owner before has it.
fn note_task(
    noted: &mut Names,
    _before: &[Task],
    module: u16,
    name: Name,
) -> Result<bool, AllocError>
    requires { noted.old ≡ task_names _before.now }
    ensures differs { IfOk result (λ differs. differs ≡ not (is_named_task _before.now «module» name)) }
    ensures added { IfOk result (λ differs. differs ≡ true → noted.new ≡ task_names _before.now ++ owned «module» name ∷ []) }
{
    noted.add(module, name)
}

impl NotedItem<TaskAround, Names> for Task {
    ghost use Rattle.std.specs.Prelude.{◌≡◌};
    ghost use Rattle.htl_object.specs.Ports.{task_at};
    ghost use Rattle.htl_object.specs.Names.{task_names};

    ghost item_at = { λ around. task_at around.modules };

    ghost notes = { λ noted before. noted ≡ task_names before };

    fn read(
        cursor: &mut Cursor<'_>,
        around: &TaskAround,
        before: &[Task],
        noted: &mut Names,
    ) -> Result<Task, Stop> {
        let left = cursor.left();
        let name = cursor.name()?;
        let module = cursor.owner(around.modules as usize, last_owner(before))?;
        if !note_task(noted, before, module, name)? {
            return Err(bad(MalKind::Spelling, left));
        }
        let is_abstract = cursor.flag()?;
        let worst = cursor.span()?;
        let inputs = list(around.alloc, cursor, MAX_ENDS, &())?;
        let outputs = list(around.alloc, cursor, MAX_ENDS, &())?;
        Ok(Task {
            name,
            module,
            is_abstract,
            worst,
            inputs: Seq::new(inputs),
            outputs: Seq::new(outputs),
        })
    }
}
