// Modes, modules, programs and the whole source.
ghost use Rattle.std.specs.Prelude.{map};
ghost use Rattle.htl_text.specs.Nodes.{mode_of, module_of, program_of};
ghost use Rattle.htl_parse.specs.Cursors.{Gives};
ghost use Rattle.htl_parse.specs.ReadingStatements.{mode_at, module_at, program_at, source_at};

use crate::cursor::Cursor;
use crate::repeated::{Repeatable, repeated};
use crate::statement::{comm, invoke, port, switch, task};
use crate::stop::Stop;
use htl_base::Seq;
use htl_text::{
    CommNode, InvokeNode, Kind, ModeNode, ModuleNode, ParamNode, ProgramNode, Sign, SwitchNode,
    TaskNode, Word,
};
use std::alloc::Global;

impl Repeatable for ParamNode {
    ghost use Rattle.htl_text.specs.declared.tree.ParamNode.{ParamNode as Node};
    ghost use Rattle.htl_parse.specs.ReadingStatements.{begins_port, port_at};

    ghost Plain = { Node };

    ghost plain = { λ x. x };

    ghost plains = { λ xs. xs };

    ghost starts = { begins_port };

    ghost reading = { port_at };

    fn begins(cursor: &Cursor<'_>) -> bool {
        matches!(cursor.next(), Some(Kind::Word(Word::Port)))
    }

    fn read(_alloc: Global, cursor: &mut Cursor<'_>) -> Result<ParamNode, Stop> {
        port(cursor)
    }
}

impl Repeatable for InvokeNode {
    ghost use Rattle.htl_text.specs.declared.tree.InvokeNode.{InvokeNode as Node};
    ghost use Rattle.htl_parse.specs.ReadingStatements.{begins_invoke, invoke_at};

    ghost Plain = { Node };

    ghost plain = { λ x. x };

    ghost plains = { λ xs. xs };

    ghost starts = { begins_invoke };

    ghost reading = { invoke_at };

    fn begins(cursor: &Cursor<'_>) -> bool {
        matches!(cursor.next(), Some(Kind::Word(Word::Invoke)))
    }

    fn read(alloc: Global, cursor: &mut Cursor<'_>) -> Result<InvokeNode, Stop> {
        invoke(alloc, cursor)
    }
}

impl Repeatable for SwitchNode {
    ghost use Rattle.std.specs.Prelude.{map};
    ghost use Rattle.htl_text.specs.Nodes.{PlainSwitch, switch_of};
    ghost use Rattle.htl_parse.specs.ReadingStatements.{begins_switch, switch_at};

    ghost Plain = { PlainSwitch };

    ghost plain = { switch_of };

    ghost plains = { map switch_of };

    ghost starts = { begins_switch };

    ghost reading = { switch_at };

    fn begins(cursor: &Cursor<'_>) -> bool {
        matches!(cursor.next(), Some(Kind::Word(Word::Switch)))
    }

    fn read(alloc: Global, cursor: &mut Cursor<'_>) -> Result<SwitchNode, Stop> {
        switch(alloc, cursor)
    }
}

// mode = "mode" name "period" number [ "program" name ] "{" { port } { invoke } { switch } "}"
#[tactic(auto, unfolding(crate::specs::ReadingStatements::mode_at))]
fn mode(alloc: Global, cursor: &mut Cursor<'_>) -> Result<ModeNode, Stop>
    ensures { Gives mode_of result cursor.new (mode_at cursor.old) }
{
    cursor.expect_word(Word::Mode)?;
    let name = cursor.name()?;
    cursor.expect_word(Word::Period)?;
    let period = cursor.number()?;
    let program = cursor.clause(Word::Program)?;
    cursor.expect(Sign::OpenBrace)?;
    let ports = repeated(alloc, cursor)?;
    let invokes = repeated(alloc, cursor)?;
    let switches = repeated(alloc, cursor)?;
    cursor.expect(Sign::CloseBrace)?;
    Ok(ModeNode {
        name,
        period,
        program,
        ports,
        invokes,
        switches,
    })
}

impl Repeatable for TaskNode {
    ghost use Rattle.std.specs.Prelude.{map};
    ghost use Rattle.htl_text.specs.Nodes.{PlainTask, task_of};
    ghost use Rattle.htl_parse.specs.ReadingStatements.{begins_task, task_at};

    ghost Plain = { PlainTask };

    ghost plain = { task_of };

    ghost plains = { map task_of };

    ghost starts = { begins_task };

    ghost reading = { task_at };

    fn begins(cursor: &Cursor<'_>) -> bool {
        matches!(cursor.next(), Some(Kind::Word(Word::Abstract | Word::Task)))
    }

    fn read(alloc: Global, cursor: &mut Cursor<'_>) -> Result<TaskNode, Stop> {
        task(alloc, cursor)
    }
}

impl Repeatable for ModeNode {
    ghost use Rattle.std.specs.Prelude.{map};
    ghost use Rattle.htl_text.specs.Nodes.{PlainMode, mode_of};
    ghost use Rattle.htl_parse.specs.ReadingStatements.{begins_mode, mode_at};

    ghost Plain = { PlainMode };

    ghost plain = { mode_of };

    ghost plains = { map mode_of };

    ghost starts = { begins_mode };

    ghost reading = { mode_at };

    fn begins(cursor: &Cursor<'_>) -> bool {
        matches!(cursor.next(), Some(Kind::Word(Word::Mode)))
    }

    fn read(alloc: Global, cursor: &mut Cursor<'_>) -> Result<ModeNode, Stop> {
        mode(alloc, cursor)
    }
}

// module = "module" name "start" name "{" { task } { mode } "}"
#[tactic(auto, unfolding(crate::specs::ReadingStatements::module_at))]
fn module(alloc: Global, cursor: &mut Cursor<'_>) -> Result<ModuleNode, Stop>
    ensures { Gives module_of result cursor.new (module_at cursor.old) }
{
    cursor.expect_word(Word::Module)?;
    let name = cursor.name()?;
    cursor.expect_word(Word::Start)?;
    let start = cursor.name()?;
    cursor.expect(Sign::OpenBrace)?;
    let tasks = repeated(alloc, cursor)?;
    let modes = repeated(alloc, cursor)?;
    cursor.expect(Sign::CloseBrace)?;
    Ok(ModuleNode {
        name,
        start,
        tasks,
        modes,
    })
}

impl Repeatable for CommNode {
    ghost use Rattle.htl_text.specs.declared.tree.CommNode.{CommNode as Node};
    ghost use Rattle.htl_parse.specs.ReadingStatements.{begins_comm, comm_at};

    ghost Plain = { Node };

    ghost plain = { λ x. x };

    ghost plains = { λ xs. xs };

    ghost starts = { begins_comm };

    ghost reading = { comm_at };

    fn begins(cursor: &Cursor<'_>) -> bool {
        matches!(
            cursor.next(),
            Some(Kind::Word(Word::Communicator | Word::Sensor))
        )
    }

    fn read(_alloc: Global, cursor: &mut Cursor<'_>) -> Result<CommNode, Stop> {
        comm(cursor)
    }
}

impl Repeatable for ModuleNode {
    ghost use Rattle.std.specs.Prelude.{map};
    ghost use Rattle.htl_text.specs.Nodes.{PlainModule, module_of};
    ghost use Rattle.htl_parse.specs.ReadingStatements.{begins_module, module_at};

    ghost Plain = { PlainModule };

    ghost plain = { module_of };

    ghost plains = { map module_of };

    ghost starts = { begins_module };

    ghost reading = { module_at };

    fn begins(cursor: &Cursor<'_>) -> bool {
        matches!(cursor.next(), Some(Kind::Word(Word::Module)))
    }

    fn read(alloc: Global, cursor: &mut Cursor<'_>) -> Result<ModuleNode, Stop> {
        module(alloc, cursor)
    }
}

// program = "program" name "{" { comm } { module } "}"
#[tactic(auto, unfolding(crate::specs::ReadingStatements::program_at))]
fn program(alloc: Global, cursor: &mut Cursor<'_>) -> Result<ProgramNode, Stop>
    ensures { Gives program_of result cursor.new (program_at cursor.old) }
{
    cursor.expect_word(Word::Program)?;
    let name = cursor.name()?;
    cursor.expect(Sign::OpenBrace)?;
    let comms = repeated(alloc, cursor)?;
    let modules = repeated(alloc, cursor)?;
    cursor.expect(Sign::CloseBrace)?;
    Ok(ProgramNode {
        name,
        comms,
        modules,
    })
}

/// source = program { program }
#[tactic(auto, unfolding(crate::specs::ReadingStatements::source_at))]
pub fn source(alloc: Global, cursor: &mut Cursor<'_>) -> Result<Seq<ProgramNode>, Stop>
    ensures { Gives (λ v. map program_of v) result cursor.new (source_at cursor.old) }
{
    let mut found = Vec::new(alloc);
    let first = program(alloc, cursor)?;
    found.push(first)?;
    while cursor.begins_program() {
        let next = program(alloc, cursor)?;
        found.push(next)?;
    }
    Ok(Seq::new(found))
}
