// The statements of a source, each up to its `;`.
ghost use Rattle.htl_text.specs.Nodes.{out_of, outs_of, task_of, switch_of};
ghost use Rattle.htl_parse.specs.Cursors.{Gives};
ghost use Rattle.htl_parse.specs.ReadingStatements.{param_at, out_at, comm_at, outputs_at, task_by, task_at, port_at, instance_at, port_end_at, end_at, invoke_at, switch_at};

use crate::cursor::Cursor;
use crate::expr::expr;
use crate::repeated::{Listable, listed};
use crate::stop::Stop;
use htl_text::{
    CommNode, EndNode, InvokeNode, OutNode, OutNodes, ParamNode, Sign, SwitchNode, TaskNode, Word,
};
use std::alloc::Global;

// in = type name
#[tactic(auto, unfolding(crate::specs::ReadingStatements::param_at))]
fn param(cursor: &mut Cursor<'_>) -> Result<ParamNode, Stop>
    ensures { Gives (λ p. p) result cursor.new (param_at cursor.old) }
{
    let ty = cursor.ty()?;
    let name = cursor.name()?;
    Ok(ParamNode { ty, name })
}

// out = type name "=" expr
#[tactic(auto, unfolding(crate::specs::ReadingStatements::out_at))]
fn out(alloc: Global, cursor: &mut Cursor<'_>) -> Result<OutNode, Stop>
    ensures { Gives out_of result cursor.new (out_at cursor.old) }
{
    let param = param(cursor)?;
    cursor.expect(Sign::Assign)?;
    let first = cursor.place();
    let value = expr(alloc, cursor)?;
    Ok(OutNode {
        param,
        first,
        value,
    })
}

impl Listable for ParamNode {
    ghost use Rattle.htl_text.specs.declared.tree.ParamNode.{ParamNode as Node};
    ghost use Rattle.htl_parse.specs.ReadingStatements.{param_at};

    ghost Plain = { Node };

    ghost plain = { λ x. x };

    ghost plains = { λ xs. xs };

    ghost reading = { param_at };

    fn read(_alloc: Global, cursor: &mut Cursor<'_>) -> Result<ParamNode, Stop> {
        param(cursor)
    }
}

impl Listable for OutNode {
    ghost use Rattle.std.specs.Prelude.{map};
    ghost use Rattle.htl_text.specs.Nodes.{PlainOut, out_of};
    ghost use Rattle.htl_parse.specs.ReadingStatements.{out_at};

    ghost Plain = { PlainOut };

    ghost plain = { out_of };

    ghost plains = { map out_of };

    ghost reading = { out_at };

    fn read(alloc: Global, cursor: &mut Cursor<'_>) -> Result<OutNode, Stop> {
        out(alloc, cursor)
    }
}

/// comm = ( "communicator" | "sensor" ) type name "period" number "init" const ";"
#[tactic(auto, unfolding(crate::specs::ReadingStatements::comm_at))]
pub fn comm(cursor: &mut Cursor<'_>) -> Result<CommNode, Stop>
    ensures { Gives (λ c. c) result cursor.new (comm_at cursor.old) }
{
    let sensor = cursor.kind()?;
    let ty = cursor.ty()?;
    let name = cursor.name()?;
    cursor.expect_word(Word::Period)?;
    let period = cursor.number()?;
    cursor.expect_word(Word::Init)?;
    let init = cursor.constant()?;
    cursor.expect(Sign::Semicolon)?;
    Ok(CommNode {
        sensor,
        ty,
        name,
        period,
        init,
    })
}

// The outputs of a task with code, or of an abstract one.
fn outputs(alloc: Global, cursor: &mut Cursor<'_>, is_abstract: bool) -> Result<OutNodes, Stop>
    ensures { Gives outs_of result cursor.new (outputs_at is_abstract cursor.old) }
{
    if is_abstract {
        let outs = listed(alloc, cursor)?;
        Ok(OutNodes::Abstract { outs })
    } else {
        let outs = listed(alloc, cursor)?;
        Ok(OutNodes::Concrete { outs })
    }
}

// "task" name "input" "(" [ in { "," in } ] ")" "output" "(" outputs ")" "worst" number ";"
#[tactic(auto, unfolding(crate::specs::ReadingStatements::task_by))]
fn task_behind(alloc: Global, cursor: &mut Cursor<'_>, is_abstract: bool) -> Result<TaskNode, Stop>
    ensures { Gives task_of result cursor.new (task_by is_abstract cursor.old) }
{
    cursor.expect_word(Word::Task)?;
    let name = cursor.name()?;
    cursor.expect_word(Word::Input)?;
    let inputs = listed(alloc, cursor)?;
    cursor.expect_word(Word::Output)?;
    let outputs = outputs(alloc, cursor, is_abstract)?;
    cursor.expect_word(Word::Worst)?;
    let worst = cursor.number()?;
    cursor.expect(Sign::Semicolon)?;
    Ok(TaskNode {
        name,
        inputs,
        outputs,
        worst,
    })
}

/// A task, with code or, behind the word `abstract`, without.
pub fn task(alloc: Global, cursor: &mut Cursor<'_>) -> Result<TaskNode, Stop>
    ensures { Gives task_of result cursor.new (task_at cursor.old) }
{
    match cursor.word(Word::Abstract) {
        Some(_) => task_behind(alloc, cursor, true),
        None => task_behind(alloc, cursor, false),
    }
}

/// port = "port" type name ";"
#[tactic(auto, unfolding(crate::specs::ReadingStatements::port_at))]
pub fn port(cursor: &mut Cursor<'_>) -> Result<ParamNode, Stop>
    ensures { Gives (λ p. p) result cursor.new (port_at cursor.old) }
{
    cursor.expect_word(Word::Port)?;
    let param = param(cursor)?;
    cursor.expect(Sign::Semicolon)?;
    Ok(param)
}

// name "," number ")", behind an opening bracket
#[tactic(auto, unfolding(crate::specs::ReadingStatements::instance_at))]
fn instance(cursor: &mut Cursor<'_>) -> Result<EndNode, Stop>
    ensures { Gives (λ e. e) result cursor.new (instance_at cursor.old) }
{
    let comm = cursor.name()?;
    cursor.expect(Sign::Comma)?;
    let instance = cursor.number()?;
    cursor.expect(Sign::CloseParen)?;
    Ok(EndNode::Comm { comm, instance })
}

#[tactic(auto, unfolding(crate::specs::ReadingStatements::port_end_at))]
fn port_end(cursor: &mut Cursor<'_>) -> Result<EndNode, Stop>
    ensures { Gives (λ e. e) result cursor.new (port_end_at cursor.old) }
{
    let port = cursor.name()?;
    Ok(EndNode::Port { port })
}

// end = "(" name "," number ")" | name
fn end(cursor: &mut Cursor<'_>) -> Result<EndNode, Stop>
    ensures { Gives (λ e. e) result cursor.new (end_at cursor.old) }
{
    match cursor.sign(Sign::OpenParen) {
        Some(_) => instance(cursor),
        None => port_end(cursor),
    }
}

impl Listable for EndNode {
    ghost use Rattle.htl_text.specs.declared.tree.EndNode.{EndNode as Node};
    ghost use Rattle.htl_parse.specs.ReadingStatements.{end_at};

    ghost Plain = { Node };

    ghost plain = { λ x. x };

    ghost plains = { λ xs. xs };

    ghost reading = { end_at };

    fn read(_alloc: Global, cursor: &mut Cursor<'_>) -> Result<EndNode, Stop> {
        end(cursor)
    }
}

/// invoke = "invoke" name "input" "(" ends ")" "output" "(" ends ")" [ "parent" name ] ";"
#[tactic(auto, unfolding(crate::specs::ReadingStatements::invoke_at))]
pub fn invoke(alloc: Global, cursor: &mut Cursor<'_>) -> Result<InvokeNode, Stop>
    ensures { Gives (λ i. i) result cursor.new (invoke_at cursor.old) }
{
    cursor.expect_word(Word::Invoke)?;
    let task = cursor.name()?;
    cursor.expect_word(Word::Input)?;
    let reads = listed(alloc, cursor)?;
    cursor.expect_word(Word::Output)?;
    let writes = listed(alloc, cursor)?;
    let parent = cursor.clause(Word::Parent)?;
    cursor.expect(Sign::Semicolon)?;
    Ok(InvokeNode {
        task,
        reads,
        writes,
        parent,
    })
}

/// switch = "switch" "(" expr "," name ")" ";"
#[tactic(auto, unfolding(crate::specs::ReadingStatements::switch_at))]
pub fn switch(alloc: Global, cursor: &mut Cursor<'_>) -> Result<SwitchNode, Stop>
    ensures { Gives switch_of result cursor.new (switch_at cursor.old) }
{
    cursor.expect_word(Word::Switch)?;
    cursor.expect(Sign::OpenParen)?;
    let first = cursor.place();
    let cond = expr(alloc, cursor)?;
    cursor.expect(Sign::Comma)?;
    let target = cursor.name()?;
    cursor.expect(Sign::CloseParen)?;
    cursor.expect(Sign::Semicolon)?;
    Ok(SwitchNode {
        first,
        cond,
        target,
    })
}
