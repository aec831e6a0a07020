// The command `slack`: how far the worst case of a task can be raised.
ghost use Rattle.std.specs.Prelude.{◌≡◌, ◌↔◌, ◌<◌, ℕ, List, Some, None, Err, IfOk, MatchOption, true, length};
ghost use Rattle.htl_edge.specs.Content.{Puts};
ghost use Rattle.htl_slack.specs.RootTasks.{IsRootTask, limit_of};
ghost use Rattle.htl_open.specs.Files.{files};
ghost use Rattle.htl_top.specs.Slacked.{has_names as has_names_of, IsRootNamed, NamesNoTask, slack_line as slack_line_of, above_line as above_line_of, overload_line as overload_line_of, slack_text, IsSlack, IsSlackTold, IsSlackOnObject};
ghost use Rattle.htl_open.specs.declared.stop.OpenStop.TheVariants as open_stop;
ghost use Rattle.htl_open.specs.declared.stop.ShelfCause.TheVariants as cause;

use crate::stop::{OnObject, SlackStop};
use htl_base::{Memory, Name};
use htl_console::show_schedules;
use htl_edge::{Failed, LineBuffer, Shelf, Sink, put_all};
use htl_load::Loaded;
use htl_model::lookup::task_worst;
use htl_model::rounds::unit_period;
use htl_model::{Tables, Task};
use htl_open::object::open;
use htl_slack::{Above, SlackReport, is_root_task, slack};
use std::alloc::Global;

// Whether a task has this name, and its module that.
fn has_names(t: &Tables, owner: &Name, name: &Name, task: &Task) -> bool
    ensures { result ≡ has_names_of t.now owner.now name.now task.now }
{
    match t.parts().modules.as_slice().get(task.module as usize) {
        Some(unit) => {
            unit.name.as_bytes() == owner.as_bytes() && task.name.as_bytes() == name.as_bytes()
        }
        None => false,
    }
}

// Whether the task of this number has the names and is invoked in a root module.
fn is_asked_for(t: &Tables, owner: &Name, name: &Name, task: u16) -> bool
    requires { task < length t.now.tasks }
    ensures { result ≡ true ↔ IsRootNamed t.now owner.now name.now task }
{
    has_names(t, owner, name, &t.parts().tasks.as_slice()[task as usize]) && is_root_task(t, task)
}

// The task of these names that is invoked in a root module.
fn find_task(t: &Tables, owner: &Name, name: &Name) -> Option<u16>
    ensures { MatchOption result (NamesNoTask t.now owner.now name.now) (λ task. IsRootNamed t.now owner.now name.now task) }
{
    t.keeps_ranges();
    for k in 0..t.parts().tasks.as_slice().len() {
        if is_asked_for(t, owner, name, k as u16) {
            return Some(k as u16);
        }
    }
    None
}

// The slack of a task of an accepted object.
fn slack_in(alloc: Global, l: &Loaded, task: u16) -> Result<SlackReport, Memory>
    requires { IsRootTask l.now.tables task }
    ensures { IfOk result (λ r. IsSlack l.now.tables task r.greatest r.above r.lists) }
{
    slack(alloc, l.tables(), task)
}

// The line of the greatest worst case.
fn slack_line(owner: &Name, name: &Name, worst: u32, greatest: u32) -> LineBuffer
    ensures { result ≡ slack_line_of owner.now name.now worst greatest }
{
    let mut line = LineBuffer::new();
    line.text(b"slack ");
    line.text(owner.as_bytes());
    line.text(b".");
    line.text(name.as_bytes());
    line.text(b" worst ");
    line.number(worst as u64);
    line.text(b" greatest ");
    line.number(greatest as u64);
    line.text(b"\n");
    line
}

// The line of an overload.
fn overload_line(above: &Above) -> LineBuffer
    ensures { result ≡ overload_line_of above.now }
{
    let mut line = LineBuffer::new();
    line.text(b"overload ");
    line.number(above.selection as u64);
    line.text(b" from ");
    line.number(above.from);
    line.text(b" to ");
    line.number(above.to);
    line.text(b" demand ");
    line.number(above.demand);
    line.text(b"\n");
    line
}

// The line of what stands above the greatest.
fn above_line(limit: u32, above: Option<Above>) -> LineBuffer
    ensures { result ≡ above_line_of limit above }
{
    match above {
        Some(above) => overload_line(&above),
        None => {
            let mut line = LineBuffer::new();
            line.text(b"limit period ");
            line.number(limit as u64);
            line.text(b"\n");
            line
        }
    }
}

// The period of a task's module, in ticks.
fn limit_for(t: &Tables, task: u16) -> u32
    requires { task < length t.now.tasks }
    ensures { result ≡ limit_of t.now task }
{
    unit_period(t, t.parts().tasks.as_slice()[task as usize].module)
}

// Writes the slack of a task.
fn write_slack<W: Sink>(
    out: &mut W,
    t: &Tables,
    owner: &Name,
    name: &Name,
    task: u16,
    report: &SlackReport,
) -> Result<(), Failed>
    requires { task < length t.now.tasks }
    ensures { Puts (W.written out.old) (W.written out.new) (W.faults out.old) (W.faults out.new)
        (slack_text t.now owner.now name.now task report.now.greatest report.now.above report.now.lists) result }
{
    let first = slack_line(owner, name, task_worst(t, task), report.greatest);
    if let Err(failed) = put_all(out, first.as_bytes()) {
        return Err(failed);
    }
    let second = above_line(limit_for(t, task), report.above);
    if let Err(failed) = put_all(out, second.as_bytes()) {
        return Err(failed);
    }
    show_schedules(out, report.lists.as_slice())
}

// Tells the slack of a task of an accepted object.
fn tell_slack<W: Sink>(
    alloc: Global,
    l: &Loaded,
    owner: &Name,
    name: &Name,
    out: &mut W,
) -> Result<(), SlackStop>
    ensures answer { IsSlackTold owner.now name.now l.now.tables (W.written out.old) (W.written out.new) (W.faults out.old) (W.faults out.new) result }
    ensures write_count { (result ≡ Err SlackStop.Write → ⊥) → W.faults out.new ≡ W.faults out.old }
{
    let Some(task) = find_task(l.tables(), owner, name) else {
        return Err(SlackStop::Task);
    };
    let Ok(report) = slack_in(alloc, l, task) else {
        return Err(SlackStop::Memory);
    };
    match write_slack(out, l.tables(), owner, name, task, &report) {
        Ok(()) => Ok(()),
        Err(_) => Err(SlackStop::Write),
    }
}

/// Tests the object in a file, and tells how far the worst case of a task of an accepted one can be raised.
pub fn slack_file<S: Shelf, W: Sink>(
    alloc: Global,
    file: &str,
    owner: &Name,
    name: &Name,
    shelf: &mut S,
    out: &mut W,
) -> Result<(), OnObject<SlackStop>>
    ensures answer { IsSlackOnObject owner.now name.now (Some file.now) (files S.holds S.faults shelf.old shelf.new)
        (W.written out.old) (W.written out.new) (W.faults out.old) (W.faults out.new) result }
    ensures shelf { S.holds shelf.new ≡ S.holds shelf.old }
    ensures shelf_count { (result ≡ Err (OnObject.Open (open_stop.Shelf cause.Failed)) → ⊥) → (file : List ℕ) → S.faults shelf.new file ≡ S.faults shelf.old file }
    ensures write_count { (result ≡ Err (OnObject.Work SlackStop.Write) → ⊥) → W.faults out.new ≡ W.faults out.old }
{
    let loaded = open(alloc, file, shelf)?;
    match tell_slack(alloc, &loaded, owner, name, out) {
        Ok(()) => Ok(()),
        Err(stop) => Err(OnObject::Work(stop)),
    }
}
