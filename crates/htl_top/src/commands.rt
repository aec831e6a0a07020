// The commands, by what the words of a command line say.
ghost use Rattle.std.specs.Prelude.{◌≡◌, Some};
ghost use Rattle.htl_open.specs.Files.{files};
ghost use Rattle.htl_top.specs.Answers.{streams};
ghost use Rattle.htl_top.specs.Calls.{IsAnswered};
ghost use Rattle.htl_top.specs.Words.{asked_for, command_in, AreFewModules};

use crate::Outcome;
use crate::answer::{
    Answer, of_audit, of_compile, of_compile_with, of_go, of_patch, of_put, of_run, of_slack,
    of_text,
};
use crate::audit::audit_file;
use crate::bulk::bulk;
use crate::check::check_file;
use crate::compile::{compile_for_file, compile_input};
use crate::go::go_file;
use crate::patch::patch_file;
use crate::plan::plan_file;
use crate::run::run_file;
use crate::show::show_file;
use crate::slack::slack_file;
use crate::words::{Asked, ModeNames, read_words};
use htl_edge::{Shelf, Sink, Source};
use std::alloc::Global;

/// Does what the words of a command line say, all but the line that tells of the answer.
pub fn answer_to<S: Shelf, R: Source, W: Sink>(
    alloc: Global,
    words: &[&str],
    shelf: &mut S,
    input: &mut R,
    out: &mut W,
) -> Answer
    ensures answer { IsAnswered (command_in words.now) (files S.holds S.faults shelf.old shelf.new)
        (streams R.rest R.faults W.written W.faults input.old out.old) (streams R.rest R.faults W.written W.faults input.new out.new) result }
    ensures shelf { S.holds shelf.new ≡ S.holds shelf.old }
{
    let Some(asked) = read_words(words) else {
        return Answer::plain(Outcome::Usage);
    };
    match asked {
        Asked::Go(name) => of_go(go_file(alloc, name, shelf, input, out)),
        Asked::Compile => of_compile(compile_input(alloc, input, out)),
        Asked::CompileWith(platform) => {
            of_compile_with(compile_for_file(alloc, platform, shelf, input, out))
        }
        Asked::Run(show, name) => of_run(run_file(alloc, name, show, shelf, input, out)),
        Asked::Check(name) => of_text(check_file(alloc, name, shelf, out)),
        Asked::Plan(name) => of_run(plan_file(alloc, name, shelf, input, out)),
        Asked::Show(name) => of_text(show_file(alloc, name, shelf, out)),
        Asked::Bulk(modules) => of_put(bulk(alloc, modules, out)),
        Asked::Slack { name, owner, task } => {
            of_slack(slack_file(alloc, name, &owner, &task, shelf, out))
        }
        Asked::Audit { name, log } => of_audit(audit_file(alloc, name, log, shelf, input, out)),
        Asked::Patch {
            name,
            unit,
            mode,
            donor,
        } => of_patch(patch_file(alloc, name, &ModeNames { unit, mode }, donor, shelf, out)),
    }
}
