// What commands came to, as answers: the outcome, and the tables that its line speaks of.
ghost use Rattle.std.specs.Prelude.{◌≡◌, None};
ghost use Rattle.htl_top.specs.Stops.{ended_as, ended_tables, no_tables, write_as, put_as, slack_as, run_as, audit_as, open_as, open_tables, object_as, object_tables, patch_as, donor_as, donor_tables, source_as, source_tables, compile_as, compile_tables, compile_with_as, compile_with_tables, go_as, go_tables, IsAnswerOf};

use crate::Outcome;
use crate::input::InputStop;
use crate::stop::{
    AuditStop, CompileStop, CompileWithStop, DonorStop, GoStop, OnObject, PutStop, RunStop,
    SlackStop,
};
use htl_base::limits::MAX_SOURCE;
use htl_compile::{SourceFault, SourceStop};
use htl_edge::Failed;
use htl_model::Tables;
use htl_open::{FetchStop, OpenStop};
use htl_patch::PatchStop;

/// An answer, and the tables that its line speaks of: where a form rule is broken, those that break it.
#[derive(Drop)]
pub struct Answer {
    pub outcome: Outcome,
    pub tables: Option<Tables>,
}

impl Answer {
    /// An answer whose line speaks of no tables.
    pub fn plain(outcome: Outcome) -> Answer
        ensures outcome { result.outcome ≡ outcome }
        ensures tables { result.tables ≡ None }
    {
        Answer {
            outcome,
            tables: None,
        }
    }
}

// ---- what stops a part of a command

fn run_outcome(stop: RunStop) -> Outcome
    ensures { result ≡ run_as stop }
{
    match stop {
        RunStop::Script(fault) => Outcome::Script(fault),
        RunStop::Read => Outcome::Read,
        RunStop::Write => Outcome::Write,
        RunStop::Memory => Outcome::Memory,
    }
}

// Why no accepted object is had.
fn unopened(stop: OpenStop) -> Answer
    ensures { IsAnswerOf open_as open_tables stop result }
{
    match stop {
        OpenStop::Shelf(why) => Answer::plain(Outcome::Shelf(why)),
        OpenStop::Object { fault, tables } => Answer {
            outcome: Outcome::Object(fault),
            tables,
        },
        OpenStop::Memory => Answer::plain(Outcome::Memory),
    }
}

// Why no object is built of a source.
fn unbuilt(stop: SourceStop) -> Answer
    ensures { IsAnswerOf source_as source_tables stop result }
{
    match stop {
        SourceStop::Fault(fault) => Answer::plain(Outcome::Source(fault)),
        SourceStop::Platform(fault) => Answer::plain(Outcome::Platform(fault)),
        SourceStop::IllFormed { fault, tables } => Answer {
            outcome: Outcome::IllFormed(fault),
            tables: Some(tables),
        },
        SourceStop::Unschedulable {
            selection,
            from,
            to,
            demand,
        } => Answer::plain(Outcome::Unschedulable {
            selection,
            from,
            to,
            demand,
        }),
        SourceStop::Memory => Answer::plain(Outcome::Memory),
    }
}

// Why the object of the input isn't written.
fn uncompiled(stop: CompileStop) -> Answer
    ensures { IsAnswerOf compile_as compile_tables stop result }
{
    match stop {
        CompileStop::Input(InputStop::TooLong) => {
            Answer::plain(Outcome::Source(SourceFault::TooLong {
                seen: MAX_SOURCE + 1,
            }))
        }
        CompileStop::Input(InputStop::Read) => Answer::plain(Outcome::Read),
        CompileStop::Input(InputStop::Memory) => Answer::plain(Outcome::Memory),
        CompileStop::Source(stop) => unbuilt(stop),
        CompileStop::Write => Answer::plain(Outcome::Write),
    }
}

// Why an object isn't written with a donor's refinement.
fn unpatched(stop: DonorStop) -> Answer
    ensures { IsAnswerOf donor_as donor_tables stop result }
{
    match stop {
        DonorStop::Patch(PatchStop::Refused(fault, tables)) => Answer {
            outcome: Outcome::Patch(fault),
            tables,
        },
        DonorStop::Patch(PatchStop::Memory) => Answer::plain(Outcome::Memory),
        DonorStop::Put(PutStop::Write) => Answer::plain(Outcome::Write),
        DonorStop::Put(PutStop::Memory) => Answer::plain(Outcome::Memory),
    }
}

// ---- what a command came to

/// That of a command that writes a text of an object.
pub fn of_text(r: Result<(), OnObject<Failed>>) -> Answer
    ensures { IsAnswerOf (ended_as (object_as write_as)) (ended_tables (object_tables no_tables)) r result }
{
    match r {
        Ok(()) => Answer::plain(Outcome::Done),
        Err(OnObject::Open(stop)) => unopened(stop),
        Err(OnObject::Work(_)) => Answer::plain(Outcome::Write),
    }
}

/// That of `bulk`.
pub fn of_put(r: Result<(), PutStop>) -> Answer
    ensures { IsAnswerOf (ended_as put_as) (ended_tables no_tables) r result }
{
    match r {
        Ok(()) => Answer::plain(Outcome::Done),
        Err(PutStop::Write) => Answer::plain(Outcome::Write),
        Err(PutStop::Memory) => Answer::plain(Outcome::Memory),
    }
}

/// That of `slack`.
pub fn of_slack(r: Result<(), OnObject<SlackStop>>) -> Answer
    ensures { IsAnswerOf (ended_as (object_as slack_as)) (ended_tables (object_tables no_tables)) r result }
{
    match r {
        Ok(()) => Answer::plain(Outcome::Done),
        Err(OnObject::Open(stop)) => unopened(stop),
        Err(OnObject::Work(SlackStop::Task)) => Answer::plain(Outcome::Task),
        Err(OnObject::Work(SlackStop::Memory)) => Answer::plain(Outcome::Memory),
        Err(OnObject::Work(SlackStop::Write)) => Answer::plain(Outcome::Write),
    }
}

/// That of a command that runs an object, or plans a frame of it.
pub fn of_run(r: Result<(), OnObject<RunStop>>) -> Answer
    ensures { IsAnswerOf (ended_as (object_as run_as)) (ended_tables (object_tables no_tables)) r result }
{
    match r {
        Ok(()) => Answer::plain(Outcome::Done),
        Err(OnObject::Open(stop)) => unopened(stop),
        Err(OnObject::Work(stop)) => Answer::plain(run_outcome(stop)),
    }
}

/// That of `audit`.
pub fn of_audit(r: Result<(), OnObject<AuditStop>>) -> Answer
    ensures { IsAnswerOf (ended_as (object_as audit_as)) (ended_tables (object_tables no_tables)) r result }
{
    match r {
        Ok(()) => Answer::plain(Outcome::Done),
        Err(OnObject::Open(stop)) => unopened(stop),
        Err(OnObject::Work(AuditStop::Log(fault))) => Answer::plain(Outcome::Log(fault)),
        Err(OnObject::Work(AuditStop::Run(stop))) => Answer::plain(run_outcome(stop)),
    }
}

/// That of `patch`.
pub fn of_patch(r: Result<(), OnObject<DonorStop>>) -> Answer
    ensures { IsAnswerOf (ended_as (object_as donor_as)) (ended_tables (object_tables donor_tables)) r result }
{
    match r {
        Ok(()) => Answer::plain(Outcome::Done),
        Err(OnObject::Open(stop)) => unopened(stop),
        Err(OnObject::Work(stop)) => unpatched(stop),
    }
}

/// That of `compile`.
pub fn of_compile(r: Result<(), CompileStop>) -> Answer
    ensures { IsAnswerOf (ended_as compile_as) (ended_tables compile_tables) r result }
{
    match r {
        Ok(()) => Answer::plain(Outcome::Done),
        Err(stop) => uncompiled(stop),
    }
}

/// That of `compile with`.
pub fn of_compile_with(r: Result<(), CompileWithStop>) -> Answer
    ensures { IsAnswerOf (ended_as compile_with_as) (ended_tables compile_with_tables) r result }
{
    match r {
        Ok(()) => Answer::plain(Outcome::Done),
        Err(CompileWithStop::File(FetchStop::Shelf(why))) => Answer::plain(Outcome::Shelf(why)),
        Err(CompileWithStop::File(FetchStop::Memory)) => Answer::plain(Outcome::Memory),
        Err(CompileWithStop::Compile(stop)) => uncompiled(stop),
    }
}

/// That of `go`.
pub fn of_go(r: Result<(), GoStop>) -> Answer
    ensures { IsAnswerOf (ended_as go_as) (ended_tables go_tables) r result }
{
    match r {
        Ok(()) => Answer::plain(Outcome::Done),
        Err(GoStop::File(FetchStop::Shelf(why))) => Answer::plain(Outcome::Shelf(why)),
        Err(GoStop::File(FetchStop::Memory)) => Answer::plain(Outcome::Memory),
        Err(GoStop::Source(stop)) => unbuilt(stop),
        Err(GoStop::Run(stop)) => Answer::plain(run_outcome(stop)),
    }
}
