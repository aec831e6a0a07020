// The top call.
ghost use Rattle.std.specs.Prelude.{◌≡◌, ◌<◌, ◌↔◌, ℕ, List, Some, None};
ghost use Rattle.htl_compile.specs.Built.{built};
ghost use Rattle.htl_console.specs.declared.shown.Shown.{Shown};
ghost use Rattle.htl_console.specs.declared.shown.Shown.TheVariants as shown;
ghost use Rattle.htl_script.specs.Reading.{LosesFront};
ghost use Rattle.htl_open.specs.Files.{files};
ghost use Rattle.htl_top.specs.Answers.{streams, AreCountsKept, KeepsCounts};
ghost use Rattle.htl_top.specs.Calls.{IsCall, HasSource, HasObject};
ghost use Rattle.htl_top.specs.Runs.{IsWholeRun};
ghost use Rattle.htl_top.specs.Sources.{IsProgram};
ghost use Rattle.htl_top.specs.ObjectRows.{RunRows, CheckRows, ShowRows, SlackRows, PlanRows, AuditRows, PatchRows};
ghost use Rattle.htl_top.specs.SharedRows.{FaultRows, ObjectRows, KeptRows, IsTold};
ghost use Rattle.htl_top.specs.SourceRows.{GoRows, CompileRows, CompileWithRows, BulkRows};
ghost use Rattle.htl_top.specs.Words.{Go, Compile, CompileWith, Run, Check, Plan, Show, Bulk, Slack, Audit, Patch, command_in, most_taken};

use crate::Outcome;
use crate::commands::answer_to;
use crate::fault_line::report;
use htl_edge::{Shelf, Sink, Source};
use std::alloc::Global;

/// Does what the words of a command line say.
///
/// With the words `go SRC` the source that `shelf` holds under SRC, of at most 1,048,576 bytes, is compiled, its object is loaded, and
/// it is run with what `input` has left as its script, which is read as the run goes; what the run writes goes to `out`: values, modes,
/// jobs and totals. The first of these is the answer: `Shelf`; `Source`; `IllFormed`; `Unschedulable`; then, line by line of the script,
/// `Read`, after a prefix of the lines; `Script`, after the lines of all instants before the last reading, or, where the fault stands
/// behind the `end` line, all lines but the totals; and `Write`, after a prefix of the lines; `Done`.
///
/// With the words `run OBJ`, `jobs OBJ` and `code OBJ` the object that `shelf` holds under OBJ, of at most 16,777,216 bytes, is tested and
/// run in the same way; `run` shows values and modes, `jobs` the jobs too, `code` each instruction of both machines too. The first of these is the answer: `Shelf`; `Object`; then as for `go`.
///
/// With the word `compile` the source is what `input` has left, and the bytes of its object go to `out`. The first of these is the
/// answer: `Read`; `Source`, also for more than 1,048,576 bytes; `IllFormed`; `Unschedulable`; `Write`; `Done`. Nothing is written before
/// all is judged.
///
/// With the words `compile with PLATFORM` the file that `shelf` holds under PLATFORM, of at most 1,048,576 bytes, says the worst cases
/// of tasks, by TOML: a text `name`, and a table `worst` from `"module.task"` to whole numbers. What goes to `out` is the object of the
/// source with these worst cases, which names the platform. The first of these is the answer: `Shelf`; `Read`; `Source`; `Platform`;
/// `IllFormed`; `Unschedulable`; `Write`; `Done`.
///
/// With the words `check OBJ` the object is tested, and one line goes to `out`: the number of paths through a frame, and the greatest
/// number of positions of one. With the words `show OBJ` its listing goes to `out` in place of that line. Nothing is read. The first of these is
/// the answer: `Shelf`; `Object`; `Write`; `Done`.
///
/// With the words `plan OBJ` the object is tested likewise, `input` is read to its end as a line `mode MODULE MODE` for each module, and
/// the slices and finishes of one frame, in which every module stays in its mode and every job takes its worst case, go to `out`, with a
/// last line. The first of these is the answer: `Shelf`; `Object`; line by line `Read` and `Script`, after which nothing was written; `Write`; `Done`.
///
/// With the words `bulk N`, N from 1 to 64 in decimal with no zero before it, a program with N modules is generated, compiled and run for
/// 100 rounds of 1,000 ticks; its sensor shows the number of the round. What goes to `out` is the value of each communicator at instant
/// 100,000 and the totals. Nothing is read and no file is named. The first of these is the answer: `Write`; `Done`.
///
/// With the words `slack OBJ MODULE.TASK`, two names joined by one dot, the object is tested likewise. What goes to `out` is the greatest
/// worst case of the task, up to the period of its module, for which no path of root modes is overloaded; then what one tick more
/// overloads, or that period; and then the schedules of earliest deadline first for the greatest. Nothing is read. The first of these is
/// the answer: `Shelf`; `Object`; `Task`, where no task that is invoked in a root module has the names; `Write`; `Done`.
///
/// With the words `audit OBJ LOG` the object is tested likewise, and the file that `shelf` holds under LOG, of at most 16,777,216 bytes, is
/// judged as the job log of any scheduler that ran it for the script: lines `j A B NAME`, a slice of the processor each. What goes to
/// `out` are the values and modes of the run, and behind those of a legal log its numbers. The first of these is the answer: `Shelf` for
/// OBJ; `Shelf` for LOG; `Object`; `Log` for the first line that has another form or names no concrete invocation; line by line of the
/// script `Read`, `Script` and `Write`, as for `run`; `Log` for the first line that breaks a rule of the run, or one past the last where a
/// job is short, after all values and modes; `Done`.
///
/// With the words `patch OBJ MODULE.MODE DONOR`, two names joined by one dot, the shelf holds two objects, each of at most 16,777,216
/// bytes. What goes to `out` is the object under OBJ in which the modules that refine the mode are those that refine the mode of the
/// same names in the object under DONOR; the schedules stay. Nothing is read. The first of these is the answer: `Shelf`, first for OBJ;
/// `Object`, where the object under OBJ isn't accepted; `Patch`, with the first cause for which the refinement isn't taken over;
/// `Write`; `Done`.
///
/// A command takes no more of the input than a front of at most 1,073,742,080 bytes: the longest script, or selection, and one piece of
/// 256 bytes; or 1,052,672 for both forms of `compile`: the longest source and one piece of 4,096.
///
/// Other words are `Usage`. Want of memory may stand in place of any answer but `Usage`, before the first byte is written; for `go`,
/// `run`, `jobs`, `code` and `audit` before the first is read. A line on `err` tells of every answer but `Done`; a failing `err` changes nothing
/// else.
pub fn htl<S: Shelf, R: Source, W: Sink, E: Sink>(
    alloc: Global,
    words: &[&str],
    shelf: &mut S,
    input: &mut R,
    out: &mut W,
    err: &mut E,
) -> Outcome
    // The words that are a command.
    ensures usage { (result ≡ Outcome.Usage) ↔ (command_in words.now ≡ None) }

    // The headline: what is written when `go` is done.
    ensures done { (name : List ℕ) → command_in words.now ≡ Some (Go name) → result ≡ Outcome.Done →
        IsProgram (Some name) (S.holds shelf.old) (λ t. IsWholeRun shown.Jobs t (built t) (R.rest input.old) (R.rest input.new) (W.written out.old) (W.written out.new)) }

    // Command by command, a row for each other answer with its cause, and for what must be the answer, or Memory.
    ensures go { (name : List ℕ) → command_in words.now ≡ Some (Go name) → GoRows name (files S.holds S.faults shelf.old shelf.new)
        (streams R.rest R.faults W.written W.faults input.old out.old) (streams R.rest R.faults W.written W.faults input.new out.new) result }
    ensures compile { command_in words.now ≡ Some Compile → CompileRows (files S.holds S.faults shelf.old shelf.new)
        (streams R.rest R.faults W.written W.faults input.old out.old) (streams R.rest R.faults W.written W.faults input.new out.new) result }
    ensures compile_with { (platform : List ℕ) → command_in words.now ≡ Some (CompileWith platform) → CompileWithRows platform
        (files S.holds S.faults shelf.old shelf.new)
        (streams R.rest R.faults W.written W.faults input.old out.old) (streams R.rest R.faults W.written W.faults input.new out.new) result }
    ensures run { (show : Shown) (name : List ℕ) → command_in words.now ≡ Some (Run show name) → RunRows show name (files S.holds S.faults shelf.old shelf.new)
        (streams R.rest R.faults W.written W.faults input.old out.old) (streams R.rest R.faults W.written W.faults input.new out.new) result }
    ensures check { (name : List ℕ) → command_in words.now ≡ Some (Check name) → CheckRows name (files S.holds S.faults shelf.old shelf.new)
        (streams R.rest R.faults W.written W.faults input.old out.old) (streams R.rest R.faults W.written W.faults input.new out.new) result }
    ensures show { (name : List ℕ) → command_in words.now ≡ Some (Show name) → ShowRows name (files S.holds S.faults shelf.old shelf.new)
        (streams R.rest R.faults W.written W.faults input.old out.old) (streams R.rest R.faults W.written W.faults input.new out.new) result }
    ensures plan { (name : List ℕ) → command_in words.now ≡ Some (Plan name) → PlanRows name (files S.holds S.faults shelf.old shelf.new)
        (streams R.rest R.faults W.written W.faults input.old out.old) (streams R.rest R.faults W.written W.faults input.new out.new) result }
    ensures slack { (name owner task : List ℕ) → command_in words.now ≡ Some (Slack name owner task) → SlackRows name owner task
        (files S.holds S.faults shelf.old shelf.new)
        (streams R.rest R.faults W.written W.faults input.old out.old) (streams R.rest R.faults W.written W.faults input.new out.new) result }
    ensures audit { (name log : List ℕ) → command_in words.now ≡ Some (Audit name log) → AuditRows name log (files S.holds S.faults shelf.old shelf.new)
        (streams R.rest R.faults W.written W.faults input.old out.old) (streams R.rest R.faults W.written W.faults input.new out.new) result }
    ensures patch { (name unit mode donor : List ℕ) → command_in words.now ≡ Some (Patch name unit mode donor) → PatchRows name unit mode donor
        (files S.holds S.faults shelf.old shelf.new)
        (streams R.rest R.faults W.written W.faults input.old out.old) (streams R.rest R.faults W.written W.faults input.new out.new) result }
    ensures bulk { (n : ℕ) → command_in words.now ≡ Some (Bulk n) → BulkRows n (files S.holds S.faults shelf.old shelf.new)
        (streams R.rest R.faults W.written W.faults input.old out.old) (streams R.rest R.faults W.written W.faults input.new out.new) result }

    // Whatever the command: the cause of each fault, the object that is named, and what stays as it was.
    ensures causes { FaultRows (command_in words.now) (files S.holds S.faults shelf.old shelf.new)
        (streams R.rest R.faults W.written W.faults input.old out.old) (streams R.rest R.faults W.written W.faults input.new out.new) result }
    ensures object { ObjectRows (command_in words.now) (files S.holds S.faults shelf.old shelf.new)
        (streams R.rest R.faults W.written W.faults input.old out.old) (streams R.rest R.faults W.written W.faults input.new out.new) result }
    ensures memory { KeptRows (command_in words.now) (files S.holds S.faults shelf.old shelf.new)
        (streams R.rest R.faults W.written W.faults input.old out.old) (streams R.rest R.faults W.written W.faults input.new out.new) result }
    ensures taken { LosesFront (most_taken (command_in words.now)) (R.rest input.old) (R.rest input.new) }
    ensures shelf { S.holds shelf.new ≡ S.holds shelf.old }

    // The counts of faults: each stands where it stood but for the answer of which it is the cause, and all three after Done.
    ensures counts { KeepsCounts
        (files S.holds S.faults shelf.old shelf.new)
        (streams R.rest R.faults W.written W.faults input.old out.old) (streams R.rest R.faults W.written W.faults input.new out.new)
        result }
    ensures kept { result ≡ Outcome.Done → AreCountsKept
        (files S.holds S.faults shelf.old shelf.new)
        (streams R.rest R.faults W.written W.faults input.old out.old) (streams R.rest R.faults W.written W.faults input.new out.new) }

    // What tells of the answer.
    ensures told { IsTold (HasSource (command_in words.now) (S.holds shelf.old) (R.rest input.old)) (HasObject (command_in words.now) (S.holds shelf.old))
        (E.written err.old) (E.written err.new) (E.faults err.old) (E.faults err.new) result }

    // The causes in one, command by command and answer by answer.
    ensures answer { IsCall (command_in words.now)
        (files S.holds S.faults shelf.old shelf.new)
        (streams R.rest R.faults W.written W.faults input.old out.old) (streams R.rest R.faults W.written W.faults input.new out.new)
        result }
{
    let answer = answer_to(alloc, words, shelf, input, out);
    report(err, answer.tables.as_ref(), &answer.outcome);
    answer.outcome
}
