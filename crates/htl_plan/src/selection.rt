// The reader of a plan's input.
ghost use Rattle.std.specs.Prelude.{◌≡◌, ◌≤◌, ◌<◌, ◌+◌, ◌++◌, length, take, IfOk, IfSome, OnOk};
ghost use Rattle.htl_base.specs.declared.limits.TheConstants as limit;
ghost use Rattle.htl_edge.specs.Content.{none_left};
ghost use Rattle.htl_model.specs.Selected.{IsSelection};
ghost use Rattle.htl_plan.specs.SelectionInput.{input_of, listed};
ghost use Rattle.htl_plan.specs.SelectionReaders.{TakesLine, AnswersEnd, IsAnswer, HasReadCause};
ghost use Rattle.htl_script.specs.LineReading.{IsAtLine};
ghost use Rattle.htl_script.specs.Reading.{OfScript, LosesFront};

use crate::selection_judge::judge;
use htl_base::Seq;
use htl_edge::Source;
use htl_model::Tables;
use htl_refine::Selection;
use htl_script::{LineStream, ScriptKind, ScriptStop};

/// Reads the input of a plan to its end, and writes what it says to `s`, which has one entry for each module. On Ok `s` is a selection of
/// running modes. `Script` comes exactly at the input's first fault, and `Read` only where the source counted a fault; after both the
/// entries of `s` may have changed. At most 1,073,742,080 bytes are read: those of the longest input, and one piece of 256. It takes no
/// memory.
pub fn read_selection<R: Source>(
    src: &mut R,
    t: &Tables,
    s: &mut Selection,
) -> Result<(), ScriptStop>
    requires { length s.old.modes ≡ length t.now.modules }
    ensures input { OfScript (R.rest src.old) (λ bytes. IsAnswer (input_of t.now bytes) s.new.modes result) }
    ensures selection { OnOk result (IsSelection t.now s.new.modes) }
    ensures whole { OnOk result (R.rest src.new ≡ none_left (R.rest src.old)) }
    ensures taken { LosesFront (limit.MAX_SCRIPT + 256) (R.rest src.old) (R.rest src.new) }
    ensures cause { HasReadCause (R.faults src.old) (R.faults src.new) result }
{
    read_entries(src, t, &mut s.modes)
}

// Reads the entries to the end of the input.
fn read_entries<R: Source>(
    src: &mut R,
    t: &Tables,
    modes: &mut Seq<Option<u16>>,
) -> Result<(), ScriptStop>
    requires { length modes.old ≡ length t.now.modules }
    ensures input { OfScript (R.rest src.old) (λ bytes. IsAnswer (input_of t.now bytes) modes.new result) }
    ensures selection { OnOk result (IsSelection t.now modes.new) }
    ensures whole { OnOk result (R.rest src.new ≡ none_left (R.rest src.old)) }
    ensures taken { LosesFront (limit.MAX_SCRIPT + 256) (R.rest src.old) (R.rest src.new) }
    ensures cause { HasReadCause (R.faults src.old) (R.faults src.new) result }
{
    let _parts = t.parts();
    let mut lines = LineStream::new();
    let mut done = 0;
    'lines: loop {
        match lines.next(src) {
            Ok(true) => {}
            Ok(false) => return end(&lines, t, done),
            Err(stop) => return Err(stop),
        }
        match take_line(&mut lines, t, modes, done) {
            Ok(count) => done = count,
            Err(stop) => return Err(stop),
        }
    }
}

// Judges the line that was read behind the first `done` entries, writes its entry, and goes behind it: how many entries there are then.
fn take_line(
    lines: &mut LineStream,
    t: &Tables,
    modes: &mut Seq<Option<u16>>,
    done: usize,
) -> Result<usize, ScriptStop>
    requires line { IsAtLine lines.old }
    requires all { length modes.old ≡ length t.now.modules }
    requires done { done ≤ length t.now.modules }
    ensures takes { TakesLine t.now lines.old modes.old done lines.new modes.new result }
    ensures len { length modes.new ≡ length modes.old }
    ensures done { IfOk result (λ count. count ≤ length t.now.modules) }
{
    let _parts = t.parts();
    match judge(t, &modes.as_slice()[..done], lines.text()) {
        Ok(entry) => {
            lines.pass();
            Ok(note(modes, done, entry))
        }
        Err(kind) => Err(lines.fault(kind)),
    }
}

// Writes the entry behind the first `done`, if there is one: how many there are then.
fn note(modes: &mut Seq<Option<u16>>, done: usize, entry: Option<Option<u16>>) -> usize
    requires room { IfSome entry (λ e. done < length modes.old) }
    requires few { done ≤ 64 }
    ensures front { take result modes.new ≡ take done modes.old ++ listed entry }
    ensures count { result ≡ done + length (listed entry) }
    ensures len { length modes.new ≡ length modes.old }
{
    let Some(mode) = entry else {
        return done;
    };
    modes.set(done, mode);
    done + 1
}

// What is answered behind the last line.
fn end(lines: &LineStream, t: &Tables, done: usize) -> Result<(), ScriptStop>
    ensures { AnswersEnd t.now lines.now done result }
{
    if done == t.parts().modules.as_slice().len() {
        Ok(())
    } else {
        Err(lines.fault(ScriptKind::NoEnd))
    }
}
