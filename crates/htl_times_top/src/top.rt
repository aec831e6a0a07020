// The call.
ghost use Rattle.std.specs.Prelude.{◌≡◌, ◌≤◌, ◌<◌, ◌↔◌, ℕ, List, Some, None, length};
ghost use Rattle.std.specs.Io.KnownBytes.{append_known};
ghost use Rattle.htl_base.specs.declared.limits.TheConstants as limit;
ghost use Rattle.htl_edge.specs.Causes.{Rose};
ghost use Rattle.htl_edge.specs.Content.{AppendsPrefix};
ghost use Rattle.htl_load.specs.Loading.{RefusesBytes};
ghost use Rattle.htl_load.specs.declared.fault.ObjectFault.{ObjectFault};
ghost use Rattle.htl_object.specs.declared.object.Object.{Object};
ghost use Rattle.htl_open.specs.Files.{files, IsFaultOf, IsGiven, IsLongFile};
ghost use Rattle.htl_open.specs.Lines.{Tells};
ghost use Rattle.htl_open.specs.Objects.{IsAcceptedFile, IsObjectTables, IsReadyObject, IsRefusedFile};
ghost use Rattle.htl_open.specs.declared.stop.ShelfCause.TheVariants as cause;
ghost use Rattle.htl_times_top.specs.Answers.{object_in, HasTimes, IsTold, IsTimes, IsOrMemory, SpeaksOf};
ghost use Rattle.htl_times_top.specs.Status.{IsLineTold};

use crate::Outcome;
use crate::answer::Answer;
use crate::fault_line::report;
use crate::text::put_times;
use htl_edge::{Shelf, Sink};
use htl_load::Loaded;
use htl_open::object::open;
use htl_times::latest_finishes;
use std::alloc::Global;

// Writes the latest finishes of an accepted object. Want of memory comes before the first byte.
fn tell<W: Sink>(alloc: Global, o: &Loaded, out: &mut W) -> Outcome
    ensures answer { IsTold o.now (W.written out.old) (W.written out.new) (W.faults out.old) (W.faults out.new) result }
    ensures write_count { (result ≡ Outcome.Write → ⊥) → W.faults out.new ≡ W.faults out.old }
{
    let t = o.tables();
    let Ok(mut rows) = vec![in alloc; None; t.parts().invs.as_slice().len()] else {
        return Outcome::Memory;
    };
    let busiest = latest_finishes(o, rows.as_mut_slice());
    match put_times(out, t, rows.as_slice(), busiest) {
        Ok(()) => Outcome::Done,
        Err(_) => Outcome::Write,
    }
}

// The answer for the object in a file.
fn times_of<S: Shelf, W: Sink>(alloc: Global, name: &str, shelf: &mut S, out: &mut W) -> Answer
    ensures answer { IsTimes (Some name.now) (files S.holds S.faults shelf.old shelf.new)
        (W.written out.old) (W.written out.new) (W.faults out.old) (W.faults out.new) result.outcome }
    ensures tables { SpeaksOf (IsObjectTables (Some name.now) (S.holds shelf.old)) result.outcome result.tables }
    ensures shelf { S.holds shelf.new ≡ S.holds shelf.old }
    ensures shelf_count { (result.outcome ≡ Outcome.Shelf cause.Failed → ⊥) → (file : List ℕ) → S.faults shelf.new file ≡ S.faults shelf.old file }
    ensures write_count { (result.outcome ≡ Outcome.Write → ⊥) → W.faults out.new ≡ W.faults out.old }
{
    match open(alloc, name, shelf) {
        Ok(loaded) => Answer::plain(tell(alloc, &loaded, out)),
        Err(stop) => Answer::unopened(stop),
    }
}

// Does what the words say, all but the line that tells of the answer.
fn answer_to<S: Shelf, W: Sink>(alloc: Global, words: &[&str], shelf: &mut S, out: &mut W) -> Answer
    ensures answer { IsTimes (object_in words.now) (files S.holds S.faults shelf.old shelf.new)
        (W.written out.old) (W.written out.new) (W.faults out.old) (W.faults out.new) result.outcome }
    ensures tables { SpeaksOf (IsObjectTables (object_in words.now) (S.holds shelf.old)) result.outcome result.tables }
    ensures shelf { S.holds shelf.new ≡ S.holds shelf.old }
    ensures shelf_count { (result.outcome ≡ Outcome.Shelf cause.Failed → ⊥) → (file : List ℕ) → S.faults shelf.new file ≡ S.faults shelf.old file }
    ensures write_count { (result.outcome ≡ Outcome.Write → ⊥) → W.faults out.new ≡ W.faults out.old }
{
    match words {
        [name] => times_of(alloc, name, shelf, out),
        _ => Answer::plain(Outcome::Usage),
    }
}

/// Prints when at the latest each invocation of an object is done.
///
/// The one word is the name of a file that `shelf` holds, of at most 16,777,216 bytes. It is tested as an object. What goes to `out` is a
/// line for each invocation, in the order of their numbers: its name, its worst case and its window, in ticks from the beginning of its
/// round. That of a root module has the latest finish over all paths of a frame and all its rounds in them, when every job takes its
/// worst case and the object's own lists are followed, what is left from there to the window's end, and the first path on which it is.
/// Any other has the root invocation in whose place it can stand: it is done no later. The last line has the length of a frame in ticks,
/// the number of its paths, and the busiest of them with the sum of its jobs' worst cases, in ticks; zeros where there is no module.
///
/// All paths count, also those that no run takes. In no run is a job of a root invocation, or one that stands in its place, done later,
/// however long the jobs take within their worst cases.
///
/// The first of these is the answer: `Usage`, for no word or more than one; `Shelf`; `Object`; `Write`, after a prefix; `Done`. Want of
/// memory may stand in place of any but `Usage`, before the first byte is written. A line on `err` tells of every answer but `Done`; a
/// failing `err` changes nothing else.
pub fn times<S: Shelf, W: Sink, E: Sink>(
    alloc: Global,
    words: &[&str],
    shelf: &mut S,
    out: &mut W,
    err: &mut E,
) -> Outcome
    // Each answer and its cause.
    ensures usage { (result ≡ Outcome.Usage) ↔ (object_in words.now ≡ None) }
    ensures shelf_failed { result ≡ Outcome.Shelf cause.Failed → IsFaultOf (object_in words.now) (S.faults shelf.old) (S.faults shelf.new) }
    ensures shelf_long { (seen : ℕ) → result ≡ Outcome.Shelf (cause.TooLong seen) →
        IsLongFile limit.MAX_OBJECT (object_in words.now) (S.holds shelf.old) seen }
    ensures object { (fault : ObjectFault) → result ≡ Outcome.Object fault → IsRefusedFile (object_in words.now) (S.holds shelf.old) fault }
    ensures done { result ≡ Outcome.Done → IsAcceptedFile (object_in words.now) (S.holds shelf.old)
        (λ o. HasTimes o (λ text. W.written out.new ≡ append_known (W.written out.old) text)) }
    ensures cut { result ≡ Outcome.Write → Rose (W.faults out.old) (W.faults out.new)
        × IsAcceptedFile (object_in words.now) (S.holds shelf.old) (λ o. HasTimes o (λ text. AppendsPrefix (W.written out.old) (W.written out.new) text)) }

    // Where the cause stands and no earlier one, this is the answer, or Memory.
    ensures long_object { (bytes : List ℕ) → IsGiven (object_in words.now) (S.holds shelf.old) (S.faults shelf.old) (S.faults shelf.new) bytes
        → limit.MAX_OBJECT < length bytes → IsOrMemory result (Outcome.Shelf (cause.TooLong (length bytes))) }
    ensures faulty_object { (bytes : List ℕ) → IsGiven (object_in words.now) (S.holds shelf.old) (S.faults shelf.old) (S.faults shelf.new) bytes
        → (fault : ObjectFault) → length bytes ≤ limit.MAX_OBJECT → RefusesBytes bytes fault → IsOrMemory result (Outcome.Object fault) }
    ensures complete { (o : Object) → IsReadyObject (object_in words.now) (S.holds shelf.old) (S.faults shelf.old) (S.faults shelf.new) o
        → (Rose (W.faults out.old) (W.faults out.new) → ⊥) → IsOrMemory result Outcome.Done }

    // What stays as it was.
    ensures unwritten { (result ≡ Outcome.Done → ⊥) → (result ≡ Outcome.Write → ⊥) → W.written out.new ≡ W.written out.old }
    ensures shelf { S.holds shelf.new ≡ S.holds shelf.old }
    ensures shelf_count { (result ≡ Outcome.Shelf cause.Failed → ⊥) → (file : List ℕ) → S.faults shelf.new file ≡ S.faults shelf.old file }
    ensures write_count { (result ≡ Outcome.Write → ⊥) → W.faults out.new ≡ W.faults out.old }

    // What tells of the answer.
    ensures told { IsLineTold (IsObjectTables (object_in words.now) (S.holds shelf.old))
        (Tells (E.written err.old) (E.written err.new) (E.faults err.old) (E.faults err.new)) result }
    ensures quiet { result ≡ Outcome.Done → E.written err.new ≡ E.written err.old }

    // The causes in one, answer by answer.
    ensures answer { IsTimes (object_in words.now) (files S.holds S.faults shelf.old shelf.new)
        (W.written out.old) (W.written out.new) (W.faults out.old) (W.faults out.new) result }
{
    let answer = answer_to(alloc, words, shelf, out);
    report(err, answer.tables.as_ref(), &answer.outcome);
    answer.outcome
}
