// Parts of a source that stand one after another, or in a list.
ghost use Rattle.std.specs.Prelude.{◌≡◌};
ghost use Rattle.htl_parse.specs.Cursors.{Gives};
ghost use Rattle.htl_parse.specs.ReadingLists.{items_at, list_at, repeated_at};
ghost use Rattle.htl_parse.specs.Repeats.{CanList, CanRepeat};

use crate::cursor::Cursor;
use crate::stop::Stop;
use htl_base::Seq;
use htl_text::Sign;
use std::alloc::Global;

/// What may stand any number of times, and is told by its first token.
pub trait Repeatable: Sized + Drop {
    ghost use Rattle.std.specs.Prelude.{◌≡◌, Bool, List};
    ghost use Rattle.htl_text.specs.Placed.{Placed};
    ghost use Rattle.htl_parse.specs.Reading.{Reader};
    ghost use Rattle.htl_parse.specs.Cursors.{Gives};

    // what contracts see of one, and of several
    ghost Plain: { Type 0 };

    ghost plain: { Self → Plain };

    ghost plains: { List Self → List Plain };

    ghost starts: { List Placed → Bool };

    ghost reading: { Reader Plain };

    /// Whether one begins here.
    fn begins(cursor: &Cursor<'_>) -> bool
        ensures { result ≡ starts cursor.now };

    /// Reads one.
    fn read(alloc: Global, cursor: &mut Cursor<'_>) -> Result<Self, Stop>
        ensures { Gives plain result cursor.new (reading cursor.old) };
}

/// { item }
pub fn repeated<T: Repeatable>(alloc: Global, cursor: &mut Cursor<'_>) -> Result<Seq<T>, Stop>
    requires { CanRepeat T.plain T.plains T.starts T.reading }
    ensures { Gives T.plains result cursor.new (repeated_at T.starts T.reading cursor.old) }
{
    let mut found = Vec::new(alloc);
    'items: while T::begins(cursor) {
        let next = T::read(alloc, cursor)?;
        found.push(next)?;
    }
    Ok(Seq::new(found))
}

/// What may stand in a list, in brackets and with commas between.
pub trait Listable: Sized + Drop {
    ghost use Rattle.std.specs.Prelude.{List};
    ghost use Rattle.htl_parse.specs.Reading.{Reader};
    ghost use Rattle.htl_parse.specs.Cursors.{Gives};

    // what contracts see of one, and of several
    ghost Plain: { Type 0 };

    ghost plain: { Self → Plain };

    ghost plains: { List Self → List Plain };

    ghost reading: { Reader Plain };

    /// Reads one.
    fn read(alloc: Global, cursor: &mut Cursor<'_>) -> Result<Self, Stop>
        ensures { Gives plain result cursor.new (reading cursor.old) };
}

// Items behind an opening bracket, the first of which must stand here.
fn items<T: Listable>(alloc: Global, cursor: &mut Cursor<'_>) -> Result<Vec<T>, Stop>
    requires { CanList T.plain T.plains T.reading }
    ensures { Gives (λ v. T.plains v.items) result cursor.new (items_at T.reading cursor.old) }
{
    let mut found = Vec::new(alloc);
    let first = T::read(alloc, cursor)?;
    found.push(first)?;
    while let Some(_) = cursor.sign(Sign::Comma) {
        let next = T::read(alloc, cursor)?;
        found.push(next)?;
    }
    Ok(found)
}

/// "(" [ item { "," item } ] ")"
pub fn listed<T: Listable>(alloc: Global, cursor: &mut Cursor<'_>) -> Result<Seq<T>, Stop>
    requires { CanList T.plain T.plains T.reading }
    ensures { Gives T.plains result cursor.new (list_at T.reading cursor.old) }
{
    cursor.expect(Sign::OpenParen)?;
    if let Some(_) = cursor.sign(Sign::CloseParen) {
        return Ok(Seq::new(Vec::new(alloc)));
    }
    let found = items(alloc, cursor)?;
    cursor.expect(Sign::CloseParen)?;
    Ok(Seq::new(found))
}
