// Lists of items, each read by what stands before it.
ghost use Rattle.std.specs.Prelude.{◌≡◌, ◌++◌, ◌∷◌, [], List, IfOk};
ghost use Rattle.htl_object.specs.Reading.{Gives, items_at, list_at};

use crate::cursor::Cursor;
use crate::malformed::Stop;
use std::alloc::Global;

/// What is read by what stands before it in its list, and by what was read around it.
pub trait Item<A>: Sized + Drop {
    ghost use Rattle.std.specs.Prelude.{ℕ, List};
    ghost use Rattle.htl_object.specs.Reading.{Read};

    ghost item_at: { A → List Self → List ℕ → Read Self };

    /// The item at the front of the bytes.
    fn read(cursor: &mut Cursor<'_>, around: &A, before: &[Self]) -> Result<Self, Stop>
        ensures { Gives (λ x. x) (item_at around.now before.now cursor.old) cursor.new result };
}

/// So many items. Each is paid for by bytes before the next takes memory.
pub fn items<A, T: Item<A>>(
    alloc: Global,
    cursor: &mut Cursor<'_>,
    around: &A,
    count: usize,
) -> Result<Vec<T>, Stop>
    ensures { Gives (λ x. x.items) (items_at (T.item_at around.now) count [] cursor.old) cursor.new result }
{
    let mut found = Vec::new(alloc);
    for _ in 0..count {
        let item = T::read(cursor, around, &found)?;
        found.push(item)?;
    }
    Ok(found)
}

/// A count up to a limit, and that many items.
pub fn list<A, T: Item<A>>(
    alloc: Global,
    cursor: &mut Cursor<'_>,
    limit: usize,
    around: &A,
) -> Result<Vec<T>, Stop>
    ensures { Gives (λ x. x.items) (list_at limit (T.item_at around.now) cursor.old) cursor.new result }
{
    let count = cursor.count(limit)?;
    items(alloc, cursor, around, count as usize)
}

/// What is read as an item is, and by what was noted of the items before it, so that no item goes over these anew.
pub trait NotedItem<A, N>: Sized + Drop {
    ghost use Rattle.std.specs.Prelude.{ℕ, List, ◌++◌, ◌∷◌, [], IfOk};
    ghost use Rattle.htl_object.specs.Reading.{Read};

    ghost item_at: { A → List Self → List ℕ → Read Self };
    // what is noted is that of the items before
    ghost notes: { N → List Self → Type 0 };

    /// The item at the front of the bytes.
    fn read(
        cursor: &mut Cursor<'_>,
        around: &A,
        before: &[Self],
        noted: &mut N,
    ) -> Result<Self, Stop>
        requires { notes noted.old before.now }
        ensures gives { Gives (λ x. x) (item_at around.now before.now cursor.old) cursor.new result }
        ensures noted { IfOk result (λ x. notes noted.new (before.now ++ x ∷ [])) };
}

/// So many items, where nothing is noted yet. Each is paid for by bytes before the next takes memory.
pub fn noted_items<A, N, T: NotedItem<A, N>>(
    alloc: Global,
    cursor: &mut Cursor<'_>,
    around: &A,
    noted: &mut N,
    count: usize,
) -> Result<Vec<T>, Stop>
    requires { T.notes noted.old [] }
    ensures gives { Gives (λ x. x.items) (items_at (T.item_at around.now) count [] cursor.old) cursor.new result }
    ensures noted { IfOk result (λ x. T.notes noted.new x.items) }
{
    let mut found = Vec::new(alloc);
    for _ in 0..count {
        let item = T::read(cursor, around, &found, noted)?;
        found.push(item)?;
    }
    Ok(found)
}

/// A count up to a limit, and that many items, where nothing is noted yet.
pub fn noted_list<A, N, T: NotedItem<A, N>>(
    alloc: Global,
    cursor: &mut Cursor<'_>,
    limit: usize,
    around: &A,
    noted: &mut N,
) -> Result<Vec<T>, Stop>
    requires { T.notes noted.old [] }
    ensures { Gives (λ x. x.items) (list_at limit (T.item_at around.now) cursor.old) cursor.new result }
{
    let count = cursor.count(limit)?;
    noted_items(alloc, cursor, around, noted, count as usize)
}
