//! The laws of E code, which crates above build on. Each is a statement that the check has proved; there is nothing
//! to run.
ghost use Rattle.htl_ecode.specs.Laws.{LayoutSpells, SpellsOrDeparts, BlocksStand};

/// The code that is made for tables spells them: every chain of every mode has its path. Of the tables nothing is asked.
pub fn layout_spells()
    ensures { LayoutSpells }
{}

/// E code spells tables exactly where it has no first departure from them.
pub fn spells_or_departs()
    ensures { SpellsOrDeparts }
{}

/// Where E code spells tables, a block stands at each offset at which a mode writes, and at each at which it reads or
/// releases, and has its path; the start of a round leads to the first, the trigger of each to the next, and at other
/// offsets there is none.
pub fn blocks_stand()
    ensures { BlocksStand }
{}
