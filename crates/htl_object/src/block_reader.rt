// Schedules of which equal ones are written once, out of bytes.
ghost use Rattle.std.specs.Prelude.{◌≡◌, ◌<◌, ◌≤◌, ◌-◌, ◌++◌, ◌∷◌, [], not, length, take, map, All, IfOk};
ghost use Rattle.std.specs.List.{list_any};
ghost use Rattle.htl_object.specs.Pieces.{piece_writes, hashed_alike};
ghost use Rattle.std.specs.Str.{bytes_eq};
ghost use Rattle.htl_object.specs.Reading.{IsBytes, Gives, items_at};
ghost use Rattle.htl_object.specs.Blocks.{block_at, blocks_at, schedules_of, with_block, AreSpelled};

use crate::cursor::{Cursor, bad};
use crate::items::{Item, NotedItem, noted_items};
use crate::malformed::{MalKind, Stop};
use htl_base::Seq;
use htl_walk::Schedule;
use indexmap::IndexSet;
use std::alloc::{AllocError, Global};
use std::hash::{Hash, Hasher};

// How many blocks the numbers so far say.
#[derive(Drop)]
struct BlockCount {
    blocks: usize,
}

impl NotedItem<(), BlockCount> for u16 {
    ghost use Rattle.std.specs.Prelude.{◌≡◌};
    ghost use Rattle.htl_object.specs.Blocks.{block_number_at, block_count};

    ghost item_at = { λ _ before. block_number_at before };

    ghost notes = { λ noted before. noted.blocks ≡ block_count before };

    fn read(
        cursor: &mut Cursor<'_>,
        _around: &(),
        _before: &[u16],
        noted: &mut BlockCount,
    ) -> Result<u16, Stop> {
        let left = cursor.left();
        let number = cursor.u16()?;
        if number as usize > noted.blocks {
            return Err(bad(MalKind::Index, left));
        }
        if number as usize == noted.blocks {
            noted.blocks += 1;
        }
        Ok(number)
    }
}

/// A piece of bytes as a key; it is hashed as a whole.
#[derive(Clone, Copy, PartialEq, Eq)]
pub struct Piece<'a> {
    pub bytes: &'a [u8],
}

impl<'a> Hash for Piece<'a> {
    ghost hash_input = { piece_writes };

    ghost respects_eq = { hashed_alike };

    fn hash<H: Hasher>(&self, state: &mut H) {
        state.write(self.bytes);
    }
}

// Puts a piece among those that stand; false where it is there.
fn add<'a>(pieces: &mut IndexSet<Piece<'a>>, piece: &'a [u8]) -> Result<bool, AllocError>
    ensures added { IfOk result (λ new. new ≡ not (list_any (bytes_eq piece.now) (map (λ p. p.bytes.now) pieces.old.keys))) }
    ensures pieces { IfOk result (λ new. map (λ p. p.bytes.now) pieces.new.keys ≡ with_block bytes_eq (map (λ p. p.bytes.now) pieces.old.keys) piece.now) }
{
    Ok(pieces.insert(Piece { bytes: piece })?)
}

// What was read of bytes of which so many are left.
fn taken<'a>(bytes: &'a [u8], left: usize) -> &'a [u8]
    requires { left ≤ length bytes.now }
    ensures front { result.now ≡ take (length bytes.now - left) bytes.now }
    ensures bytes { IsBytes bytes.now }
{
    let (front, _) = bytes.split_at(bytes.len() - left);
    front
}

// One more block, which is none of those before. Their spellings are pieces of the bytes in an index, so that a block is
// looked up and not compared with each.
fn block<'a>(
    alloc: Global,
    cursor: &mut Cursor<'a>,
    before: &[Schedule],
    pieces: &mut IndexSet<Piece<'a>>,
) -> Result<Schedule, Stop>
    requires { AreSpelled (map (λ p. p.bytes.now) pieces.old.keys) before.now }
    ensures gives { Gives (λ x. x) (block_at before.now cursor.old) cursor.new result }
    ensures spelled { IfOk result (λ s. AreSpelled (map (λ p. p.bytes.now) pieces.new.keys) (before.now ++ s ∷ [])) }
{
    let bytes = cursor.rest();
    let schedule = Schedule::read(cursor, &alloc, before)?;
    let piece = taken(bytes, cursor.left());
    if !add(pieces, piece)? {
        return Err(bad(MalKind::Spelling, bytes.len()));
    }
    Ok(schedule)
}

// So many blocks, of which no two are equal.
fn distinct_blocks<'a>(
    alloc: Global,
    cursor: &mut Cursor<'a>,
    count: usize,
) -> Result<Vec<Schedule>, Stop>
    ensures { Gives (λ x. x.items) (items_at block_at count [] cursor.old) cursor.new result }
{
    let mut pieces: IndexSet<Piece<'a>> = IndexSet::new(alloc);
    let mut found = Vec::new(alloc);
    for _ in 0..count {
        let block = block(alloc, cursor, &found, &mut pieces)?;
        found.push(block)?;
    }
    Ok(found)
}

fn copy_of(alloc: Global, schedule: &Schedule) -> Result<Schedule, AllocError>
    ensures { IfOk result (λ copy. copy ≡ schedule.now) }
{
    let mut instrs = Vec::new(alloc);
    instrs.extend_from_slice(schedule.instrs.as_slice())?;
    Ok(Schedule {
        instrs: Seq::new(instrs),
    })
}

// For each number a copy of its block.
fn copies(alloc: Global, numbers: &[u16], blocks: &[Schedule]) -> Result<Vec<Schedule>, AllocError>
    requires { All (λ n. n < length blocks.now) numbers.now }
    ensures { IfOk result (λ schedules. schedules.items ≡ schedules_of blocks.now numbers.now) }
{
    let mut found = Vec::new(alloc);
    for number in numbers {
        found.push(copy_of(alloc, &blocks[*number as usize])?)?;
    }
    Ok(found)
}

/// So many schedules: the number of the block of each, and then the blocks. Each schedule is a copy of its block.
pub fn blocks(alloc: Global, cursor: &mut Cursor<'_>, count: u16) -> Result<Vec<Schedule>, Stop>
    ensures { Gives (λ x. x.items) (blocks_at count cursor.old) cursor.new result }
{
    let mut noted = BlockCount { blocks: 0 };
    let numbers: Vec<u16> = noted_items(alloc, cursor, &(), &mut noted, count as usize)?;
    let blocks = distinct_blocks(alloc, cursor, noted.blocks)?;
    Ok(copies(alloc, &numbers, &blocks)?)
}
