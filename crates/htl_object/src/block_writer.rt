// Schedules at the end of bytes, of which equal ones are written once.
ghost use Rattle.std.specs.Prelude.{◌≡◌, map, IfOk, OnOk, All, Vec};
ghost use Rattle.std.specs.List.{flat_map};
ghost use Rattle.std.specs.Int.{w16, to_be_bytes};
ghost use Rattle.std.specs.Str.{bytes_eq};
ghost use Rattle.htl_object.specs.Blocks.{with_block, blocks_from, number_in, numbers_from, blocks_bytes};
ghost use Rattle.htl_object.specs.Bytes.{Puts};
ghost use Rattle.htl_object.specs.Items.{IsSInstr};
ghost use Rattle.htl_object.specs.Ranges.{IsShort};
ghost use Rattle.htl_object.specs.Schedules.{schedule_bytes};

use crate::bytes::Bytes;
use crate::writer::{Spelled, put_count};
use htl_base::Memory;
use htl_walk::Schedule;
use indexmap::IndexSet;
use std::alloc::Global;

// The number of the block with this spelling, which is put behind the blocks where it is new.
fn number_of(blocks: &mut IndexSet<Vec<u8>>, spelling: Vec<u8>) -> Result<usize, Memory>
    ensures number { IfOk result (λ n. n ≡ number_in bytes_eq (map (λ b. b.items) blocks.old.keys) spelling.items) }
    ensures blocks { IfOk result (λ n. map (λ b. b.items) blocks.new.keys ≡ with_block bytes_eq (map (λ b. b.items) blocks.old.keys) spelling.items) }
{
    match blocks.insert_full(spelling) {
        Ok((number, _)) => Ok(number),
        Err(_) => Err(Memory),
    }
}

// Puts the number of a schedule's block.
fn put_number(
    alloc: Global,
    out: &mut Bytes,
    schedule: &Schedule,
    blocks: &mut IndexSet<Vec<u8>>,
) -> Result<(), Memory>
    ensures number { OnOk result (Puts (to_be_bytes w16 (number_in bytes_eq (map (λ b. b.items) blocks.old.keys) (schedule_bytes schedule.now))) out.old out.new) }
    ensures blocks { OnOk result (map (λ b. b.items) blocks.new.keys ≡ with_block bytes_eq (map (λ b. b.items) blocks.old.keys) (schedule_bytes schedule.now)) }
    ensures types { OnOk result (All IsSInstr schedule.now.instrs) }
{
    let mut spelling = Bytes::new(alloc);
    schedule.put(&mut spelling);
    let number = number_of(blocks, spelling.into_items()?)?;
    put_count(out, number);
    Ok(())
}

// Puts the number of each schedule's block.
fn put_numbers(
    alloc: Global,
    out: &mut Bytes,
    schedules: &[Schedule],
    blocks: &mut IndexSet<Vec<u8>>,
) -> Result<(), Memory>
    ensures numbers { OnOk result (Puts (flat_map (to_be_bytes w16) (numbers_from bytes_eq (map (λ b. b.items) blocks.old.keys) (map schedule_bytes schedules.now))) out.old out.new) }
    ensures blocks { OnOk result (map (λ b. b.items) blocks.new.keys ≡ blocks_from bytes_eq (map (λ b. b.items) blocks.old.keys) (map schedule_bytes schedules.now)) }
    ensures types { OnOk result (All (λ s. All IsSInstr s.instrs) schedules.now) }
{
    for schedule in schedules {
        put_number(alloc, out, schedule, blocks)?;
    }
    Ok(())
}

// Puts spellings, one behind the other.
fn put_spellings(out: &mut Bytes, spellings: &[Vec<u8>])
    ensures { Puts (flat_map (λ s. s.items) spellings.now) out.old out.new }
{
    for spelling in spellings {
        out.extend(spelling);
    }
}

/// Puts the number of each schedule's block, and then each block once. Blocks are looked up by their spellings, so that this
/// takes the time of the bytes of all schedules.
pub fn put_blocks(alloc: Global, out: &mut Bytes, schedules: &[Schedule]) -> Result<(), Memory>
    requires { All IsShort schedules.now }
    ensures spelled { OnOk result (Puts (blocks_bytes schedules.now) out.old out.new) }
    ensures types { OnOk result (All (λ s. All IsSInstr s.instrs) schedules.now) }
{
    let mut blocks: IndexSet<Vec<u8>> = IndexSet::new(alloc);
    put_numbers(alloc, out, schedules, &mut blocks)?;
    put_spellings(out, blocks.as_slice());
    Ok(())
}
