// Functions, E code and S code out of bytes.
ghost use Rattle.std.specs.Prelude.{◌≡◌};
ghost use Rattle.htl_object.specs.Reading.{Gives};
ghost use Rattle.htl_object.specs.Instructions.{body_at};
ghost use Rattle.htl_object.specs.Files.{e_code_at};

use crate::cursor::{Cursor, bad};
use crate::items::{Item, items, list};
use crate::lists::Anchors;
use crate::malformed::{MalKind, Stop};
use htl_base::Seq;
use htl_base::limits::{MAX_ARGUMENTS, MAX_INSTRUCTIONS};
use htl_ecode::EInstr;
use htl_model::{Code, FInstr};
use htl_walk::{SInstr, Schedule};
use std::alloc::Global;

impl Item<()> for FInstr {
    ghost use Rattle.htl_object.specs.Instructions.{f_instr_at};

    ghost item_at = { λ _ _. f_instr_at };

    fn read(cursor: &mut Cursor<'_>, _around: &(), _before: &[FInstr]) -> Result<FInstr, Stop> {
        let left = cursor.left();
        match cursor.byte()? {
            1 => Ok(FInstr::Int { x: cursor.value()? }),
            2 => Ok(FInstr::Bool { x: cursor.byte()? }),
            3 => Ok(FInstr::Arg { k: cursor.u16()? }),
            4 => Ok(FInstr::Neg),
            5 => Ok(FInstr::Not),
            6 => Ok(FInstr::Add),
            7 => Ok(FInstr::Sub),
            8 => Ok(FInstr::Mul),
            9 => Ok(FInstr::Div),
            10 => Ok(FInstr::Rem),
            11 => Ok(FInstr::Lt),
            12 => Ok(FInstr::Le),
            13 => Ok(FInstr::Gt),
            14 => Ok(FInstr::Ge),
            15 => Ok(FInstr::Eq),
            16 => Ok(FInstr::Ne),
            17 => Ok(FInstr::And),
            18 => Ok(FInstr::Or),
            19 => Ok(FInstr::Choose),
            _ => Err(bad(MalKind::Tag, left)),
        }
    }
}

// A count of 1 to `MAX_INSTRUCTIONS`, and that many instructions.
fn body(alloc: Global, cursor: &mut Cursor<'_>) -> Result<Vec<FInstr>, Stop>
    ensures { Gives (λ x. x.items) (body_at cursor.old) cursor.new result }
{
    let left = cursor.left();
    let count = cursor.u16()?;
    if count < 1 || count as usize > MAX_INSTRUCTIONS {
        return Err(bad(MalKind::Index, left));
    }
    items(alloc, cursor, &(), count as usize)
}

impl Item<Global> for Code {
    ghost use Rattle.htl_object.specs.Instructions.{code_at};

    ghost item_at = { λ _ _. code_at };

    fn read(cursor: &mut Cursor<'_>, around: &Global, _before: &[Code]) -> Result<Code, Stop> {
        let args = list(*around, cursor, MAX_ARGUMENTS, &())?;
        let want = cursor.ty()?;
        let instrs = body(*around, cursor)?;
        Ok(Code {
            args: Seq::new(args),
            want,
            instrs: Seq::new(instrs),
        })
    }
}

impl Item<()> for Anchors {
    ghost use Rattle.htl_object.specs.Files.{anchors_at};

    ghost item_at = { λ _ _. anchors_at };

    fn read(cursor: &mut Cursor<'_>, _around: &(), _before: &[Anchors]) -> Result<Anchors, Stop> {
        let enter = cursor.u32()?;
        let begin = cursor.u32()?;
        let decide = cursor.u32()?;
        Ok(Anchors {
            enter,
            begin,
            decide,
        })
    }
}

impl Item<()> for EInstr {
    ghost use Rattle.htl_object.specs.Instructions.{e_instr_at};

    ghost item_at = { λ _ _. e_instr_at };

    fn read(cursor: &mut Cursor<'_>, _around: &(), _before: &[EInstr]) -> Result<EInstr, Stop> {
        let left = cursor.left();
        match cursor.byte()? {
            1 => {
                let inv = cursor.u16()?;
                let output = cursor.u16()?;
                Ok(EInstr::CallWrite { inv, output })
            }
            2 => {
                let inv = cursor.u16()?;
                let input = cursor.u16()?;
                Ok(EInstr::CallRead { inv, input })
            }
            3 => Ok(EInstr::Release { inv: cursor.u16()? }),
            4 => {
                let delay = cursor.u32()?;
                let phase = cursor.phase()?;
                let target = cursor.u32()?;
                Ok(EInstr::Future {
                    delay,
                    phase,
                    target,
                })
            }
            5 => {
                let switch = cursor.u16()?;
                let target = cursor.u32()?;
                Ok(EInstr::JumpIf { switch, target })
            }
            6 => Ok(EInstr::Jump {
                target: cursor.u32()?,
            }),
            7 => {
                let mode = cursor.u16()?;
                let target = cursor.u32()?;
                Ok(EInstr::IfMode { mode, target })
            }
            8 => Ok(EInstr::Enter {
                mode: cursor.u16()?,
            }),
            9 => Ok(EInstr::Leave),
            10 => Ok(EInstr::Fork {
                module: cursor.u16()?,
            }),
            11 => Ok(EInstr::Return),
            _ => Err(bad(MalKind::Tag, left)),
        }
    }
}

/// A count, and that many instructions of E code.
pub fn e_code(alloc: Global, cursor: &mut Cursor<'_>) -> Result<Vec<EInstr>, Stop>
    ensures { Gives (λ x. x.items) (e_code_at cursor.old) cursor.new result }
{
    let count = cursor.u32()?;
    items(alloc, cursor, &(), count as usize)
}

impl Item<()> for SInstr {
    ghost use Rattle.htl_object.specs.Instructions.{s_instr_at};

    ghost item_at = { λ _ _. s_instr_at };

    fn read(cursor: &mut Cursor<'_>, _around: &(), _before: &[SInstr]) -> Result<SInstr, Stop> {
        let left = cursor.left();
        match cursor.byte()? {
            1 => {
                let position = cursor.u16()?;
                let until = cursor.u32()?;
                Ok(SInstr::Dispatch { position, until })
            }
            2 => Ok(SInstr::Idle {
                until: cursor.u32()?,
            }),
            3 => Ok(SInstr::End),
            _ => Err(bad(MalKind::Tag, left)),
        }
    }
}

impl Item<Global> for Schedule {
    ghost use Rattle.htl_object.specs.Schedules.{schedule_at};

    ghost item_at = { λ _ _. schedule_at };

    fn read(
        cursor: &mut Cursor<'_>,
        around: &Global,
        _before: &[Schedule],
    ) -> Result<Schedule, Stop> {
        let count = cursor.u32()?;
        let instrs = items(*around, cursor, &(), count as usize)?;
        Ok(Schedule {
            instrs: Seq::new(instrs),
        })
    }
}
