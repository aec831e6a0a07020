// Functions, E code and S code at the end of bytes.
ghost use Rattle.std.specs.Prelude.{◌≡◌, get_or};
ghost use Rattle.htl_object.specs.Instructions.{e_bytes, f_bytes};

use crate::bytes::Bytes;
use crate::lists::Anchors;
use crate::writer::{Spelled, put_list, put_long_list, put_value, put16, put32};
use htl_ecode::EInstr;
use htl_model::{Code, FInstr, Function};
use htl_walk::{SInstr, Schedule};

// The tag of an instruction of a function: the first byte of its spelling.
fn f_tag(instr: &FInstr) -> u8
    ensures { result ≡ get_or (f_bytes instr.now) 0 0 }
{
    match instr {
        FInstr::Int { .. } => 1,
        FInstr::Bool { .. } => 2,
        FInstr::Arg { .. } => 3,
        FInstr::Neg => 4,
        FInstr::Not => 5,
        FInstr::Add => 6,
        FInstr::Sub => 7,
        FInstr::Mul => 8,
        FInstr::Div => 9,
        FInstr::Rem => 10,
        FInstr::Lt => 11,
        FInstr::Le => 12,
        FInstr::Gt => 13,
        FInstr::Ge => 14,
        FInstr::Eq => 15,
        FInstr::Ne => 16,
        FInstr::And => 17,
        FInstr::Or => 18,
        FInstr::Choose => 19,
    }
}

impl Spelled for FInstr {
    ghost use Rattle.htl_object.specs.Instructions.{f_bytes};
    ghost use Rattle.htl_object.specs.Items.{IsFInstr};

    ghost spelling = { f_bytes };

    ghost keeps = { IsFInstr };

    fn put(&self, out: &mut Bytes) {
        out.push(f_tag(self));
        match self {
            FInstr::Int { x } => put_value(out, x),
            FInstr::Bool { x } => out.push(*x),
            FInstr::Arg { k } => put16(out, *k),
            _ => {}
        }
    }
}

impl Spelled for Code {
    ghost use Rattle.htl_object.specs.Instructions.{code_bytes};
    ghost use Rattle.std.specs.Prelude.{All};
    ghost use Rattle.htl_object.specs.Items.{IsFInstr};

    ghost spelling = { code_bytes };

    ghost keeps = { λ c. All IsFInstr c.instrs };

    fn put(&self, out: &mut Bytes) {
        put_list(out, self.args.as_slice());
        self.want.put(out);
        put_list(out, self.instrs.as_slice());
    }
}

impl Spelled for Function {
    ghost use Rattle.htl_model.specs.Tables.{fun_of};
    ghost use Rattle.htl_object.specs.Instructions.{function_bytes};
    ghost use Rattle.htl_object.specs.Objects.{KeepsFunction};

    ghost spelling = { λ f. function_bytes (fun_of f) };

    ghost keeps = { λ f. KeepsFunction (fun_of f) };

    fn put(&self, out: &mut Bytes) {
        match self {
            Function::Code(code) => code.put(out),
            Function::Expr { .. } => {}
        }
    }
}

impl Spelled for Anchors {
    ghost use Rattle.htl_object.specs.Files.{anchors_bytes};
    ghost use Rattle.htl_object.specs.Files.{AreAnchors};

    ghost spelling = { anchors_bytes };

    ghost keeps = { AreAnchors };

    fn put(&self, out: &mut Bytes) {
        put32(out, self.enter);
        put32(out, self.begin);
        put32(out, self.decide);
    }
}

// The tag of an instruction of E code.
fn e_tag(instr: &EInstr) -> u8
    ensures { result ≡ get_or (e_bytes instr.now) 0 0 }
{
    match instr {
        EInstr::CallWrite { .. } => 1,
        EInstr::CallRead { .. } => 2,
        EInstr::Release { .. } => 3,
        EInstr::Future { .. } => 4,
        EInstr::JumpIf { .. } => 5,
        EInstr::Jump { .. } => 6,
        EInstr::IfMode { .. } => 7,
        EInstr::Enter { .. } => 8,
        EInstr::Leave => 9,
        EInstr::Fork { .. } => 10,
        EInstr::Return => 11,
    }
}

impl Spelled for EInstr {
    ghost use Rattle.htl_object.specs.Instructions.{e_bytes};
    ghost use Rattle.htl_object.specs.Objects.{HasWidths};

    ghost spelling = { e_bytes };

    ghost keeps = { HasWidths };

    fn put(&self, out: &mut Bytes) {
        out.push(e_tag(self));
        match *self {
            EInstr::CallWrite { inv, output: port } | EInstr::CallRead { inv, input: port } => {
                put16(out, inv);
                put16(out, port);
            }
            EInstr::Future {
                delay,
                phase,
                target,
            } => {
                put32(out, delay);
                out.push(phase);
                put32(out, target);
            }
            EInstr::JumpIf { switch: n, target } | EInstr::IfMode { mode: n, target } => {
                put16(out, n);
                put32(out, target);
            }
            EInstr::Jump { target } => put32(out, target),
            EInstr::Release { inv: n } | EInstr::Enter { mode: n } | EInstr::Fork { module: n } => {
                put16(out, n);
            }
            EInstr::Leave | EInstr::Return => {}
        }
    }
}

impl Spelled for SInstr {
    ghost use Rattle.htl_object.specs.Instructions.{s_bytes};
    ghost use Rattle.htl_object.specs.Items.{IsSInstr};

    ghost spelling = { s_bytes };

    ghost keeps = { IsSInstr };

    fn put(&self, out: &mut Bytes) {
        match *self {
            SInstr::Dispatch { position, until } => {
                out.push(1);
                put16(out, position);
                put32(out, until);
            }
            SInstr::Idle { until } => {
                out.push(2);
                put32(out, until);
            }
            SInstr::End => {
                out.push(3);
            }
        }
    }
}

impl Spelled for Schedule {
    ghost use Rattle.htl_object.specs.Schedules.{schedule_bytes};
    ghost use Rattle.std.specs.Prelude.{All};
    ghost use Rattle.htl_object.specs.Items.{IsSInstr};

    ghost spelling = { schedule_bytes };

    ghost keeps = { λ s. All IsSInstr s.instrs };

    fn put(&self, out: &mut Bytes) {
        put_long_list(out, self.instrs.as_slice());
    }
}
