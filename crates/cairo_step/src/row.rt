ghost use Rattle.std.specs.Prelude.{◌≡◌, ◌↔◌, IsTrue};
ghost use Rattle.cairo_model.specs.Machine.FieldMemories.{cell_at};
ghost use Rattle.cairo_model.specs.Machine.Steps.{Step, field_arithmetic};
ghost use Rattle.cairo_model.specs.Views.Machine.{field_registers};
ghost use Rattle.cairo_step.specs.Equations.{Equations, ◌⊕◌, ◌⊖◌, half};
ghost use Rattle.cairo_step.specs.Working.Parts.{split};
ghost use Rattle.cairo_step.specs.Working.Split.{is_row, register_at, z_from as z_source, result_in as result_of, pc_after as after_of, pc_in as pc_of, ap_in as ap_of, fp_in as fp_of, keeps_opcode as opcode_test, leads_to as leads_test};

use crate::split::Parts;
use cairo_model::{Cells, FieldState, cells_are_felts, felt_of};
use goldi_field::Felt;

/// Whether the equations of a row hold from the one state to the other (docs/MACHINE.md), which is where the machine can
/// go from the one to the other. Takes no memory.
pub fn row_holds(memory: &Cells, s: FieldState, t: FieldState) -> bool
    ensures equations { IsTrue result ↔ Equations (cell_at memory.now) (field_registers s) (field_registers t) }
    ensures step { IsTrue result ↔ Step field_arithmetic (cell_at memory.now) (field_registers s) (field_registers t) }
{
    cells_are_felts(memory);
    tests_row(memory, &s, &t)
}

#[tactic(auto, unfolding(crate::specs::Working::Split::is_row))]
fn tests_row(memory: &Cells, s: &FieldState, t: &FieldState) -> bool
    ensures { result ≡ is_row (cell_at memory.now) (field_registers s.now) (field_registers t.now) }
{
    let Some(cell) = memory.get(s.pc) else {
        return false;
    };
    let word = cell.value();
    if word >= 1 << 63 {
        return false;
    }
    let parts = Parts::of(word);
    if !parts.is_allowed() {
        return false;
    }
    let Some(x) = memory.get(moved(register(parts.f0, s), parts.a0)) else {
        return false;
    };
    let Some(y) = memory.get(moved(register(parts.f1, s), parts.a1)) else {
        return false;
    };
    let Some(z) = memory.get(moved(z_from(&parts, s, y), parts.a2)) else {
        return false;
    };
    leads_to(&parts, s, t, x, y, z)
}

// An offset has 2^15 added to it.
fn moved(from: Felt, offset: u16) -> Felt
    ensures { result.number ≡ from.number ⊕ offset ⊖ half }
{
    from.add(felt_of(offset as u32)).sub(felt_of(1 << 15))
}

fn register(flag: bool, s: &FieldState) -> Felt
    ensures { result.number ≡ register_at flag (field_registers s.now) }
{
    if flag { s.fp } else { s.ap }
}

fn z_from(parts: &Parts, s: &FieldState, y: Felt) -> Felt
    ensures { result.number ≡ z_source (split parts.now) (field_registers s.now) y.number }
{
    if parts.f2 {
        s.pc
    } else if parts.f3 {
        s.fp
    } else if parts.f4 {
        s.ap
    } else {
        y
    }
}

fn result_in(parts: &Parts, y: Felt, z: Felt) -> Felt
    ensures { result.number ≡ result_of (split parts.now) y.number z.number }
{
    if parts.f5 {
        y.add(z)
    } else if parts.f6 {
        y.mul(z)
    } else {
        z
    }
}

fn pc_after(parts: &Parts, s: &FieldState) -> Felt
    ensures { result.number ≡ after_of (split parts.now) (field_registers s.now) }
{
    s.pc.add(felt_of(if parts.f2 { 2 } else { 1 }))
}

fn pc_in(parts: &Parts, s: &FieldState, x: Felt, z: Felt, r: Felt) -> Felt
    ensures { result.number ≡ pc_of (split parts.now) (field_registers s.now) x.number z.number r.number }
{
    if parts.f7 {
        r
    } else if parts.f8 {
        s.pc.add(r)
    } else if parts.f9 && x.number != 0 {
        s.pc.add(z)
    } else {
        pc_after(parts, s)
    }
}

fn ap_in(parts: &Parts, s: &FieldState, r: Felt) -> Felt
    ensures { result.number ≡ ap_of (split parts.now) (field_registers s.now) r.number }
{
    if parts.f12 {
        s.ap.add(felt_of(2))
    } else if parts.f10 {
        s.ap.add(r)
    } else if parts.f11 {
        s.ap.add(Felt::ONE)
    } else {
        s.ap
    }
}

fn fp_in(parts: &Parts, s: &FieldState, x: Felt) -> Felt
    ensures { result.number ≡ fp_of (split parts.now) (field_registers s.now) x.number }
{
    if parts.f12 {
        s.ap.add(felt_of(2))
    } else if parts.f13 {
        x
    } else {
        s.fp
    }
}

fn keeps_opcode(parts: &Parts, s: &FieldState, x: Felt, y: Felt, r: Felt) -> bool
    ensures { result ≡ opcode_test (split parts.now) (field_registers s.now) x.number y.number r.number }
{
    if parts.f12 {
        x.number == s.fp.number && y.number == pc_after(parts, s).number
    } else if parts.f14 {
        x.number == r.number
    } else {
        true
    }
}

fn leads_to(parts: &Parts, s: &FieldState, t: &FieldState, x: Felt, y: Felt, z: Felt) -> bool
    ensures { result ≡ leads_test (split parts.now) (field_registers s.now) (field_registers t.now) x.number y.number z.number (result_of (split parts.now) y.number z.number) }
{
    let r = result_in(parts, y, z);
    t.pc.number == pc_in(parts, s, x, z, r).number
        && t.ap.number == ap_in(parts, s, r).number
        && t.fp.number == fp_in(parts, s, x).number
        && keeps_opcode(parts, s, x, y, r)
}
