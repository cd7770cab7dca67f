//! Registers that an instruction of AArch64 never has, whatever the registers in which it stands.
ghost use Rattle.std.specs.Prelude.{◌≡◌, false, slice_get, Some};
ghost use Rattle.sl_model.specs.declared.instruction.Instr.{Instr};
ghost use Rattle.sl_model.specs.Source.{operands};
ghost use Rattle.sl_model.specs.Lawful.{IsValid};
ghost use Rattle.sl_isa.specs.Language.{IsRenaming};
ghost use Rattle.arm64_table.specs.Arm64.{arm64};

use crate::reading::instr_of;
use arm64_table::Arm64;
use sample_set::Failing;
use sl_isa::sets::set_has;
use sl_isa::{Arch, Bank, Instr, Reg, register_in};

/// Whether the class of an instruction's second input has a register. Where it hasn't, no
/// instruction that is this one in other registers has the register there.
fn second_may_be(instr: &Instr, reg: Reg) -> bool
    requires { IsValid arm64.isa instr.now }
    ensures { result ≡ false → (j : Instr) → IsRenaming arm64.isa instr.now j
        → slice_get (operands j) 1 ≡ Some reg → ⊥ }
{
    set_has(Arm64.info(instr.form).in_sets[1], reg)
}

/// An instruction, the number of a vector register, and whether its second input may be there.
const ROWS: [(&str, &str, u16, bool); 6] = [
    (
        "the last register of an element of halfwords",
        "mul v0.8h, v1.8h, v2.h[0]",
        15,
        true,
    ),
    ("the one behind it", "mul v0.8h, v1.8h, v2.h[0]", 16, false),
    ("the last one", "mul v0.4h, v1.4h, v2.h[0]", 31, false),
    (
        "where the output is an input",
        "mla v0.8h, v1.8h, v2.h[0]",
        16,
        false,
    ),
    ("an element of words", "mul v0.4s, v1.4s, v2.s[0]", 16, true),
    ("all lanes", "mul v0.8h, v1.8h, v2.8h", 16, true),
];

#[test]
fn an_element_of_halfwords_stands_below_v16(rt: HostRuntime) -> Failing {
    let alloc = rt.alloc();
    let mut failing = Failing::new(alloc);
    for (name, text, number, wanted) in ROWS {
        let Ok(instr) = instr_of(alloc, text) else {
            failing.check(name, false);
            continue;
        };
        let reg = register_in(Bank::Vector, number);
        failing.check(name, second_may_be(&instr, reg) == wanted);
    }
    failing
}
