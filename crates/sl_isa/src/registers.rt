//! Registers, and where an instruction writes them.
ghost use Rattle.std.specs.Prelude.{◌≡◌, ◌≤◌, length};
ghost use Rattle.std.specs.List.{filter_map};
ghost use Rattle.sl_model.specs.Register.{same_reg};
ghost use Rattle.sl_model.specs.Source.{outputs, place_from};

use sl_model::instruction::Instr;
use sl_model::register::Reg;

/// Are these two names of one register?
#[tactic(auto, unfolding(sl_model::specs::Register::same_reg))]
pub fn same_reg(a: Reg, b: Reg) -> bool
    ensures { result ≡ same_reg a b }
{
    a == b
}

/// At which place a register stands among outputs, at most 3 with empty ones, which don't count.
#[tactic(auto, unfolding(sl_model::specs::Source::place_from))]
pub fn place_among(outputs: &[Option<Reg>], reg: Reg) -> Option<u8>
    requires { length outputs.now ≤ 3 }
    ensures { result ≡ place_from 0 reg (filter_map (λ r. r) outputs.now) }
{
    let mut place = 0;
    for output in outputs {
        let Some(output) = output else {
            continue;
        };
        if same_reg(*output, reg) {
            return Some(place);
        }
        place += 1;
    }
    None
}

/// At which place, from 0 to 2, an instruction writes a register.
pub fn place_of(instr: &Instr, reg: Reg) -> Option<u8>
    ensures { result ≡ place_from 0 reg (outputs instr.now) }
{
    place_among(&instr.outs, reg)
}
