//! Running instructions on the state of a state file.
ghost use Rattle.std.specs.Prelude.{◌<◌, ◌^◌, length};
ghost use Rattle.std.specs.List.{AllByRecursion};
ghost use Rattle.sl_model.specs.Lawful.{IsValid};
ghost use Rattle.state_text.specs.Running.{run_text};
ghost use Rattle.sl_model.specs.Answers.{Gives};
ghost use Rattle.state_text.specs.Views.{line_of};

use crate::printer::print_state;
use crate::reader::{StateErr, read_state};
use machine_sem::run_list;
use sl_isa::{Arch, Instr};
use std::alloc::Global;

/// The text of the state that a straight list of instructions leaves of the one that a text says;
/// or the first line of that text that is no line of a state file.
#[tactic(auto, unfolding(crate::specs::Running::run_text))]
pub fn run_on_state<A: Arch>(
    arch: &A,
    alloc: Global,
    items: &[Instr],
    text: &str,
) -> Result<Vec<u8>, StateErr>
    requires short { length text.now < 2 ^ 31 }
    requires valid { AllByRecursion (IsValid A.language.isa) items.now }
    ensures { Gives line_of (λ v. v.items) result (run_text A.language.isa items.now text.now) }
{
    let mut state = read_state(alloc, arch.name(), text)?;
    if run_list(arch, items, &mut state).is_err() {
        return Err(StateErr::NoMemory);
    }
    let mut out = Vec::new(alloc);
    if print_state(arch.name(), &state, &mut out).is_err() {
        return Err(StateErr::NoMemory);
    }
    Ok(out)
}
