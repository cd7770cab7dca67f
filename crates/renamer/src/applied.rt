//! A schedule as a list of instructions.
ghost use Rattle.std.specs.Prelude.{◌≡◌, ◌<◌, reverse, length, slice_get, nat_lt, IsTrue, IfOk};
ghost use Rattle.std.specs.List.{list_all, filter_map};
ghost use Rattle.sl_model.specs.State.{State};
ghost use Rattle.sl_model.specs.Isa.{Isa};
ghost use Rattle.sl_model.specs.Body.{given, applied_item, applied, flow_of};
ghost use Rattle.sl_model.specs.Lawful.{IsLawful, AreValid};
ghost use Rattle.sl_model.specs.Graph.{body_of};
ghost use Rattle.sl_model.specs.Legal.{IsFullLegal};
ghost use Rattle.sl_model.specs.Program.{TagsHoldOf};
ghost use Rattle.renamer.specs.Outcome.{CarriesProblem};
ghost use Rattle.renamer.specs.WellPosed.{IsGraphOf, IsWellPosed};
ghost use Rattle.sl_model.specs.Machine.{space_of};

use crate::order::faithful_order_carries;
use legal_space::{Choice, Problem, Source, given};
use sl_base::NoMemory;
use sl_model::instruction::Instr;
use sl_model::register::Reg;
use std::alloc::Global;

/// The items of a problem in the order of a schedule, each output in its chosen register and each
/// operand in the register given to its source. Each choice is of an item of the problem.
///
/// Of a full legal schedule of a well-posed problem these are instructions of the set, and they do
/// what the problem's items do, whatever the instruction set and the state.
pub fn apply(
    alloc: Global,
    problem: &Problem,
    items: &[Instr],
    schedule: &[Choice],
) -> Result<Vec<Instr>, NoMemory>
    requires items { items.now ≡ problem.now.graph.items }
    requires known { IsTrue
        (list_all (λ c. nat_lt c.item (length problem.now.graph.items)) schedule.now) }
    ensures applied { IfOk result
        (λ list. list.items ≡ applied (body_of problem.now.graph) schedule.now) }
    ensures carries { (isa : Isa) (s : State) → IsLawful isa → IsWellPosed isa problem.now
        → IsFullLegal problem.now schedule.now
        → TagsHoldOf (space_of isa.name) (flow_of isa (body_of problem.now.graph) s).touches
        → IfOk result (λ list. CarriesProblem isa problem.now schedule.now list.items s) }
    ensures valid { (isa : Isa) → IsGraphOf isa problem.now.graph
        → IsFullLegal problem.now schedule.now
        → IfOk result (λ list. AreValid isa list.items) }
{
    faithful_order_carries();
    problem.graph().is_sound();
    let mut list = Vec::with_capacity(alloc, schedule.len())?;
    for (place, choice) in schedule.iter().enumerate() {
        list.push_reserved(applied_item(problem, items, &schedule[..place], choice));
    }
    Ok(list)
}

// The item of a choice as it stands after the choices made before.
fn applied_item(problem: &Problem, items: &[Instr], done: &[Choice], choice: &Choice) -> Instr
    requires items { items.now ≡ problem.now.graph.items }
    requires known { choice.now.item < length items.now }
    ensures { result ≡ applied_item (body_of problem.now.graph) (reverse done.now) choice.now }
{
    let sources = problem.sources_of(choice.item);
    Instr {
        ins: [
            operand(done, sources, 0),
            operand(done, sources, 1),
            operand(done, sources, 2),
            operand(done, sources, 3),
        ],
        outs: choice.outs,
        ..items[usize::from(choice.item)]
    }
}

// The register at a place among those given to sources.
fn operand(done: &[Choice], sources: &[Source], place: usize) -> Option<Reg>
    ensures { result ≡ slice_get (filter_map (given (reverse done.now)) sources.now) place }
{
    sources
        .iter()
        .filter_map(|source| given(done, *source))
        .nth(place)
}
