//! The straight problem of a list of items.

ghost use Rattle.std.specs.Prelude.{◌≡◌, ◌≤◌, ◌++◌, map, filter, not, length, IfOk, OnOk};
ghost use Rattle.std.specs.List.{filter_map};
ghost use Rattle.sl_model.specs.RegSets.{regs_in};
ghost use Rattle.sl_model.specs.Source.{last_source};
ghost use Rattle.sl_model.specs.Lawful.{AreValid};
ghost use Rattle.sl_model.specs.Legal.{written, frame_of, straight_problem};
ghost use Rattle.sl_model.specs.declared.limits.TheConstants.{ITEMS};

use crate::problem::Problem;
use dataflow::Graph;
use dataflow::sources::source_of;
use issue_cost::Costs;
use sl_base::NoMemory;
use sl_isa::Arch;
use sl_isa::sets::{regs_in, set_of, set_union};
use sl_model::frame::Frame;
use sl_model::instruction::Instr;
use sl_model::register::{Reg, RegSet};
use sl_model::schedule::Source;
use std::alloc::{AllocError, Global};

impl Problem {
    /// The straight problem of items, at most 64: its own order and sources; each live register of
    /// the frame is final with its last writer; the registers that the frame allows are allowed for
    /// each item. There is a row in the costs for each item. The only error is want of memory.
    pub fn straight<A: Arch>(
        arch: &A,
        alloc: Global,
        items: &[Instr],
        frame: Frame,
        costs: &Costs,
    ) -> Result<Problem, NoMemory>
        requires few { length items.now ≤ ITEMS }
        requires valid { AreValid A.language.isa items.now }
        requires rows { length costs.now.rows ≡ length items.now }
        ensures { IfOk result
            (λ problem. problem ≡ straight_problem A.language.isa items.now frame costs.now) }
    {
        let graph = Graph::build(arch, alloc, items)?;
        let finals = finals_of(alloc, items, frame.live)?;
        let allowed = allowed_of(alloc, items, frame.allowed)?;
        Problem::new(alloc, &graph, &finals, &allowed, costs, false)
    }
}

/// A set of registers for each item.
fn allowed_of(alloc: Global, items: &[Instr], set: RegSet) -> Result<Vec<RegSet>, NoMemory>
    ensures { IfOk result (λ allowed. allowed.items ≡ map (λ i. set) items.now) }
{
    let allowed = items.iter().map(|_| set).collect(alloc)?;
    Ok(allowed)
}

/// What a list of items leaves, and what its schedules may write. Live are the registers that are
/// given, or else all that the items write; allowed are those that they write, and the free ones.
/// The only error is want of memory.
pub fn frame_of(
    alloc: Global,
    items: &[Instr],
    live: Option<RegSet>,
    free: RegSet,
) -> Result<Frame, NoMemory>
    ensures { IfOk result (λ frame. frame ≡ frame_of items.now live free) }
{
    let written = set_of(&written(alloc, items)?);
    Ok(Frame {
        live: live.unwrap_or(written),
        allowed: set_union(written, free),
    })
}

/// The live registers, each with its last writer.
#[tactic(auto, unfolding(sl_model::specs::Source::last_source))]
fn finals_of(alloc: Global, items: &[Instr], live: RegSet) -> Result<Vec<(Reg, Source)>, NoMemory>
    requires { length items.now ≤ 65535 }
    ensures { IfOk result
        (λ finals. finals.items ≡ map (λ r. (r, last_source items.now r)) (regs_in live)) }
{
    let regs = regs_in(alloc, live)?;
    let finals = regs
        .iter()
        .map(|reg| (*reg, source_of(items, *reg)))
        .collect(alloc)?;
    Ok(finals)
}

/// The concrete registers that items write, in their order, each as often as it is written.
pub fn written(alloc: Global, items: &[Instr]) -> Result<Vec<Reg>, NoMemory>
    ensures { IfOk result (λ regs. regs.items ≡ written items.now) }
{
    let mut regs = Vec::new(alloc);
    for item in items {
        add_concrete(&mut regs, &item.outs)?;
    }
    Ok(regs)
}

/// Puts the concrete registers among outputs, with empty ones, behind others.
fn add_concrete(regs: &mut Vec<Reg>, outs: &[Option<Reg>]) -> Result<(), NoMemory>
    ensures { OnOk result
        (regs.new.items ≡ regs.old.items
        ++ filter (λ r. not r.symbolic) (filter_map (λ r. r) outs.now)) }
{
    for out in outs {
        let Some(reg) = out else {
            continue;
        };
        if !reg.symbolic {
            regs.push(*reg).map_err(AllocError::from)?;
        }
    }
    Ok(())
}
