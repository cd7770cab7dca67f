//! What the definitions say at their edges. There is no code here: each function's clauses are the
//! values that a reader can compare with the manual and with the pages on scheduling, and the
//! checker computes them from the definitions.
#![tactic(auto)]

ghost use Rattle.std.specs.Prelude.{◌≡◌, [], ◌∷◌};
ghost use Rattle.sl_model.specs.Body.{applied};
ghost use Rattle.sl_model.specs.Lawful.{IsLawful, AreValid};
ghost use Rattle.sl_model.specs.Graph.{body_of};
ghost use Rattle.sl_model.specs.Legal.{IsFullLegal};
ghost use Rattle.edge_cases.specs.Edges.{OfNothing, OfZero, OfLastAddress, OfRanges, OfWidths, OfOneItem, OfFrames, OfAccesses};
ghost use Rattle.edge_cases.specs.Example.{adding_isa, adding_items, adding_problem, adding_schedule, add, general, BreakRules};

/// An empty list takes no cycle, leaves the state, and has one schedule, which is empty.
pub fn nothing_takes_no_cycle()
    ensures { OfNothing }
{}

/// The zero register reads 0 whatever is written to it, and is none of the other registers.
pub fn the_zero_register_reads_zero()
    ensures { OfZero }
{}

/// Behind address 2^64 - 1 stands address 0, in addresses, loads, stores and shared bytes.
pub fn address_zero_stands_behind_the_last()
    ensures { OfLastAddress }
{}

/// Accesses of 32 bytes that touch share no byte, and those that overlap by one do.
pub fn ranges_share_a_byte_where_they_overlap()
    ensures { OfRanges }
{}

/// A core of width 1 issues one item a cycle, and one of width 8 issues eight.
pub fn a_cycle_has_as_many_slots_as_the_core_is_wide()
    ensures { OfWidths }
{}

/// An item may read the registers that it writes, and may write two.
pub fn an_item_reads_before_it_writes()
    ensures { OfOneItem }
{}

/// What items write is live unless other registers are given, and is allowed beside the free ones.
pub fn what_is_written_is_live_unless_others_are_given()
    ensures { OfFrames }
{}

/// Accesses conflict where they share a byte of one base and one of them stores; other
/// bases and tags decide the rest.
pub fn accesses_conflict_where_they_may_share_a_byte()
    ensures { OfAccesses }
{}

/// What theorems on schedules ask for can be met. A set that only adds is lawful, the items
/// `r1 = r0 + r0`, `r2 = r1 + r1` and `r4 = r0 + r0` are valid, and a schedule that puts the last
/// first, and the first into r3, is legal. Other choices break a rule.
pub fn a_legal_schedule_exists()
    ensures lawful { IsLawful adding_isa }
    ensures valid { AreValid adding_isa adding_items }
    ensures legal { IsFullLegal adding_problem adding_schedule }
    ensures new_list { applied (body_of adding_problem.graph) adding_schedule
        ≡ add (general 4) (general 0) (general 0) ∷ add (general 3) (general 0) (general 0)
        ∷ add (general 2) (general 3) (general 3) ∷ [] }
    ensures broken { BreakRules }
{}
