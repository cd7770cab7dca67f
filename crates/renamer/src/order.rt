//! That a faithful order in other registers does the same work.

ghost use Rattle.renamer.specs.Faithful.{FaithfulOrderCarries};

/// A faithful order in other registers carries out the body: from every state in which accesses of
/// the body's flow that are tagged apart share no byte, the run of the schedule's instructions
/// leaves in each register the value of the source that it holds, leaves the memory of the flow,
/// and makes each access as often.
pub fn faithful_order_carries()
    ensures { FaithfulOrderCarries }
{}
