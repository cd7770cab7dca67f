//! That no register choice is lost where the stated space takes of registers that are alike the least. There is no code here:
//! each function's clause is a law, and the lemmas stand in `proofs/`.
#![tactic(auto)]

ghost use Rattle.register_exchange.specs.Lost.{NoChoiceLost, NoChoiceLostInLoops};

/// For each legal list there is one of reduced choices that is as good. So none that is full has fewer stalls than the best of
/// the stated space, and where this is empty none has as few as are asked for.
pub fn no_choice_is_lost()
    ensures { NoChoiceLost }
{}

/// The same for the body of a loop, where each register that is read as it was before the first item is final.
pub fn no_choice_is_lost_in_loops()
    ensures { NoChoiceLostInLoops }
{}
