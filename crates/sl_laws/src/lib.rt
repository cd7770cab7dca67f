//! Laws of the definitions of `sl_model` that several crates cite. There is no code here: the lemmas stand in `proofs/`, a
//! room a subject, and each is checked where it stands.
#![tactic(auto)]
