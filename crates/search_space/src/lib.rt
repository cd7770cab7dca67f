//! The schedules of a problem as lists, and the laws that every search of them stands on. There is no code here: the
//! definitions stand in `specs/`, the lemmas in `proofs/`, a room a subject, and each is checked where it stands.
#![tactic(auto)]
