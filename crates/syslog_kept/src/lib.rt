//! What the object of a line keeps of the line: a law over definitions, without code that runs.
#![tactic(auto)]

pub mod laws;
