//! Tests of what no contract says: callers as users write them, refused memory, and tables of worked texts. They are a
//! crate of their own, so that no library is proved once more with them.
#![tactic(auto)]

#[cfg(test)]
mod tests;
