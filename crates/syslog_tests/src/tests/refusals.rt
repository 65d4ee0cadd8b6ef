//! Refused memory: `tests/calls_refused`, in the gate, refuses each request of these tests in turn.
//!
//! Each test asks for no memory but by the calls that it is about. Those named `answers_..` pass whichever request is
//! refused, those named `asks_..` make none, and those named `sees_no_refusal..` fail at each that is refused.
mod calls;
mod copies;
mod element_copies;
mod elements;
mod lists;
mod names;
mod objects;
mod strict;
mod texts;

/// How often a call is made until it is not refused.
#[derive(Clone, Copy, PartialEq, Eq)]
enum Tries {
    Once,
    Twice,
}
