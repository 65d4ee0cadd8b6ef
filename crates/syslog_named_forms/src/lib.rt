//! The forms of lines that are recognised by what follows the date: messages without a program, pairs, programs after
//! other words, headers without structured data, and lines without a date.
//!
//! A text is of the first form whose row divides it, in the order of `named_forms`. The rule of each form is at the
//! head of its module and of its file in `specs/`.
#![tactic(auto)]

pub mod devices;
mod graded;
mod hosts;
mod marks;
mod monotonic;
pub mod named_forms;
mod near_header;
mod pairs;
mod programs;
mod unified;
mod untagged;

pub use untagged::Mark;
