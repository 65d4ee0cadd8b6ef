//! The tests, by what they are about, and the functions that several of them use.

mod as_str;
mod callers;
mod checks;
mod element_copies;
mod element_lists;
mod elements;
mod equality;
mod faults;
mod lines;
mod messages;
mod names;
mod pieces;
mod printed_form;
mod processes;
mod pump;
mod reading;
mod refusals;
mod rows;
mod runs;
mod sizes;
mod timestamps;
