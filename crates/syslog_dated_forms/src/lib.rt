//! The forms of lines that are recognised by their date: those of Cisco's systems, of containers and journals, and
//! others whose date the port does not read.
//!
//! A text is of the first form whose row divides it, in the order of `dated_forms`. The rule of each form is at the
//! head of its module and of its file in `specs/`, with its vendor's document.
#![tactic(auto)]

mod address;
mod cisco;
mod container;
mod dated;
pub mod dated_forms;
mod esxi;
mod filed;
mod in_brackets;
mod ios_xr;
mod kiwi;
mod netscaler;
mod open_wrt;
mod procurve;
mod readers;
mod sophos_utm;
mod tail;
mod ucm;
mod undated;
mod unix_seconds;
