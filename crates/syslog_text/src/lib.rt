//! What a text is made of: runs of characters, blanks, words, hosts, tags and numbers; and the theory of pieces.
//!
//! **Rule.** A reader returns the piece at the front of a text and the rest, or nothing where no such piece begins it:
//! `text::number("34>1", 255)` is `Some((34, ">1"))`. The head of `text` says which characters make which piece.
//!
//! The definitions are in `specs/Text.antt`. They rest on the theory of pieces in `specs/Pieces/`, which says what it
//! is to divide a text, whatever its pieces are. The lemmas are in `proofs/TextLemmas` and `proofs/PieceLemmas`.
//!
//! The modules `text::verbatim`, `text::canonical` and `text::write_ascii` serve the crates above alone.
#![tactic(auto)]

pub mod as_str;
pub mod laws;
pub mod text;
