//! The elements of a recognised list, and the parameters of a recognised element, one after the other.
ghost use Rattle.std.{proofs.Props.props, specs.Prelude.◌≡◌, specs.Prelude.chars, specs.Prelude.IsUtf8};
ghost use Rattle.syslog_elements.specs.{Bodies.Closing.IsDead, StructuredData.item as item_class};
ghost use Rattle.syslog_text.specs.Pieces.{Class.optional, Lists.many};
ghost use Rattle.syslog_elements.specs.StructuredData.Pairs.{inside_of, pairs as pairs_class};
ghost use Rattle.syslog_elements.specs.StructuredData.Recognised.{OneMeaning, OneInside-prop, OneItems-prop};
ghost use Rattle.syslog_elements.specs.StructuredData.Recognised.{OnePairs-prop};

use super::pairs::{Notation, pairs_len};
use super::recognise::after_bracketed;
use super::recognised::{Element, ElementList};
use super::visit::NoNotes;
use super::walk::walk_element;
use syslog_text::text::literal;

/// An iterator over the names and the raw values of an element's parameters, in order.
#[derive(Clone, Copy)]
pub struct Params<'a> {
    rest: &'a str,
    notation: Notation,
    ghost utf8: { IsUtf8 rest.now } by { Prim.hlevel props },
    pub ghost meaning: { OneMeaning (inside_of notation) (chars rest.now) } by { OneInside-prop notation (chars rest.now) },
}

impl<'a> Iterator for Params<'a> {
    ghost use Rattle.syslog_elements.specs.Words.{YieldsFirstBy, item_count, shown, param_value, params_left};

    type Item = (&'a str, &'a str);

    ghost next_gives = { YieldsFirstBy (param_value (λ s. shown s)) params_left };

    ghost remaining = { item_count params_left };

    fn next(&mut self) -> Option<(&'a str, &'a str)> {
        if let Some(_) = literal(self.rest, ']') {
            return None;
        }
        let (found, rest) = self.notation.next_param(self.rest)?;
        self.rest = rest;
        Some(found)
    }
}

/// An iterator over the strict elements of a list, in order. Walking the whole list takes time linear in its text.
#[derive(Clone, Copy)]
pub struct Elements<'a> {
    rest: &'a str,
    // the number of `walk_element`, for the rest
    dead: usize,
    // Check Point's pairs, which come first; most lists have none
    pairs: &'a str,
    ghost utf8: { IsUtf8 rest.now } by { Prim.hlevel props },
    ghost pairs_utf8: { IsUtf8 pairs.now } by { Prim.hlevel props },
    ghost is_dead: { IsDead (chars rest.now) dead },
    pub ghost meaning: { OneMeaning (many item_class) (chars rest.now) } by { OneItems-prop (chars rest.now) },
    pub ghost paired: { OneMeaning (optional pairs_class) (chars pairs.now) } by { OnePairs-prop (chars pairs.now) },
}

impl<'a> Iterator for Elements<'a> {
    ghost use Rattle.syslog_elements.specs.Words.{YieldsFirstBy, item_count, element_seen, elements_left};

    type Item = Element<'a>;

    ghost next_gives = { YieldsFirstBy element_seen elements_left };

    ghost remaining = { item_count elements_left };

    fn next(&mut self) -> Option<Element<'a>> {
        if let Some(count) = pairs_len(self.pairs) {
            let element = Element::of_pairs(self.pairs, count);
            self.pairs = "";
            return Some(element);
        }
        let mut rest = self.rest;
        let mut dead = self.dead;
        'items: loop {
            match walk_element(rest, dead, &mut NoNotes) {
                Ok(found) => {
                    self.rest = found.rest;
                    self.dead = dead;
                    return Some(found.element);
                }
                Err(failed) => {
                    rest = after_bracketed(rest)?;
                    dead = failed.min(dead);
                }
            }
        }
    }
}

impl<'a> Element<'a> {
    ghost use Rattle.syslog_elements.specs.Words.{element_seen, params_left};

    /// Returns an iterator over the names and the raw values of the element's parameters, in order.
    #[tactic(auto, using(crate::proofs::StructuredDataLemmas::Walk::inside_same))]
    pub fn params(&self) -> Params<'a>
        ensures { params_left result ≡ (element_seen self.now).params }
    {
        Params {
            rest: self.inside,
            notation: self.notation,
        }
    }
}

impl<'a> ElementList<'a> {
    ghost use Rattle.syslog_elements.specs.Words.{elements_left, list_elements};

    /// Returns an iterator over the strict elements of the list, in order.
    pub fn elements(&self) -> Elements<'a>
        ensures { elements_left result ≡ list_elements self.now }
    {
        Elements {
            rest: self.text,
            dead: self.text.len(),
            pairs: self.pairs(),
        }
    }
}
