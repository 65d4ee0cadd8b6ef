//! The parameters of an element, one after the other.
ghost use Rattle.std.specs.Prelude.{◌≡◌, List};
ghost use Rattle.syslog_elements.specs.{StructuredData.Params.NextParam, Words.item_count};

use super::escapes::unescape;
use std::alloc::{AllocError, Global};
use std::marker::Model;
use syslog_text::as_str::AsStr;

/// An iterator over an element's parameters: their names, and their values with the escapes removed, in order. Each
/// value is allocated. If that fails, the item is an `Err`, and the next call goes on with the next parameter.
#[derive(Drop)]
pub struct ParamsIter<'a, S> {
    alloc: Global,
    rest: &'a [(S, S)],
}

impl<'a, S> Model for ParamsIter<'a, S> {
    ghost Value = { List (S × S) };

    // the parameters that are left
    ghost view = { λ iterator. iterator.rest.now };
}

impl<'a, S> ParamsIter<'a, S> {
    pub(crate) fn new(alloc: Global, params: &'a [(S, S)]) -> ParamsIter<'a, S>
        ensures { result ≡ params.now }
    {
        ParamsIter {
            alloc,
            rest: params,
        }
    }
}

impl<'a, S: AsStr> Iterator for ParamsIter<'a, S> {
    type Item = Result<(&'a S, String), AllocError>;

    ghost next_gives = { λ old item new. NextParam S.text old item new };

    ghost remaining = { item_count (λ left. left) };

    fn next(&mut self) -> Option<Result<(&'a S, String), AllocError>> {
        let (first, rest) = self.rest.split_first()?;
        self.rest = rest;
        Some(unescape(self.alloc, first.1.as_str()).map(|value| (&first.0, value)))
    }
}
