//! Elements and lists that were recognised and not collected: they are `Copy`, and hold no memory of their own.
ghost use Rattle.std.specs.Prelude.{◌≡◌, ◌≢◌, ◌++◌, ◌<◌, IfSome, IsTrue, length, sum_by, chars, IsUtf8};
ghost use Rattle.std.proofs.Props.{props};
ghost use Rattle.syslog_elements.specs.{Bodies.Closing.inside as inside_class, StructuredData.Element.elements_text};
ghost use Rattle.syslog_text.specs.Pieces.{Class.Text, Class.optional, Lists.many, View.seen, View.shown};
ghost use Rattle.syslog_elements.specs.StructuredData.{item as item_class, strict as strict_of};
ghost use Rattle.syslog_elements.specs.StructuredData.Unparsed.{IsUnparsed, if_any as any_of};
ghost use Rattle.syslog_elements.specs.StructuredData.Pairs.{inside_of, left_in, paired_element, pairs as pairs_class};
ghost use Rattle.syslog_elements.specs.StructuredData.Pairs.{pairs_in, with_pairs};
ghost use Rattle.syslog_elements.specs.StructuredData.Recognised.{OneMeaning, OneInside-prop, OneItems-prop};
ghost use Rattle.syslog_elements.specs.StructuredData.Recognised.{OnePairs-prop, one_value};

use super::pairs::Notation;
use syslog_text::text::verbatim::before;

/// The id of Check Point's element, which has none: its maker's number is 2620 (IANA's enterprise numbers).
const PAIR_ID: &str = "checkpoint@2620";

/// A strict element, as a slice of the text. Its parameters are walked when they are asked for.
#[derive(Clone, Copy)]
pub struct Element<'a> {
    id: &'a str,
    // the text from its first parameter on, or from its `]` on
    pub(super) inside: &'a str,
    count: usize,
    pub(super) notation: Notation,
    ghost id_utf8: { IsUtf8 id.now } by { Prim.hlevel props },
    ghost utf8: { IsUtf8 inside.now } by { Prim.hlevel props },
    pub ghost meaning: { OneMeaning (inside_of notation) (chars inside.now) } by { OneInside-prop notation (chars inside.now) },
    ghost counted: { count ≡ length (one_value meaning).0 },
}

impl<'a> Element<'a> {
    ghost use Rattle.std.specs.Prelude.{List};
    ghost use Rattle.syslog_elements.specs.Words.{Text, Front, element_seen};

    // Returns the element with this id, whose `count` parameters are in the text `inside`.
    #[inline(always)]
    pub(super) fn new(id: &'a str, inside: &'a str, count: usize) -> Element<'a>
        requires { (q : Text) × ((ps : List (Text × Text))
            × Front inside_class (chars inside.now) q (ps, (tt, tt)) × (count ≡ length ps)) }
        ensures { (q : Text) (ps : List (Text × Text)) → Front inside_class (chars inside.now) q (ps, (tt, tt))
            → element_seen result ≡ record { id = chars id.now; params = ps } }
    {
        Element {
            id,
            inside,
            count,
            notation: Notation::Equals,
        }
    }

    // Returns the element of Check Point's pairs, of which `count` are in the text `inside`.
    pub(super) fn of_pairs(inside: &'a str, count: usize) -> Element<'a>
        requires { (q : Text) × ((ps : List (Text × Text))
            × Front pairs_class (chars inside.now) q (ps, (tt, tt)) × (count ≡ length ps)) }
        ensures { (q : Text) (ps : List (Text × Text)) → Front pairs_class (chars inside.now) q (ps, (tt, tt))
            → element_seen result ≡ paired_element ps }
    {
        Element {
            id: PAIR_ID,
            inside,
            count,
            notation: Notation::Colons,
        }
    }

    /// Returns the id of the element.
    pub fn id(&self) -> &'a str
        ensures { shown result ≡ (element_seen self.now).id }
    {
        self.id
    }

    /// Returns how many parameters the element has.
    pub fn params_len(&self) -> usize
        ensures { result ≡ length (element_seen self.now).params }
    {
        self.count
    }
}

/// A list of elements, as a slice of the text: `-`, or strict and broken elements, or nothing.
#[derive(Clone, Copy)]
pub struct ElementList<'a> {
    pub(super) text: &'a str,
    // Its text from the first element on that is not strict; empty if each is strict. If `text` is empty, these are
    // Check Point's pairs, from the first one on (in this place, since a field more would be copied with each line).
    unparsed: &'a str,
    // 0, unless the text before that is the printed text of all strict elements, or the text is `-` (a number, since the
    // compiler clears the bytes beside a `bool` one by one)
    printed: usize,
    elements: usize,
    params: usize,
    ghost utf8: { IsUtf8 text.now } by { Prim.hlevel props },
    pub ghost meaning: { OneMeaning (many item_class) (chars text.now) } by { OneItems-prop (chars text.now) },
    pub ghost paired: { OneMeaning (optional pairs_class) (pairs_in text.now unparsed.now) } by { OnePairs-prop (pairs_in text.now unparsed.now) },
    ghost counted: { elements ≡ length (with_pairs (one_value paired) (strict_of (one_value meaning))) },
    ghost params_counted: { params
        ≡ sum_by (λ e. length e.params) (with_pairs (one_value paired) (strict_of (one_value meaning))) },
    ghost unparsed_utf8: { IsUtf8 unparsed.now } by { Prim.hlevel props },
    ghost left: { IsUnparsed (chars text.now) (left_in text.now unparsed.now) },
    ghost prints: { 0 < printed → chars text.now
        ≡ elements_text (with_pairs (one_value paired) (strict_of (one_value meaning))) ++ chars unparsed.now } by { Prim.hlevel props },
    ghost differs: { printed ≡ 0 → chars text.now
        ≢ elements_text (with_pairs (one_value paired) (strict_of (one_value meaning))) } by { Prim.hlevel props },
}

impl<'a> ElementList<'a> {
    ghost use Rattle.std.specs.Prelude.{◌↔◌, List, Option, [], ◌∷◌, MatchBool};
    ghost use Rattle.syslog_elements.specs.Words.{Text, Front, ElementValue, list_elements, list_text};

    // Returns the list of this text, with what is left unparsed of it, whether its text before that is printed, and the
    // numbers of its elements and of their parameters.
    #[inline(always)]
    pub(super) fn new(
        text: &'a str,
        unparsed: &'a str,
        printed: usize,
        elements: usize,
        params: usize,
    ) -> ElementList<'a>
        requires { (q : Text) × ((vs : List (Option ElementValue)) × Front (many item_class) (chars text.now) q vs
            × (elements ≡ length (strict_of vs)) × (params ≡ sum_by (λ e. length e.params) (strict_of vs))
            × IsUnparsed (chars text.now) (chars unparsed.now)
            × (0 < printed → chars text.now ≡ elements_text (strict_of vs) ++ chars unparsed.now)
            × (printed ≡ 0 → chars text.now ≢ elements_text (strict_of vs))) }
        ensures elements { (q : Text) (vs : List (Option ElementValue)) → Front (many item_class) (chars text.now) q vs
            → list_elements result ≡ strict_of vs }
        ensures text { list_text result ≡ chars text.now }
    {
        ElementList {
            text,
            unparsed,
            printed,
            elements,
            params,
        }
    }

    // Returns the list of Check Point's pairs, of which `count` are in the text `inside`: one element, and no text.
    pub(super) fn of_pairs(inside: &'a str, count: usize) -> ElementList<'a>
        requires { (q : Text) × ((ps : List (Text × Text))
            × Front pairs_class (chars inside.now) q (ps, (tt, tt)) × (count ≡ length ps)) }
        ensures elements { (q : Text) (ps : List (Text × Text)) → Front pairs_class (chars inside.now) q (ps, (tt, tt))
            → list_elements result ≡ paired_element ps ∷ [] }
        ensures text { list_text result ≡ [] }
    {
        ElementList {
            text: "",
            unparsed: inside,
            printed: 0,
            elements: 1,
            params: count,
        }
    }

    // Returns Check Point's pairs, from the first one on; nothing if the list has none.
    #[tactic(auto, using(crate::proofs::StructuredDataLemmas::Pairs::no_pairs_there))]
    pub(super) fn pairs(&self) -> &'a str
        ensures { chars result.now ≡ pairs_in self.now.text.now self.now.unparsed.now }
    {
        if self.text.is_empty() {
            self.unparsed
        } else {
            ""
        }
    }

    /// Returns the list of a line that has none: its text is empty, and it has no elements.
    pub fn none() -> ElementList<'a>
        ensures elements { list_elements result ≡ [] }
        ensures text { list_text result ≡ [] }
    {
        ElementList::new("", "", 0, 0, 0)
    }

    /// Returns the text of the list.
    pub fn text(&self) -> &'a str
        ensures { shown result ≡ list_text self.now }
    {
        self.text
    }

    /// Returns the printed text of the list's elements, or `-` if there are none, if the list's own text begins with
    /// that. It may be none even then.
    #[tactic(auto, using(crate::proofs::Names::append_cancel_right))]
    pub fn printed(&self) -> Option<&'a str>
        ensures prints { IfSome result (λ p. shown p ≡ elements_text (list_elements self.now)) }
        ensures begins { IfSome result (λ p. (left : Text) × (list_text self.now ≡ shown p ++ left)) }
    {
        if self.printed > 0 {
            Some(before(self.text, self.unparsed))
        } else {
            None
        }
    }

    /// Returns whether the list's text is already the printed text of its elements.
    pub fn is_printed(&self) -> bool
        ensures { IsTrue result ↔ (list_text self.now ≡ elements_text (list_elements self.now)) }
    {
        self.printed > 0 && self.unparsed.is_empty()
    }

    /// Returns the text of the list from the first element on that is not strict; none if each is strict.
    pub fn unparsed(&self) -> Option<&'a str>
        ensures { (unparsed : Text) × IsUnparsed (list_text self.now) unparsed × (seen result ≡ any_of unparsed) }
    {
        if self.unparsed.is_empty() {
            return None;
        }
        if self.text.is_empty() {
            None
        } else {
            Some(self.unparsed)
        }
    }

    /// Returns how many strict elements the list has.
    pub fn len(&self) -> usize
        ensures { result ≡ length (list_elements self.now) }
    {
        self.elements
    }

    /// Returns whether the list has no strict element.
    pub fn is_empty(&self) -> bool
        ensures { MatchBool result (list_elements self.now ≡ []) (list_elements self.now ≢ []) }
    {
        self.len() == 0
    }

    /// Returns how many parameters the strict elements of the list have in all.
    pub fn params_len(&self) -> usize
        ensures { result ≡ sum_by (λ e. length e.params) (list_elements self.now) }
    {
        self.params
    }
}
