//! What a caller may make of the elements of a list while the list is recognised.
ghost use Rattle.std.specs.Prelude.{List, [], ◌∷◌, ◌++◌, chars};
ghost use Rattle.syslog_text.specs.Pieces.Class.{Text};
ghost use Rattle.syslog_elements.specs.StructuredData.Element.{ElementValue};
ghost use Rattle.syslog_elements.specs.StructuredData.Visited.{Visits, element_seen, list_elements};

use super::recognised::{Element, ElementList};

/// Notes the parameters of an element while the element is walked.
pub trait ParamNotes<'a>: Drop {
    // these parameters were noted, as far as there is space
    ghost noted: { Self → List (Text × Text) → Type 0 };

    /// Returns empty notes. They are made when a list begins with `[`, so that a line without a list needs none.
    fn new() -> Self
        ensures { noted result [] };

    /// Forgets all that was noted.
    fn clear(&mut self)
        ensures { noted self.new [] };

    /// Notes a parameter, with its raw value.
    fn push(&mut self, name: &'a str, value: &'a str)
        ensures { (ps : List (Text × Text)) → noted self.old ps
            → noted self.new (ps ++ ((chars name.entry.now, chars value.entry.now) ∷ [])) };
}

/// Makes something of the elements of a list while the list is recognised.
pub trait ElementVisitor<'a> {
    /// What the visitor notes of an element before the element has ended.
    type Notes: ParamNotes<'a>;

    // since it was the first, it was given these elements
    ghost was_given: { Self → Self → List ElementValue → Type 0 };

    /// Takes an element, with the notes of its parameters.
    fn element(&mut self, element: Element<'a>, notes: &Self::Notes)
        requires { Self.Notes.noted notes.now (element_seen element).params }
        ensures { (first : Self) (es : List ElementValue) → was_given first self.old es
            → was_given first self.new (es ++ (element_seen element.entry ∷ [])) };
}

/// Notes that keep nothing of an element's parameters.
#[derive(Drop)]
pub struct NoNotes;

impl<'a> ParamNotes<'a> for NoNotes {
    ghost use Rattle.std.specs.Prelude.{⊤};

    ghost noted = { λ notes ps. ⊤ };

    #[inline(always)]
    fn new() -> NoNotes {
        NoNotes
    }

    fn clear(&mut self) {}

    #[inline(always)]
    fn push(&mut self, _: &'a str, _: &'a str) {}
}

/// A visitor that makes nothing of the elements.
#[derive(Clone, Copy)]
pub struct NoElements;

impl<'a> ElementVisitor<'a> for NoElements {
    ghost use Rattle.std.specs.Prelude.{⊤};

    type Notes = NoNotes;

    ghost was_given = { λ first visitor es. ⊤ };

    #[inline(always)]
    fn element(&mut self, _: Element<'a>, _: &NoNotes) {}
}

// Notes the parameters of an element that was recognised before.
fn notes_of<'a, N: ParamNotes<'a>>(element: &Element<'a>) -> N
    ensures { N.noted result (element_seen element.now).params }
{
    let mut notes = N::new();
    for (name, value) in element.params() {
        notes.push(name, value);
    }
    notes
}

/// Gives the visitor the elements of a list that was recognised before.
pub fn visit_list<'a, V: ElementVisitor<'a>>(list: &ElementList<'a>, visitor: &mut V)
    ensures { Visits V.was_given visitor.old (list_elements list.now) visitor.new }
{
    for element in list.elements() {
        let notes = notes_of::<V::Notes>(&element);
        visitor.element(element, &notes);
    }
}
