//! When two messages, and two protocols, are equal.
ghost use Rattle.std.specs.Prelude.{◌≡◌, ◌↔◌};
ghost use Rattle.syslog_loose.specs.Words.{IsTrue, text_of};
ghost use Rattle.syslog_loose.specs.Clauses.{message_eq, MessageValue, message_value, Message, Protocol};

use crate::message::{Message, Protocol};
use syslog_text::as_str::AsStr;

/// Equality of messages is an equivalence for every type of texts, and messages with the same value are equal. It does
/// not depend on the protocol.
pub fn messages_are_equal_but_for_the_protocol<S: AsStr>()
    ensures reflexive { (a : Message S) → IsTrue (⟦<Message<S> as PartialEq>⟧.eq a a) }
    ensures symmetric { (a b : Message S) → IsTrue (⟦<Message<S> as PartialEq>⟧.eq a b)
        → IsTrue (⟦<Message<S> as PartialEq>⟧.eq b a) }
    ensures transitive { (a b c : Message S) → IsTrue (⟦<Message<S> as PartialEq>⟧.eq a b)
        → IsTrue (⟦<Message<S> as PartialEq>⟧.eq b c) → IsTrue (⟦<Message<S> as PartialEq>⟧.eq a c) }
    ensures same { (a b : Message S) → message_value (text_of S.text) a ≡ message_value (text_of S.text) b
        → IsTrue (⟦<Message<S> as PartialEq>⟧.eq a b) }
    ensures protocol { (m n : MessageValue) (p q : Protocol)
        → message_eq (record m { protocol = p }) (record n { protocol = q }) ≡ message_eq m n }
{}

/// Two protocols are equal exactly when they are the same: both RFC 3164, or both RFC 5424 with the same version.
pub fn protocols_are_equal_by_value()
    ensures { (p q : Protocol) → IsTrue (⟦<Protocol as PartialEq>⟧.eq p q) ↔ (p ≡ q) }
{}
