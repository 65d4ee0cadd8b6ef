//! A law of the object's definitions: the function does nothing, and its contract is the law.
ghost use Rattle.std.specs.Prelude.{◌≡◌, encode_utf8_all};
ghost use Rattle.syslog_text.specs.Pieces.Class.{Text};
ghost use Rattle.syslog_elements.specs.StructuredData.Escapes.{IsUnescaped};
ghost use Rattle.syslog_object.specs.Object.{unescaped};

/// Removing the escapes from the bytes of a value and from its characters gives the same text. Both are defined by the
/// split into units.
#[tactic(auto, using(crate::proofs::UnescapedLemmas::bytes_unescaped))]
pub fn escapes_are_removed_from_bytes_as_from_characters()
    ensures { (value bare : Text) → IsUnescaped value bare
        → unescaped (encode_utf8_all value) ≡ encode_utf8_all bare }
{}
