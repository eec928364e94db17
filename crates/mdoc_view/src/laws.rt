//! What holds of every sequence of bytes.

ghost use Rattle.mdoc_view.specs.Laws.{ReadIsComputed, ComputedIsRead, UnbrokenSays, ReadsOne};

/// The computed reading, which the contract of `MdCredential::read` cites, is the relation in the standard's
/// terms.
pub fn read_is_relation()
    ensures computed { ReadIsComputed }
    ensures read { ComputedIsRead }
    ensures unbroken { UnbrokenSays }
    ensures one { ReadsOne }
{}
