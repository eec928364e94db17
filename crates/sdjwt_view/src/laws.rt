//! Laws of every text.

ghost use Rattle.sdjwt_view.specs.Laws.{ReadIsComputed, ComputedIsRead, ReadsOne};

/// The computed reading, which the contract of `SdCredential::read` cites, is the relation in the standard's
/// terms.
pub fn read_is_relation()
    ensures computed { ReadIsComputed }
    ensures read { ComputedIsRead }
    ensures one { ReadsOne }
{}
