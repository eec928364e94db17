// What follows of hidden parts, whatever the value.
ghost use Rattle.sdjwt_hiding.specs.Laws.{HiddenIsMeant};

/// A value with parts hidden spells, together with the disclosures, the claim tree that is meant.
pub fn hidden_is_meant()
    ensures { HiddenIsMeant }
{}
