// What follows of an issued text, whatever was asked.
ghost use Rattle.sdjwt_issue.specs.Asked.{IssuedIsAsked};
ghost use Rattle.sdjwt_issue.specs.Endings.{EndsAsAsked};

/// What is written for a spec reads as the credential that the spec asks.
pub fn issued_is_asked()
    ensures { IssuedIsAsked }
{}

/// Each run ends with a text that has a signature which the device, as it is left, judges yes; or with
/// `SharedDigest` exactly where two of the disclosures have one digest, and with `KeyMissing` exactly where
/// none have and the issuer's key is not held. The device fails in neither of these; memory may run out in
/// all.
pub fn ends_as_asked()
    ensures { EndsAsAsked }
{}
