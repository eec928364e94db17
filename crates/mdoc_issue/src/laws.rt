// What follows of an issued document, whatever was asked.
ghost use Rattle.mdoc_issue.specs.Asked.{IssuedIsAsked};
ghost use Rattle.mdoc_issue.specs.Endings.{EndsAsAsked};

use mdoc_view::read_is_relation;

/// What is written for a spec breaks no rule of a reader, and says the credential that the spec asks.
pub fn issued_is_asked()
    ensures { IssuedIsAsked }
{
    read_is_relation();
}

/// Each run ends with a document whose signature the device, as it is left, judges yes, or by a fault of the
/// device; or with `KeyMissing` exactly where the issuer's key is not held. Memory may run out in all.
pub fn ends_as_asked()
    ensures { EndsAsAsked }
{
    read_is_relation();
}
