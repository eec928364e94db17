// What holds of every request, whatever text and device.
ghost use Rattle.request_object.specs.Laws.{EndsAsAsked};
ghost use Rattle.request_object.specs.Made.{MadeIsAsked, MadeIsSigned};

/// A run of a request's tree ends with what the text asks, or with the first of all its rules that is broken,
/// where the device judges as it did before. It ends by a fault of the device only where the rules 1 to 8
/// hold.
pub fn ends_as_asked()
    ensures { EndsAsAsked }
{}

/// The request object that a site makes is read as what it asked, by every wallet that knows the site's key
/// and judges the signature yes. The device that signed it does, as it is left.
pub fn made_is_asked()
    ensures asked { MadeIsAsked }
    ensures signed { MadeIsSigned }
{}
