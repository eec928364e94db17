//! What holds of every history.

ghost use Rattle.verifier_sessions.specs.Laws.{TurnsOnce, StandApart, KeptDiffer};

/// From an opening of an id to its next, or to the end, at most one post of it is answered `Turned`.
pub fn turns_once()
    ensures { TurnsOnce }
{}

/// Two histories of equal length, with the same moments, which agree on the events of an id, and in which no
/// opening of it is refused, give this id the same replies.
pub fn sessions_stand_apart()
    ensures { StandApart }
{}

/// The sessions that are kept have different ids.
pub fn kept_sessions_differ()
    ensures { KeptDiffer }
{}
