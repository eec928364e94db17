// What holds of every run, whatever the tree.
ghost use Rattle.runs.specs.Counts.{FaultsHaveCauses, CountsNeverFall, CountsStay};
ghost use Rattle.runs.specs.Expected.{EndsAsExpected, EndsAsTold, ExpectsTold};
ghost use Rattle.runs.specs.Presented.{PresentsEach};
ghost use Rattle.runs.specs.Signed.{HeldStays, JudgedOnlyAdds};
ghost use Rattle.runs.specs.Went.{AsksInOrder};

/// A run ends by the fault of an object only where the count of that object rose, at a question of the tree.
pub fn faults_have_causes<R, A>()
    ensures { FaultsHaveCauses R A }
{}

/// No count falls, and where a tree passes over no fault, none rises in a run that does not end by one.
pub fn counts_stay<R, A>()
    ensures never_fall { CountsNeverFall R A }
    ensures stay { CountsStay R A }
{}

/// Where no count rose of what the tree asks, and memory did not run out, a run ends as the objects
/// determine. Where a tree passes over no fault, it is enough that a run does not end by one. What comes
/// after a signature, or after the moment of a clock that tells none, is not determined; a tree that never
/// asks for these is not expected to.
pub fn ends_as_expected<R, A>()
    ensures expected { EndsAsExpected R A }
    ensures told { EndsAsTold R A }
    ensures determined { ExpectsTold R A }
{}

/// The objects were asked what the tree asks, in that order, and nothing else. Each signature that was given
/// is under a held name and judged yes, under both names of its algorithm, by the device as it is left. A
/// store's files stay as they are.
pub fn asks_in_order<R, A>()
    ensures { AsksInOrder R A }
{}

/// A device holds the names that it held, each with its algorithm, and judges yes all that it judged yes.
pub fn keys_stay<R, A>()
    ensures held { HeldStays R A }
    ensures judged { JudgedOnlyAdds R A }
{}

/// Where each presentation of a list is made of one signature, the presentations are those of the signatures
/// that were given, in that order, and nothing else was signed.
pub fn presents_each<R, X, Y>()
    ensures { PresentsEach R X Y }
{}
