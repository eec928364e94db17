// What holds of the end of every program, whatever its tree.
ghost use Rattle.program_steps.specs.Laws.{StatusesHaveCauses, UsageIsNoCommand, NoCommandIsUsage};
ghost use Rattle.program_steps.specs.Laws.{NoCommandAsksNothing, EndsComplete, EndsAsTold, AsksInOrder};
ghost use Rattle.program_steps.specs.Laws.{CountsNeverFall};
ghost use Rattle.program_steps.specs.Laws.{CountsStay, HeldStays, JudgedOnlyAdds};

/// The status of a fault is answered only where the count of that object rose, at a question of the tree or
/// as the end was written.
pub fn statuses_have_causes()
    ensures { StatusesHaveCauses }
{}

/// `Usage` is answered only where the words are no command. There nothing but `WriteFault` can come in its
/// place, and the store, the device and the clock are asked nothing.
pub fn usage_is_no_command()
    ensures usage { UsageIsNoCommand }
    ensures no_command { NoCommandIsUsage }
    ensures nothing { NoCommandAsksNothing }
{}

/// Where no count rose of what the command asks, nor that of the sink, and memory did not run out, the
/// status, the text and the reads are exactly those that the words and what the objects tell determine. Where
/// the tree passes over no fault, it is enough that no fault is answered. What comes after a signature, or
/// after the moment of a clock that tells none, is not determined.
pub fn ends_complete()
    ensures complete { EndsComplete }
    ensures told { EndsAsTold }
{}

/// The objects are asked what the tree asks, in that order, and nothing else. Each signature that is given is
/// under a held name and judged yes, under both names of its algorithm, by the device as it is left. A
/// store's files stay as they are.
pub fn asks_in_order()
    ensures { AsksInOrder }
{}

/// No count falls, and where the tree passes over no fault and none is answered, no count rose.
pub fn counts_stay()
    ensures never_fall { CountsNeverFall }
    ensures stay { CountsStay }
{}

/// A device holds the names that it held, each with its algorithm, and judges yes all that it judged yes.
pub fn keys_stay()
    ensures held { HeldStays }
    ensures judged { JudgedOnlyAdds }
{}
