// What holds of the commands of the bench.
ghost use Rattle.bench_top.specs.Laws.{PassesNoFault};

/// No command passes over a fault: where an object fails, the command ends by that.
pub fn passes_no_fault()
    ensures { PassesNoFault }
{}
