// What holds of the commands of the wallet.
ghost use Rattle.wallet_top.specs.Laws.{AsksWhatIsTold, PassesNoFault, SignsNothing};

/// No command passes over a fault: where an object fails, the command ends by that.
pub fn passes_no_fault()
    ensures { PassesNoFault }
{}

/// No command asks for a signature.
pub fn signs_nothing()
    ensures { SignsNothing }
{}

/// Where the clock tells its moments, no command asks for anything that the objects do not tell.
pub fn asks_what_is_told()
    ensures { AsksWhatIsTold }
{}
