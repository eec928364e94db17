// What holds of the text of options.
ghost use Rattle.option_texts.specs.Laws.{AdmittedArePicked, DatesAreNoted, PagesHaveLists, UsableIsNotNoted};

/// A credential that was read is noted as early or late exactly where it is not in date, and it has no note
/// exactly where it is in date and its holder's key is held.
pub fn notes_are_exact()
    ensures dates { DatesAreNoted }
    ensures none { UsableIsNotNoted }
{}

/// Each answer of a page of admitted answers has a list of picks for each credential query, as
/// [`add_page`](crate::add_page) requires. Where the fits are those of the wallet, each of its picks names a
/// credential that was read and a claim set of its credential query, so that none is left out.
pub fn picks_are_told()
    ensures lists { PagesHaveLists }
    ensures picked { AdmittedArePicked }
{}
