// What holds of the lists of admitted answers.
ghost use Rattle.wallet_answers.specs.Laws.{ListingIsThere};

/// There is a listing of the admitted answers of every query and every holding, so that a contract that
/// speaks of every listing says something.
pub fn answers_are_listed()
    ensures { ListingIsThere }
{}
