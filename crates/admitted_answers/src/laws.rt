// What holds of the order of answers and of the answers that follow one.
ghost use Rattle.admitted_answers.specs.Laws.{OrderIsTotal, FollowingIsThere, FollowingIsNone};
ghost use Rattle.admitted_answers.specs.Laws.{FollowingIsNext};

/// Of two answers one comes first.
pub fn order_is_total()
    ensures { OrderIsTotal }
{}

/// The answers that follow are the next one, the next after that, and so on to the last.
pub fn following_is_next()
    ensures there { FollowingIsThere }
    ensures none { FollowingIsNone }
    ensures next { FollowingIsNext }
{}
