// What holds of tokens and of the rules of reading them.
ghost use Rattle.option_list.specs.TokenLaws.{NamesNoRule, OneRule, OneAnswer, IsDecided};

/// Each text is the token of exactly one admitted answer, or is refused with exactly one number of
/// [`Error::Refused`](crate::Error::Refused), and never both. Meant are answers whose picks have numbers
/// below 65,536, as all in memory have.
pub fn tokens_are_read()
    ensures unbroken { NamesNoRule }
    ensures one_rule { OneRule }
    ensures one_answer { OneAnswer }
    ensures decided { IsDecided }
{}
