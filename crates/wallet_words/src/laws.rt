// What holds of the words.
ghost use Rattle.wallet_words.specs.Examples.{CommandLinesHold, UsageLinesHold, NoWordsAreUsage};
ghost use Rattle.wallet_words.specs.Laws.{CountsAreDecimals, OptionsAreRead, TryIsRead};

/// A count is a decimal number from 1 to 1000 without leading zeros.
pub fn counts_are_decimals()
    ensures { CountsAreDecimals }
{}

/// What some lines of words are, and that no words are no command.
pub fn examples_hold()
    ensures commands { CommandLinesHold }
    ensures usage { UsageLinesHold }
    ensures none { NoWordsAreUsage }
{}

/// Words that do not begin with a hyphen are the files of the command that is named before them, whatever
/// else they are. After `--after=` any text is a token.
pub fn plain_words_are_read()
    ensures try_command { TryIsRead }
    ensures options_command { OptionsAreRead }
{}
