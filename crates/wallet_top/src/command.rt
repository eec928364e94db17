// The words of a command.
ghost use Rattle.std.specs.Prelude.{◌≡◌, ◌∷◌, [], map, option_map, string_bytes};
ghost use Rattle.wallet_top.specs.Command.{command_of};
ghost use Rattle.wallet_top.specs.code.Commands.{meaning};

/// What is to be done.
#[derive(Clone, Copy)]
pub enum Command<'a> {
    /// Which lines of the file `trees` match the query in the file `query`.
    Try { query: &'a str, trees: &'a str },
    /// Which credentials of the file `wallet` match the query in the file `query`.
    List { query: &'a str, wallet: &'a str },
}

/// The command that the words are, if they are one.
pub fn read_command(words: &[String]) -> Option<Command<'_>>
    ensures { option_map meaning result ≡ command_of (map string_bytes words.now) }
{
    match words {
        [word, query, other] => named_command(word.as_str(), query.as_str(), other.as_str()),
        _ => None,
    }
}

fn named_command<'a>(word: &str, query: &'a str, other: &'a str) -> Option<Command<'a>>
    ensures { option_map meaning result ≡ command_of (word.now ∷ query.now ∷ other.now ∷ []) }
{
    if word == "try" {
        Some(Command::Try {
            query,
            trees: other,
        })
    } else if word == "list" {
        Some(Command::List {
            query,
            wallet: other,
        })
    } else {
        None
    }
}
