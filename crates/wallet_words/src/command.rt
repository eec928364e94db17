// The command that the words are.
ghost use Rattle.std.specs.Prelude.{◌≡◌, IfOk, map, option_map, string_bytes};
ghost use Rattle.clap.specs.Words.{Row, found_of, first_of, rows_of, subcommand_rows_of};
ghost use Rattle.wallet_words.specs.Command.{command_in, command_of, options_in, try_in};
ghost use Rattle.wallet_words.specs.code.Commands.{meaning};

use crate::count::count_asked;
use crate::error::NoMemory;
use crate::parser::wallet_parser;
use clap::ArgMatches;
use clap::error::ErrorKind;
use std::alloc::Global;

/// What is to be done.
#[derive(Clone, Copy)]
pub enum Command<'a> {
    /// Which lines of the file `trees` match the query in the file `query`.
    Try {
        query: &'a str,
        trees: &'a str,
    },
    /// Which options the credentials of the file `wallet` leave for the request in the file `request`, by the
    /// clients of the file `clients`: at most `count` of them, from 1 to 1000, the first ones or those that
    /// follow the token `after`.
    Options {
        request: &'a str,
        wallet: &'a str,
        clients: &'a str,
        after: Option<&'a str>,
        count: u32,
    },
}

/// The command that the words after the program's name are. None where they are no command: `usage`.
///
/// An option may stand anywhere after the command's name, once, as `--count 3` or `--count=3`. `--` ends the
/// options. The count is 20 where none is given; it is a decimal number from 1 to 1000 without leading zeros,
/// and another text is no command. `--after` takes any text as it stands; one that begins with `-` is given
/// as `--after=-t`.
///
/// # Errors
///
/// `NoMemory`, which may come in place of any answer.
pub fn read_command<'a>(alloc: Global, words: &'a [String]) -> Result<Option<Command<'a>>, NoMemory>
    ensures { IfOk result (λ c. option_map meaning c ≡ command_of (map string_bytes words.now)) }
{
    let parser = wallet_parser(alloc)?;
    match parser.try_get_matches_from(words) {
        Ok(matches) => Ok(matched_command(&matches)),
        Err(error) => {
            if error.kind() == ErrorKind::OutOfMemory {
                Err(NoMemory)
            } else {
                Ok(None)
            }
        }
    }
}

fn matched_command<'a>(matches: &ArgMatches<'a>) -> Option<Command<'a>>
    ensures { option_map meaning result ≡ command_in (subcommand_rows_of matches.now) }
{
    let (name, values) = named_values(matches)?;
    match name {
        "try" => try_command(values),
        "options" => options_command(values),
        _ => None,
    }
}

fn named_values<'m, 'a>(matches: &'m ArgMatches<'a>) -> Option<(&'a str, &'m ArgMatches<'a>)>
    ensures { option_map (λ p. (p.0.now, rows_of (found_of p.1.now))) result
        ≡ subcommand_rows_of matches.now }
{
    matches.subcommand()
}

fn try_command<'a>(values: &ArgMatches<'a>) -> Option<Command<'a>>
    ensures { option_map meaning result ≡ try_in (rows_of (found_of values.now)) }
{
    Some(Command::Try {
        query: text_of(values, "query")?,
        trees: text_of(values, "trees")?,
    })
}

fn options_command<'a>(values: &ArgMatches<'a>) -> Option<Command<'a>>
    ensures { option_map meaning result ≡ options_in (rows_of (found_of values.now)) }
{
    Some(Command::Options {
        request: text_of(values, "request")?,
        wallet: text_of(values, "wallet")?,
        clients: text_of(values, "clients")?,
        after: text_of(values, "after"),
        count: count_asked(text_of(values, "count"))?,
    })
}

fn text_of<'a>(values: &ArgMatches<'a>, name: &str) -> Option<&'a str>
    ensures { option_map (λ s. s.now) result ≡ first_of name.now (rows_of (found_of values.now)) }
{
    values.get_str(name)
}
