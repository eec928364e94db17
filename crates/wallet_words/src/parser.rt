// The parser of the words.
ghost use Rattle.std.specs.Prelude.{IfOk};
ghost use Rattle.wallet_words.specs.Parser.{file, option, try_parser, options_parser, bare_parser};
ghost use Rattle.wallet_words.specs.Parser.{wallet_parser};
ghost use Rattle.wallet_words.specs.code.Parsers.{IsArgument, IsParser};

use clap::{Arg, Command};
use std::alloc::{AllocError, Global};

/// The parser of all commands.
pub fn wallet_parser<'a>(alloc: Global) -> Result<Command<'a>, AllocError>
    ensures { IfOk result (λ c. IsParser wallet_parser c) }
{
    bare_parser(alloc)
        .subcommand(try_parser(alloc)?)?
        .subcommand(options_parser(alloc)?)
}

fn bare_parser<'a>(alloc: Global) -> Command<'a>
    ensures { IsParser bare_parser result }
{
    Command::new(alloc, "vpwallet")
        .no_binary_name(true)
        .disable_help_flag(true)
        .disable_help_subcommand(true)
        .disable_version_flag(true)
        .subcommand_required(true)
}

fn try_parser<'a>(alloc: Global) -> Result<Command<'a>, AllocError>
    ensures { IfOk result (λ c. IsParser try_parser c) }
{
    Command::new(alloc, "try")
        .arg(file(alloc, "query"))?
        .arg(file(alloc, "trees"))
}

fn options_parser<'a>(alloc: Global) -> Result<Command<'a>, AllocError>
    ensures { IfOk result (λ c. IsParser options_parser c) }
{
    Command::new(alloc, "options")
        .arg(file(alloc, "request"))?
        .arg(file(alloc, "wallet"))?
        .arg(file(alloc, "clients"))?
        .arg(option(alloc, "after"))?
        .arg(option(alloc, "count"))
}

fn file<'a>(alloc: Global, name: &'a str) -> Arg<'a>
    ensures { IsArgument (file name.entry.now) result }
{
    Arg::new(alloc, name).required(true)
}

fn option<'a>(alloc: Global, name: &'a str) -> Arg<'a>
    ensures { IsArgument (option name.entry.now) result }
{
    Arg::new(alloc, name).long(name)
}
