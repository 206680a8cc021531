ghost use Rattle.std.specs.Prelude.{◌≡◌, false, IfOk};
ghost use Rattle.clap.specs.Simple.{app_of};
ghost use Rattle.clap.specs.Walk.{rule_of};
ghost use Rattle.ak_server_words.specs.Words.{ankid, needed, turns_rule};

use clap::builder::ValueParser;
use clap::{Arg, ArgAction, Command};
use std::alloc::{AllocError, Global};

/// `--listen ADDRESS --accounts FILE [--turns N]`, without the program's name in front.
pub(crate) fn command<'a>(alloc: Global) -> Result<Command<'a>, AllocError>
    ensures { IfOk result (λ c. app_of c ≡ ankid) }
{
    let command = Command::new(alloc, "ankid").no_binary_name(true);
    let command = command.arg(needed(alloc, "listen"))?;
    let command = command.arg(needed(alloc, "accounts"))?;
    command.arg(turns(alloc))
}

/// An option that must be given, with one value.
fn needed<'a>(alloc: Global, name: &'a str) -> Arg<'a>
    ensures rule { rule_of result ≡ needed name.entry.now }
    ensures local { result.global ≡ false }
{
    Arg::new(alloc, name)
        .long(name)
        .action(ArgAction::Set)
        .required(true)
}

/// How many connections are served: 1,000,000,000 if it is not given.
fn turns<'a>(alloc: Global) -> Arg<'a>
    ensures rule { rule_of result ≡ turns_rule }
    ensures local { result.global ≡ false }
{
    Arg::new(alloc, "turns")
        .long("turns")
        .action(ArgAction::Set)
        .value_parser(ValueParser::Unsigned(1, 1_000_000_000))
        .default_value("1000000000")
}
