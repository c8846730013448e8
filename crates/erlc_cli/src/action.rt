ghost use Rattle.std.specs.Prelude.{◌≡◌, IfOk, map, option_map};
ghost use Rattle.clap.specs.Words.{app_of};
ghost use Rattle.erlc_cli.specs.Actions.{named};
ghost use Rattle.erlc_cli.specs.ActionView.{action_view, asked};
ghost use Rattle.erlc_cli.specs.Command.{words_command};

use clap::error::ErrorKind;
use clap::{Arg, ArgAction, Command};
use std::alloc::{AllocError, Global};

/// What the words ask for, with the names of its files.
pub enum Action<'a> {
    Compile(&'a str, &'a str),
}

/// The action that the words ask for. The command that reads them takes memory.
pub fn action_in<'a>(alloc: Global, words: &'a [String]) -> Result<Option<Action<'a>>, AllocError>
    ensures { IfOk result (λ action. option_map action_view action ≡ asked words.entry.now) }
{
    let command = command(alloc)?;
    match command.try_get_matches_from(words) {
        Ok(matches) => Ok(matches.get_raw("words").and_then(named)),
        Err(error) if error.kind() == ErrorKind::OutOfMemory => Err(AllocError),
        Err(_) => Ok(None),
    }
}

/// The command that reads the words: all of them are values of one positional.
fn command<'a>(alloc: Global) -> Result<Command<'a>, AllocError>
    ensures { IfOk result (λ command. app_of command ≡ words_command) }
{
    let words = Arg::new(alloc, "words")
        .action(ArgAction::Append)
        .num_args(0..);
    Command::new(alloc, "erlc_core")
        .no_binary_name(true)
        .disable_help_flag(true)
        .disable_version_flag(true)
        .arg(words)
}

/// The action that words name.
fn named<'a>(words: &[&'a str]) -> Option<Action<'a>>
    ensures { option_map action_view result ≡ named (map (λ word. word.now) words.now) }
{
    match words {
        [action, input, output] if *action == "compile" => Some(Action::Compile(input, output)),
        _ => None,
    }
}
