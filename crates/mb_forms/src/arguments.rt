//! A form's command for `clap`.

ghost use Rattle.std.specs.Prelude.{◌≡◌, ◌<◌, [], false, IfOk, fold, length, map};
ghost use Rattle.clap.specs.Words.{app_of, rule_of, with_rule};
ghost use Rattle.clap.specs.Lexer.{usize_max};
ghost use Rattle.mb_forms.specs.Forms.{IsNumbered};
ghost use Rattle.mb_forms.specs.Clap.{positional_arg, option_arg, empty_shape, form_app};
ghost use Rattle.mb_forms.specs.Said.{text_said, option_said, form_said};

use crate::form::{Form, FormOption};
use clap::{Arg, ArgAction, Command};
use std::alloc::{AllocError, Global};

/// A positional word that must be given.
fn positional<'a>(alloc: Global, name: &'a str) -> Arg<'a>
    ensures rule { rule_of result ≡ positional_arg name.entry.now }
    ensures local { result.global ≡ false }
{
    Arg::new(alloc, name).action(ArgAction::Set).required(true)
}

/// An option with one value.
fn option<'a>(alloc: Global, option: FormOption<'a>) -> Arg<'a>
    ensures rule { rule_of result ≡ option_arg (option_said option.entry) }
    ensures local { result.global ≡ false }
{
    Arg::new(alloc, option.name)
        .long(option.name)
        .action(ArgAction::Set)
        .required(option.required)
}

/// A command with no argument yet. Its words are those behind its name.
fn bare_command<'a>(alloc: Global, name: &'a str) -> Command<'a>
    ensures app { app_of result ≡ record { top = empty_shape name.entry.now; subs = [] } }
{
    Command::new(alloc, name)
        .no_binary_name(true)
        .disable_help_flag(true)
}

/// Adds positional words in their order.
fn with_positionals<'a>(
    alloc: Global,
    command: Command<'a>,
    names: &'a [&'a str],
) -> Result<Command<'a>, AllocError>
    ensures made { IfOk result (λ made. app_of made
        ≡ fold with_rule (app_of command.entry) (map positional_arg (map text_said names.entry.now))) }
    ensures few { length names.entry.now < usize_max }
{
    let mut made = command;
    for name in names {
        made = made.arg(positional(alloc, name))?;
    }
    Ok(made)
}

/// Adds options.
fn with_options<'a>(
    alloc: Global,
    command: Command<'a>,
    options: &'a [FormOption<'a>],
) -> Result<Command<'a>, AllocError>
    ensures { IfOk result (λ made. app_of made
        ≡ fold with_rule (app_of command.entry) (map option_arg (map option_said options.entry.now))) }
{
    let mut made = command;
    for given in options {
        made = made.arg(option(alloc, *given))?;
    }
    Ok(made)
}

/// The command of a form.
pub(crate) fn command_of<'a>(alloc: Global, form: &Form<'a>) -> Result<Command<'a>, AllocError>
    ensures made { IfOk result (λ command. app_of command ≡ form_app (form_said form.now)) }
    ensures few { IfOk result (λ _. IsNumbered (form_said form.now)) }
{
    let named = bare_command(alloc, form.name);
    let with_words = with_positionals(alloc, named, form.positionals)?;
    with_options(alloc, with_words, form.options)
}
