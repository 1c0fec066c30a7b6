ghost use Rattle.std.specs.Prelude.{◌≡◌, [], ◌∷◌, codes, nat_le, ◌&&◌, if◌then◌else◌, Some, None, option_map};
ghost use Rattle.euclidc_commands.specs.Commands.{command_of, source_of};
ghost use Rattle.euclidc_commands.specs.CommandViews.{command_in, command_view, source_view};
ghost use Rattle.euclidc_commands.specs.Words.{number_in, is_target};
ghost use Rattle.euclidc_commands.specs.Targets.{target_of};
ghost use Rattle.euclidc_commands.specs.Unpadded.{is_unpadded};

use crate::command::{Command, Form, TableSource};
use euclid_ast::Choice;

const MOST_SPLITS: u32 = 65_536;

const MOST_RULE: u32 = 255;

/// The words as a command, judged word by word. `None` exactly where they are none.
pub fn command(words: &[String]) -> Option<Command<'_>>
    ensures { option_map command_view result ≡ command_in words.now }
{
    match words {
        [verb, seed_word] => sample_command(verb, seed_word),
        [verb, program_name, form] => convert_command(verb, program_name, form),
        [verb, table_word, program_name, payment_name] => decide_command(
            verb,
            table_word,
            program_name,
            payment_name,
        ),
        [verb, table_word, program_name, settings_name, budget_word] => {
            report_command(verb, table_word, program_name, settings_name, budget_word)
        }
        [verb, table_word, program_name, settings_name, target, last] => {
            target_command(verb, table_word, program_name, settings_name, target, last)
        }
        _ => None,
    }
}

fn decide_command<'a>(
    verb: &'a str,
    table_word: &'a str,
    program_name: &'a str,
    payment_name: &'a str,
) -> Option<Command<'a>>
    ensures { option_map command_view result ≡ command_of (verb.now ∷ table_word.now ∷ program_name.now ∷ payment_name.now ∷ []) }
{
    if verb != "decide"
        || table_word.is_empty()
        || program_name.is_empty()
        || payment_name.is_empty()
    {
        return None;
    }
    Some(Command::Decide(source(table_word), program_name, payment_name))
}

fn report_command<'a>(
    verb: &'a str,
    table_word: &'a str,
    program_name: &'a str,
    settings_name: &'a str,
    budget_word: &str,
) -> Option<Command<'a>>
    ensures { option_map command_view result ≡ command_of (verb.now ∷ table_word.now ∷ program_name.now ∷ settings_name.now ∷ budget_word.now ∷ []) }
{
    if verb != "report"
        || table_word.is_empty()
        || program_name.is_empty()
        || settings_name.is_empty()
    {
        return None;
    }
    let budget = number(budget_word, MOST_SPLITS)?;
    Some(Command::Report(source(table_word), program_name, settings_name, budget))
}

// The commands that have a target.
fn target_command<'a>(
    verb: &str,
    table_word: &'a str,
    program_name: &'a str,
    settings_name: &'a str,
    target_word: &str,
    last: &'a str,
) -> Option<Command<'a>>
    ensures { option_map command_view result ≡ command_of (verb.now ∷ table_word.now ∷ program_name.now ∷ settings_name.now ∷ target_word.now ∷ last.now ∷ []) }
{
    if verb == "check" {
        return check_command(table_word, program_name, settings_name, target_word, last);
    }
    if verb == "prove" {
        return prove_command(table_word, program_name, settings_name, target_word, last);
    }
    None
}

fn prove_command<'a>(
    table_word: &'a str,
    program_name: &'a str,
    settings_name: &'a str,
    target_word: &str,
    budget_word: &str,
) -> Option<Command<'a>>
    ensures { option_map command_view result ≡ command_of (codes "prove" ∷ table_word.now ∷ program_name.now ∷ settings_name.now ∷ target_word.now ∷ budget_word.now ∷ []) }
{
    if table_word.is_empty() || program_name.is_empty() || settings_name.is_empty() {
        return None;
    }
    let target = target(target_word)?;
    let budget = number(budget_word, MOST_SPLITS)?;
    Some(Command::Prove(
        source(table_word),
        program_name,
        settings_name,
        target,
        budget,
    ))
}

fn check_command<'a>(
    table_word: &'a str,
    program_name: &'a str,
    settings_name: &'a str,
    target_word: &str,
    certificate_name: &'a str,
) -> Option<Command<'a>>
    ensures { option_map command_view result ≡ command_of (codes "check" ∷ table_word.now ∷ program_name.now ∷ settings_name.now ∷ target_word.now ∷ certificate_name.now ∷ []) }
{
    if table_word.is_empty()
        || program_name.is_empty()
        || settings_name.is_empty()
        || certificate_name.is_empty()
    {
        return None;
    }
    let target = target(target_word)?;
    Some(Command::Check(
        source(table_word),
        program_name,
        settings_name,
        target,
        certificate_name,
    ))
}

fn convert_command<'a>(verb: &str, program_name: &'a str, form: &str) -> Option<Command<'a>>
    ensures { option_map command_view result ≡ command_of (verb.now ∷ program_name.now ∷ form.now ∷ []) }
{
    if verb != "convert" || program_name.is_empty() {
        return None;
    }
    if form == "json" {
        return Some(Command::Convert(Form::Json, program_name));
    }
    if form == "text" {
        return Some(Command::Convert(Form::Text, program_name));
    }
    None
}

fn sample_command(verb: &str, seed_word: &str) -> Option<Command<'static>>
    ensures { option_map command_view result ≡ command_of (verb.now ∷ seed_word.now ∷ []) }
{
    if verb != "sample" {
        return None;
    }
    let seed = number(seed_word, u32::MAX)?;
    Some(Command::Sample(seed))
}

// The built-in table for `-`, else the file with this name.
fn source(table_word: &str) -> TableSource<'_>
    ensures { source_view result ≡ source_of table_word.now }
{
    if table_word == "-" {
        TableSource::BuiltIn
    } else {
        TableSource::File(table_word)
    }
}

// The target that a word names.
fn target(word: &str) -> Option<Choice>
    ensures { result ≡ (if is_target word.now then Some (target_of word.now) else None) }
{
    if word == "default" {
        return Some(Choice::Default);
    }
    Some(Choice::Rule(number(word, MOST_RULE)?))
}

// The number up to this one that a word writes in decimal without a sign or a leading zero, `0` aside.
fn number(word: &str, most: u32) -> Option<u32>
    ensures { result ≡ number_in most word.now }
{
    match word.parse::<u32>() {
        Ok(number) => is_plain(number, word, most).then_some(number),
        Err(_) => None,
    }
}

// Whether a number is at most this, and its word has no plus sign and no leading zero, `0` aside.
fn is_plain(number: u32, word: &str, most: u32) -> bool
    ensures { result ≡ (nat_le number most && is_unpadded word.now) }
{
    number <= most && is_unpadded(word)
}

// Whether a number is written without a plus sign and without a leading zero, `0` aside.
fn is_unpadded(word: &str) -> bool
    ensures { result ≡ is_unpadded word.now }
{
    match word.as_bytes() {
        [] => false,
        [first, ..] => *first != b'+' && (*first != b'0' || word.len() == 1),
    }
}
