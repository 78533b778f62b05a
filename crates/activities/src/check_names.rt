// Under what a check is told, and which check a token is of.
ghost use Rattle.std.specs.Prelude.{◌≡◌, ◌++◌, ◌^◌, IfOk, OnOk};
ghost use Rattle.std.specs.Option.{option_copied};
ghost use Rattle.activities.specs.CheckNames.{spaced, joined, command_by, command_set, title_by, token_of, behind, token_front, number_in, id_in};

use crate::settings::{cargo_command, words_set};
use plain::{NoMemory, Text};
use ra_config::Config;
use std::alloc::Global;

/// What a token of a check begins with.
const TOKEN_FRONT: &str = "rust-analyzer/flycheck/";

// Adds words to a text, each behind a space.
fn push_spaced(text: &mut Text, words: &[Text]) -> Result<(), NoMemory>
    ensures { OnOk result (text.new ≡ text.old ++ spaced words.now) }
{
    for word in words {
        text.push_str(" ")?;
        text.push_str(word.as_str())?;
    }
    Ok(())
}

// The words with a space between each two.
fn joined(alloc: Global, words: &[Text]) -> Result<Text, NoMemory>
    ensures { IfOk result (λ text. text ≡ joined words.now) }
{
    match words {
        [] => Ok(Text::new(alloc)),
        [word, rest @ ..] => {
            let mut text = Text::from_str(alloc, word.as_str())?;
            push_spaced(&mut text, rest)?;
            Ok(text)
        }
    }
}

fn command_by(alloc: Global, words: Option<&[Text]>, command: &str) -> Result<Text, NoMemory>
    ensures { IfOk result (λ text. text ≡ command_by (option_copied words.entry) command.now) }
{
    match words {
        Some(words) => joined(alloc, words),
        None => Ok(Text::from_string(format!(in alloc; "cargo {command}")?)),
    }
}

/// The command that the settings give a check.
pub(crate) fn command_set(alloc: Global, settings: &Config) -> Result<Text, NoMemory>
    ensures { IfOk result (λ text. text ≡ command_set settings.now) }
{
    command_by(alloc, words_set(settings), cargo_command(settings))
}

/// The title of a check with this command, by how many checks are set.
pub(crate) fn title_by(
    alloc: Global,
    count: usize,
    id: u64,
    command: &str,
) -> Result<Text, NoMemory>
    ensures { IfOk result (λ title. title ≡ title_by count id command.now) }
{
    if count == 1 {
        return Text::from_str(alloc, command);
    }
    let place = id as u128 + 1;
    Ok(Text::from_string(format!(in alloc; "{command} (#{place})")?))
}

/// The token of a check.
pub(crate) fn token_of(alloc: Global, id: u64) -> Result<Text, NoMemory>
    ensures { IfOk result (λ token. token ≡ token_of id) }
{
    Ok(Text::from_string(format!(in alloc; "rust-analyzer/flycheck/{id}")?))
}

/// What stands behind this front, where the text has it.
pub(crate) fn behind<'a>(front: &str, text: &'a str) -> Option<&'a str>
    ensures { option_copied result ≡ behind front.now text.now }
{
    text.strip_prefix(front)
}

// The number that a text spells.
fn number_in(text: &str) -> Option<u32>
    ensures { result ≡ number_in text.now }
{
    text.parse::<u32>().ok()
}

/// The id in a token of a check.
pub(crate) fn id_in(token: &str) -> Option<u32>
    ensures { result ≡ id_in token.now }
{
    number_in(behind(TOKEN_FRONT, token)?)
}
