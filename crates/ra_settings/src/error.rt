// The errors of settings.
ghost use Rattle.std.specs.Prelude.{◌≡◌, ◌++◌, [], ◌↔◌, IsTrue, IfOk, OnOk, Some};
ghost use Rattle.ra_settings.specs.Shown.{reason_text, error_text, next_text, more_text, listed, errors_text};

use crate::value::Reason;
use plain::{Items, Text};
use std::alloc::{AllocError, Global};
use std::error::Error;
use std::fmt;
use std::marker::Model;

/// A value that isn't set: where it stands, its row's name, and why.
pub struct ConfigError {
    /// `client`, `user`, or the path of a settings file.
    pub place: Text,
    /// The name of the setting; empty where the whole text is no TOML.
    pub key: Text,
    /// `wrong type`, `unknown value` or `not TOML`.
    pub reason: Text,
}

impl Drop for ConfigError {
    fn drop(self) {
        let ConfigError {
            place: _,
            key: _,
            reason: _,
        } = self;
    }
}

/// The errors of a change, in order. Their text is made once, since showing them takes no memory.
pub struct ConfigErrors {
    errors: Items<ConfigError>,
    text: Text,
}

impl Drop for ConfigErrors {
    fn drop(self) {
        let ConfigErrors { errors: _, text: _ } = self;
    }
}

impl Model for ConfigErrors {
    ghost use Rattle.std.specs.Prelude.{◌≡◌, List};
    ghost use Rattle.ra_settings.specs.declared.error.ConfigError.{ConfigError};
    ghost use Rattle.ra_settings.specs.Shown.{errors_text};

    ghost Value = { List ConfigError };

    ghost view = { λ e. e.errors };

    ghost invariant = { λ e. e.text ≡ errors_text e.errors };
}

impl ConfigErrors {
    pub fn new(alloc: Global, errors: Items<ConfigError>) -> Result<ConfigErrors, AllocError>
        ensures { IfOk result (λ made. made ≡ errors) }
    {
        let text = errors_text(alloc, errors.as_slice())?;
        Ok(ConfigErrors { errors, text })
    }

    /// The errors, in order.
    pub fn entries(&self) -> &[ConfigError]
        ensures { result.now ≡ self.now }
    {
        self.errors.as_slice()
    }

    pub fn is_empty(&self) -> bool
        ensures { IsTrue result ↔ (self.now ≡ []) }
    {
        self.errors.is_empty()
    }
}

impl fmt::Display for ConfigErrors {
    ghost output = { λ errors. Some (errors_text errors) };

    fn fmt<W: fmt::Write>(&self, f: &mut fmt::Formatter<W>) -> fmt::Result {
        f.write_str(self.text.as_str())
    }
}

impl fmt::Debug for ConfigErrors {
    fn fmt<W: fmt::Write>(&self, f: &mut fmt::Formatter<W>) -> fmt::Result {
        fmt::Display::fmt(self, f)
    }
}

impl Error for ConfigErrors {}

impl Reason {
    pub fn as_str(self) -> &'static str
        ensures { result.now ≡ reason_text self }
    {
        match self {
            Reason::WrongType => "wrong type",
            Reason::UnknownValue => "unknown value",
            Reason::NotToml => "not TOML",
        }
    }
}

fn push_error(text: &mut Text, error: &ConfigError) -> Result<(), AllocError>
    ensures { OnOk result (text.new ≡ text.old ++ error_text error.now) }
{
    text.push_str(error.place.as_str())?;
    text.push_str("/")?;
    text.push_str(error.key.as_str())?;
    text.push_str(": ")?;
    text.push_str(error.reason.as_str())
}

fn push_next(text: &mut Text, error: &ConfigError) -> Result<(), AllocError>
    ensures { OnOk result (text.new ≡ text.old ++ next_text error.now) }
{
    text.push_str(", ")?;
    push_error(text, error)
}

fn push_more(text: &mut Text, errors: &[ConfigError]) -> Result<(), AllocError>
    ensures { OnOk result (text.new ≡ text.old ++ more_text errors.now) }
{
    for error in errors {
        push_next(text, error)?;
    }
    Ok(())
}

fn push_listed(text: &mut Text, errors: &[ConfigError]) -> Result<(), AllocError>
    ensures { OnOk result (text.new ≡ text.old ++ listed errors.now) }
{
    match errors {
        [] => Ok(()),
        [first, rest @ ..] => {
            push_error(text, first)?;
            push_more(text, rest)
        }
    }
}

#[tactic(auto, unfolding(crate::specs::Shown::errors_text))]
fn errors_text(alloc: Global, errors: &[ConfigError]) -> Result<Text, AllocError>
    ensures { IfOk result (λ text. text ≡ errors_text errors.now) }
{
    let mut text = Text::from_str(alloc, "invalid config values: ")?;
    push_listed(&mut text, errors)?;
    Ok(text)
}
