// Discoveries of projects.
ghost use Rattle.std.specs.Prelude.{◌≡◌, ◌++◌, IfOk, OnOk};
ghost use Rattle.std.specs.Option.{option_copied};
ghost use Rattle.activities.specs.Discovery.{no_discovery_at, begins, ordered, one_less, reported, shown, ended, error_log, error_shown, told_under, discovery_told};
ghost use Rattle.activities.specs.Announced.{Announces, AnnouncesUnless};

use crate::settings::discovery_label;
use crate::telling::{Telling, one};
use plain::{Items, NoMemory, Text};
use ra_config::Config;
use session_port::{Counter, DiscoverArg, DiscoverMsg, LogCode, TurnError};
use std::alloc::Global;
use std::marker::Model;

/// Discoveries of projects: how many were ordered, and how many of them are in progress.
pub struct Discovery {
    alloc: Global,
    given: u64,
    active: u64,
}

impl Drop for Discovery {
    fn drop(self) {
        let Discovery {
            alloc: _,
            given: _,
            active: _,
        } = self;
    }
}

impl Model for Discovery {
    ghost use Rattle.std.specs.Coded.{codes};
    ghost use Rattle.std.specs.Prelude.{◌≤◌};
    ghost use Rattle.activities.specs.Discovery.{Discovery};

    ghost Value = { Discovery };

    ghost coded = { Prim.hlevel codes };

    ghost view = { λ d. record { given = d.given; active = d.active } };

    ghost invariant = { λ d. d.active ≤ d.given };
}

// The error, and on a second line its source where it has one.
fn error_log(alloc: Global, error: &str, source: &Option<Text>) -> Result<Text, NoMemory>
    ensures { IfOk result (λ text. text ≡ error_log error.now source.now) }
{
    let mut text = Text::from_str(alloc, error)?;
    if let Some(source) = source {
        text.push_str("\n")?;
        text.push_str(source.as_str())?;
    }
    Ok(text)
}

fn error_shown(alloc: Global, error: &str) -> Result<Text, NoMemory>
    ensures { IfOk result (λ text. text ≡ error_shown error.now) }
{
    let mut text = Text::from_str(alloc, "Project discovery failed: ")?;
    text.push_str(error)?;
    Ok(text)
}

impl Discovery {
    /// None is in progress, and so many were ordered before.
    pub fn new_at(alloc: Global, given: u64) -> Discovery
        ensures { result ≡ no_discovery_at given }
    {
        Discovery {
            alloc,
            given,
            active: 0,
        }
    }

    /// How many are in progress.
    pub fn active(&self) -> u64
        ensures { result ≡ self.now.active }
    {
        self.active
    }

    // The work begins with the first one in progress.
    fn push_begin(&self, tellings: &mut Items<Telling>, label: &str) -> Result<(), NoMemory>
        ensures { OnOk result (tellings.new ≡ tellings.old ++ begins label.now self.now) }
    {
        if self.active == 0 {
            tellings.push(Telling::Begin {
                title: Text::from_str(self.alloc, label)?,
                token: None,
                message: None,
                percentage: None,
            })?;
        }
        Ok(())
    }

    /// Orders a discovery, which is told under this label. After an `Err` of this and the other calls the discoveries are only to be dropped.
    pub fn order(&mut self, label: &str, arg: DiscoverArg) -> Result<Items<Telling>, TurnError>
        ensures { AnnouncesUnless result (ordered label.now arg self.old) self.new }
    {
        if self.given == u64::MAX {
            return Err(TurnError::Exhausted {
                counter: Counter::Discoveries,
            });
        }
        let mut tellings = Items::new(self.alloc);
        self.push_begin(&mut tellings, label)?;
        tellings.push(Telling::Discover(arg))?;
        self.given += 1;
        self.active += 1;
        Ok(tellings)
    }

    // One has ended; behind the last one in progress the work has ended, with this message.
    fn end(
        &mut self,
        tellings: &mut Items<Telling>,
        label: &str,
        message: Option<Text>,
    ) -> Result<(), NoMemory>
        ensures told { OnOk result (tellings.new ≡ tellings.old ++ (ended label.now message self.old).tellings) }
        ensures after { self.new ≡ one_less self.old }
    {
        self.active = self.active.saturating_sub(1);
        if self.active == 0 {
            tellings.push(Telling::End {
                title: Text::from_str(self.alloc, label)?,
                token: None,
                message,
            })?;
        }
        Ok(())
    }

    fn reported(&self, label: &str, message: &Text) -> Result<Items<Telling>, NoMemory>
        ensures { IfOk result (λ tellings. tellings ≡ reported label.now message.now self.now) }
    {
        if self.active == 0 {
            return Ok(Items::new(self.alloc));
        }
        one(
            self.alloc,
            Telling::Report {
                title: Text::from_str(self.alloc, label)?,
                token: None,
                message: Some(message.clone()?),
                percentage: None,
            },
        )
    }

    // What is told of an error, but for the end of the work.
    fn shown(
        &self,
        error: &str,
        source: &Option<Text>,
        opens_logs: bool,
    ) -> Result<Items<Telling>, NoMemory>
        ensures { IfOk result (λ tellings. tellings ≡ shown opens_logs error.now source.now) }
    {
        let mut tellings = Items::new(self.alloc);
        let text = error_log(self.alloc, error, source)?;
        tellings.push(Telling::Log(LogCode::DiscoverError, text))?;
        tellings.push(Telling::ShowError {
            message: error_shown(self.alloc, error)?,
            button: source.is_some() && opens_logs,
        })?;
        Ok(tellings)
    }

    // A message, where discoveries are told under this label.
    fn hear(
        &mut self,
        label: &str,
        opens_logs: bool,
        message: &DiscoverMsg,
    ) -> Result<Items<Telling>, NoMemory>
        ensures { Announces result (told_under label.now opens_logs message.now self.old) self.new }
    {
        match message {
            DiscoverMsg::Progress { message } => self.reported(label, message),
            DiscoverMsg::Finished { .. } => {
                let mut tellings = Items::new(self.alloc);
                self.end(&mut tellings, label, None)?;
                Ok(tellings)
            }
            DiscoverMsg::Error { error, source } => {
                let mut tellings = self.shown(error.as_str(), source, opens_logs)?;
                let shown = error_shown(self.alloc, error.as_str())?;
                self.end(&mut tellings, label, Some(shown))?;
                Ok(tellings)
            }
        }
    }

    /// A message of a discovery. The project that it has found is the settings'.
    pub fn take(
        &mut self,
        settings: &Config,
        message: &DiscoverMsg,
    ) -> Result<Items<Telling>, NoMemory>
        ensures { Announces result (discovery_told settings.now message.now self.old) self.new }
    {
        match discovery_label(settings) {
            None => one(
                self.alloc,
                Telling::Log(LogCode::DiscoverWithoutSettings, Text::new(self.alloc)),
            ),
            Some(label) => self.hear(label, settings.open_server_logs(), message),
        }
    }
}
