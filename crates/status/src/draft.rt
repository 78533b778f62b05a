//! A status that is being told.
ghost use Rattle.std.specs.Prelude.{◌≡◌, IfOk, OnOk};
ghost use Rattle.status.specs.Drafts.{add, add_all, nothing_told};
ghost use Rattle.status.specs.Facts.{fact_if, line_if};
ghost use Rattle.status.specs.Texts.{line};
ghost use Rattle.status.specs.declared.health.Health.TheVariants.{Warning};

use crate::health::Health;
use plain::{NoMemory, Text};
use std::alloc::Global;

/// How well the session is by the facts so far, and their texts.
pub(crate) struct Draft {
    pub health: Health,
    pub text: Text,
}

impl Drop for Draft {
    fn drop(self) {
        let Draft { health: _, text: _ } = self;
    }
}

/// All is well, and nothing is told.
pub(crate) fn nothing_told(alloc: Global) -> Draft
    ensures { result ≡ nothing_told }
{
    Draft {
        health: Health::Ok,
        text: Text::new(alloc),
    }
}

/// Adds a fact.
pub(crate) fn add(draft: &mut Draft, health: Health, text: &str) -> Result<(), NoMemory>
    ensures { OnOk result (draft.new ≡ add (health, text.now) draft.old) }
{
    draft.text.push_str(text)?;
    draft.health = draft.health.worse(health);
    Ok(())
}

/// Adds a warning, where it holds.
pub(crate) fn warn_if(draft: &mut Draft, holds: bool, text: &str) -> Result<(), NoMemory>
    ensures { OnOk result (draft.new ≡ add_all (fact_if holds Warning text.now) draft.old) }
{
    if holds {
        add(draft, Health::Warning, text)
    } else {
        Ok(())
    }
}

fn line(alloc: Global, text: &str) -> Result<Text, NoMemory>
    ensures { IfOk result (λ made. made ≡ line text.now) }
{
    let mut made = Text::from_str(alloc, text)?;
    made.push_str("\n")?;
    Ok(made)
}

/// Adds a text as a line, where there is one.
pub(crate) fn add_line(
    alloc: Global,
    draft: &mut Draft,
    text: &Option<Text>,
) -> Result<(), NoMemory>
    ensures { OnOk result (draft.new ≡ add_all (line_if text.now) draft.old) }
{
    match text {
        None => Ok(()),
        Some(text) => add(draft, Health::Warning, line(alloc, text.as_str())?.as_str()),
    }
}
