// Which source goes before which.
use super::calls::{all_agree, settings};
use crate::text_tests::calls::json;
use plain::{Items, Text};
use ra_config::{Config, ConfigChange};
use std::alloc::Global;
use std::test::Fail;
use test_support::cut;

/// A change of the user's settings, which are TOML.
fn by_user(alloc: Global, text: &str) -> Option<ConfigChange> {
    Some(ConfigChange {
        client: None,
        user: Some(Text::from_str(alloc, text).ok()?),
        workspace_toml: Items::new(alloc),
        crate_toml: Items::new(alloc),
        parents: None,
    })
}

/// A change of the client's settings, which are JSON.
fn by_client(alloc: Global, text: &str) -> Option<ConfigChange> {
    Some(ConfigChange {
        client: Some(json(alloc, text)?),
        user: None,
        workspace_toml: Items::new(alloc),
        crate_toml: Items::new(alloc),
        parents: None,
    })
}

fn after(alloc: Global, config: &Config, change: ConfigChange) -> Option<Config> {
    Some(config.apply_change(alloc, change).ok()?.config)
}

/// Whether checks run on save, where first the user's settings and then the client's are these.
fn checks(alloc: Global, user: &str, client: &str) -> Option<bool> {
    let none = settings(alloc, "{}")?;
    let first = after(alloc, &none, by_user(alloc, user)?);
    drop(none);
    let first = first?;
    let then = after(alloc, &first, by_client(alloc, client)?);
    drop(first);
    let then = then?;
    let checks = then.check_on_save(None);
    drop(then);
    Some(checks)
}

/// The user's settings, the client's, and whether checks run on save.
const ORDER: &str = "checkOnSave = false > {} > false
checkOnSave = false > {\"checkOnSave\":true} > true
checkOnSave = true > {\"checkOnSave\":false} > false
checkOnSave = false > {\"checkOnSave\":1} > false
checkOnSave = > {} > true
 > {} > true";

fn agrees(alloc: Global, line: &str) -> Option<bool> {
    let (user, rest) = cut(line, " > ");
    let (client, want) = cut(rest, " > ");
    Some(checks(alloc, user, client)? == (want == "true"))
}

#[test]
fn the_client_goes_before_the_user(rt: HostRuntime) -> Result<(), Fail> {
    all_agree(rt.alloc(), ORDER, "\n", agrees)
}
