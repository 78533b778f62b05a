// What the settings say of checks and of discoveries.
ghost use Rattle.std.specs.Prelude.{◌≡◌};
ghost use Rattle.std.specs.Option.{option_copied};
ghost use Rattle.activities.specs.Settings.{runs_once, words_set, cargo_command, discovery_label};

use plain::Text;
use ra_config::{Config, InvocationStrategy};

/// Whether one check runs for all workspaces.
pub(crate) fn runs_once(settings: &Config) -> bool
    ensures { result ≡ runs_once settings.now }
{
    match settings.check_invocation_strategy(None) {
        InvocationStrategy::Once => true,
        InvocationStrategy::PerWorkspace => false,
    }
}

/// The words of the command that is run in place of cargo's.
pub(crate) fn words_set(settings: &Config) -> Option<&[Text]>
    ensures { option_copied result ≡ words_set settings.now }
{
    settings.check_override_command(None)
}

/// The command of cargo.
pub(crate) fn cargo_command(settings: &Config) -> &str
    ensures { result.now ≡ cargo_command settings.now }
{
    settings.check_command(None)
}

/// Under what discoveries are told, where projects are discovered.
pub(crate) fn discovery_label(settings: &Config) -> Option<&str>
    ensures { option_copied result ≡ discovery_label settings.now }
{
    match settings.workspace_discover_config() {
        None => None,
        Some(config) => Some(config.progress_label.as_str()),
    }
}
