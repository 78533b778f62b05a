// A host that prints log lines.
ghost use Rattle.std.specs.Prelude.{◌≡◌};

use analysis_host::Analysis;
use log::{Log, warn};
use plain::Items;
use session_port::{Command, Host, HostError, HostEvent, LogCode};

/// Passes every call on to the host that it wraps, and prints each line that a session orders to be logged.
#[derive(Drop)]
pub struct LoggingHost<'a, R, H> {
    rt: &'a R,
    host: H,
}

impl<'a, R, H> LoggingHost<'a, R, H> {
    pub fn new(rt: &'a R, host: H) -> Self
        ensures { result.host ≡ host }
    {
        LoggingHost { rt, host }
    }

    /// The host that it wraps.
    pub fn into_host(self) -> H
        ensures { result ≡ self.entry.host }
    {
        let LoggingHost { rt: _, host } = self;
        host
    }
}

fn words_of(code: LogCode) -> &'static str {
    match code {
        LogCode::MalformedNotification => "notification with malformed params",
        LogCode::UnhandledNotification => "notification that is not handled",
        LogCode::UnknownRequest => "request of an unknown method",
        LogCode::UnknownResponse => "response to no request",
        LogCode::DuplicateOpen => "document opened twice",
        LogCode::UnexpectedChange => "change of a document that is not open",
        LogCode::OrphanClose => "document closed that is not open",
        LogCode::UnknownSave => "document saved that is not open",
        LogCode::SkippedChange => "edit that has no place in its document",
        LogCode::BadPath => "URL of no file",
        LogCode::StrangeResult => "result that fits no job",
        LogCode::SettingsError => "no settings from the client",
        LogCode::DiscoverWithoutSettings => "no settings to discover projects with",
        LogCode::CheckUnknownFile => "file to check that is not known",
        LogCode::FetchError => "workspaces that failed to load",
        LogCode::BuildError => "build scripts that failed to run",
        LogCode::SecondSettingsFile => "settings file beside another that holds",
        LogCode::DiscoverError => "project that was not discovered",
    }
}

fn print_lines<R: Log>(rt: &R, commands: &Items<Command>) {
    for command in commands.as_slice() {
        if let Command::Log(code, text) = command {
            let words = words_of(*code);
            let text = text.as_str();
            warn!(rt; "{words}: {text:?}");
        }
    }
}

impl<'a, R: Log, H: Host<A>, A: Analysis> Host<A> for LoggingHost<'a, R, H> {
    ghost out = { λ h. H.out h.host };

    ghost last_job = { λ h. H.last_job h.host };

    ghost honest = { λ h. H.honest h.host };

    ghost faults = { λ h. H.faults h.host };

    ghost calls = { λ h. H.calls h.host };

    ghost poisoned = { λ h. H.poisoned h.host };

    ghost Origin = { H.Origin };

    ghost origin = { λ h. H.origin h.host };

    fn next(&mut self) -> Result<HostEvent, HostError> {
        self.host.next()
    }

    fn order(&mut self, commands: Items<Command>) -> Result<(), HostError> {
        print_lines(self.rt, &commands);
        self.host.order(commands)
    }
}
