use crate::cause::FetchCause;

/// What a change of settings asks for.
#[derive(Clone, Copy, PartialEq, Eq)]
pub struct ConfigUpdate {
    /// A fetch of workspaces, since there are other projects.
    pub projects: bool,
    /// Checks that are set anew.
    pub checks: bool,
    /// A fetch, since cargo is configured otherwise.
    pub cargo: bool,
    /// A fetch, since `cfg.setTest` is another.
    pub set_test: bool,
}

impl ConfigUpdate {
    ghost use Rattle.std.specs.Prelude.{◌≡◌};
    ghost use Rattle.change_effects.specs.Update.{cause_of};

    /// Why a fetch is asked for, if one is: the newest of the requests.
    pub fn fetch_cause(&self) -> Option<FetchCause>
        ensures { result ≡ cause_of self.now }
    {
        if self.set_test {
            Some(FetchCause::CfgSetTest)
        } else if self.cargo {
            Some(FetchCause::CargoConfig)
        } else if self.projects {
            Some(FetchCause::DiscoveredProjects)
        } else {
            None
        }
    }
}
