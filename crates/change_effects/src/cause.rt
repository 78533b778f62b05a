/// Why a change of settings asks for workspaces to be fetched.
#[derive(Clone, Copy, Debug, PartialEq, Eq, PartialOrd, Ord, Hash)]
pub enum FetchCause {
    DiscoveredProjects,
    CargoConfig,
    CfgSetTest,
}

impl FetchCause {
    ghost use Rattle.std.specs.Prelude.{◌≡◌};
    ghost use Rattle.change_effects.specs.Update.{cause_text};

    /// The cause as it is told with the request.
    pub fn text(self) -> &'static str
        ensures { result.now ≡ cause_text self }
    {
        match self {
            FetchCause::DiscoveredProjects => "discovered projects changed",
            FetchCause::CargoConfig => "cargo config changed",
            FetchCause::CfgSetTest => "cfg_set_test config changed",
        }
    }
}
