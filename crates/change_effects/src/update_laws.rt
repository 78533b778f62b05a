// What an update of settings comes to.
ghost use Rattle.ra_config.specs.Config.{ConfigData};
ghost use Rattle.change_effects.specs.Update.{Asks, update_of};

/// A change asks for a fetch exactly where the projects, the configuration of cargo or `cfg.setTest` aren't equal, and for other checks exactly where the
/// projects are equal and the checks aren't.
pub fn changes_ask_for_what_they_change()
    ensures { (old new : ConfigData) → Asks old new (update_of old new) }
{}
