// What settings files never change.
ghost use Rattle.std.specs.Prelude.{◌≡◌, ℕ, List, Option, None};
ghost use Rattle.docs_vfs.specs.declared.source_roots.Root.{Root};
ghost use Rattle.project_model.specs.declared.workspace.ProjectWorkspace.{ProjectWorkspace};
ghost use Rattle.ra_settings.specs.declared.row.Row.{Row};
ghost use Rattle.layered_settings.specs.Change.{after};
ghost use Rattle.layered_settings.specs.Search.{SettingsData, setting};
ghost use Rattle.change_effects.specs.declared.effects.SettingsFile.{SettingsFile};
ghost use Rattle.change_effects.specs.Filing.{filed_change};

/// Whatever settings files say, a value that is read at no root stays: it is the client's, the user's or the default.
pub fn values_at_no_root_stay()
    ensures { (path : List ℕ) (roots : List Root) (parents : Option (List (ℕ × ℕ))) (workspaces : List ProjectWorkspace) (files : List SettingsFile)
        (settings : SettingsData) (row : Row)
        → setting row None (after path (filed_change roots parents workspaces files) settings) ≡ setting row None settings }
{}
