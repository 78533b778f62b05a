// What follows from changes, in words of its own.
ghost use Rattle.std.specs.Prelude.{◌≡◌, ℕ, true, false, not, List, [], is_some};
ghost use Rattle.std.specs.List.{All, Any};
ghost use Rattle.docs_vfs.specs.Files.{Files, changes};
ghost use Rattle.docs_vfs.specs.declared.file_kinds.ChangedFile.{ChangedFile};
ghost use Rattle.workspaces.specs.Fetches.{is_forced};
ghost use Rattle.workspaces.specs.Workspaces.{Paths};
ghost use Rattle.change_effects.specs.Effects.{effects_of};
ghost use Rattle.change_effects.specs.EffectLaws.{IsCause, IsModified, HasContentsOf, no_effects};

/// Where nothing changed, nothing has to be done.
pub fn nothing_follows_where_nothing_changed()
    ensures { (asked : Paths) (additional : List (List ℕ)) → effects_of asked additional [] ≡ no_effects }
{}

/// A fetch is asked for and forced exactly where a file was created or deleted that crate data asked for.
pub fn forced_fetches_have_a_cause()
    ensures cause { (asked : Paths) (additional : List (List ℕ)) (list : List ChangedFile)
        → is_forced (effects_of asked additional list).fetch ≡ true → Any (IsCause asked) list }
    ensures forced { (asked : Paths) (additional : List (List ℕ)) (list : List ChangedFile)
        → Any (IsCause asked) list → is_forced (effects_of asked additional list).fetch ≡ true }
{}

/// Sources of macros are to be checked exactly where no fetch is forced.
pub fn forced_fetches_check_no_sources()
    ensures { (asked : Paths) (additional : List (List ℕ)) (list : List ChangedFile)
        → is_some (effects_of asked additional list).macro_sources ≡ not (is_forced (effects_of asked additional list).fetch) }
{}

/// Where files were only modified, the roots are not renewed and no fetch is forced.
pub fn modified_files_renew_no_roots()
    ensures roots { (asked : Paths) (additional : List (List ℕ)) (list : List ChangedFile)
        → All IsModified list → (effects_of asked additional list).renews_roots ≡ false }
    ensures fetch { (asked : Paths) (additional : List (List ℕ)) (list : List ChangedFile)
        → All IsModified list → is_forced (effects_of asked additional list).fetch ≡ false }
{}

/// Where the roots are renewed, the workspaces are fetched too.
pub fn renewed_roots_ask_for_a_fetch()
    ensures { (asked : Paths) (additional : List (List ℕ)) (list : List ChangedFile)
        → (effects_of asked additional list).renews_roots ≡ true → is_some (effects_of asked additional list).fetch ≡ true }
{}

/// Of the changes of a table, each settings file is told with the contents that the table has at its path.
pub fn settings_are_those_of_the_table()
    ensures { (files : Files) (asked : Paths) (additional : List (List ℕ))
        → All (HasContentsOf files) (effects_of asked additional (changes files)).settings }
{}
