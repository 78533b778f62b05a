// What the definitions of a reload come to.
ghost use Rattle.std.specs.Prelude.{◌≡◌, ◌↔◌, ℕ, IsTrue, Bool, List, Option, Some, length, map, filter, take, is_some};
ghost use Rattle.std.specs.Cmp.{IsEquivalence};
ghost use Rattle.std.specs.List.{filter_map, range_with_len};
ghost use Rattle.docs_vfs.specs.declared.file_kinds.FileId.{FileId};
ghost use Rattle.project_model.specs.declared.crates.CrateEntry.{CrateEntry};
ghost use Rattle.project_model.specs.declared.workspace.ProjectWorkspace.{ProjectWorkspace};
ghost use Rattle.project_model.specs.Workspaces.{without_build};
ghost use Rattle.reload.specs.Graph.{Standing, crate_roots, most_crates, places_from, number_of, crate_of, all_crates};
ghost use Rattle.reload.specs.GraphLaws.{numbers_in, graph_files, files_found, roots_in};
ghost use Rattle.reload.specs.Names.{is_alike};
ghost use Rattle.reload.specs.Switch.{Fetched, BuildRuns, are_same, with_builds, runs_on, switch_of};
ghost use Rattle.reload.specs.declared.switch.Switch.TheVariants.{Join};

/// That `-` and `_` are alike is an equivalence of texts.
pub fn alike_names_are_equivalent()
    ensures { IsEquivalence is_alike }
{}

/// A switch takes two lists of workspaces for the same exactly where they are equal but for what the builds made.
pub fn same_workspaces_are_equal_but_for_builds()
    ensures { (one two : List ProjectWorkspace) → IsTrue (are_same one two) ↔ (map without_build one ≡ map without_build two) }
{}

/// Where a switch joins build data, it was run on the version of the workspaces that are present.
pub fn build_data_is_joined_to_its_version()
    ensures { (fetched : Option Fetched) (forced discover : Bool) (present made : List ProjectWorkspace)
        (version build_version : ℕ) (build : Option BuildRuns) (build_scripts : Bool)
        → switch_of fetched forced discover present (runs_on version build_version build) build_scripts ≡ Join made
        → (build_version ≡ version) × ((runs : BuildRuns) × (build ≡ Some runs) × (made ≡ with_builds runs present)) }
{}

/// The crates that are kept are the first of those whose roots have files, as many as there are numbers. Their numbers
/// are 0, 1, 2 and so on, over all workspaces, and each stands in the graph at the place of its number.
pub fn kept_crates_are_numbered_in_order()
    ensures numbers { (files : List (Option FileId)) → numbers_in (places_from 0 files)
        ≡ range_with_len 0 (length (numbers_in (places_from 0 files))) }
    ensures kept { (files : List (Option FileId)) → graph_files (places_from 0 files) ≡ take most_crates (files_found files) }
    ensures places { (workspaces : List ProjectWorkspace) (files : List (Option FileId)) → length files ≡ length (crate_roots workspaces)
        → roots_in (all_crates workspaces (places_from 0 files)) ≡ graph_files (places_from 0 files) }
{}

/// Of the dependencies of a crate exactly those are renumbered that are kept, in order, and the others are left out. A
/// crate has a number exactly where it is kept.
pub fn kept_dependencies_are_renumbered()
    ensures dependencies { (places : List (Option Standing)) (deps : List ℕ)
        → map Some (filter_map (number_of places) deps) ≡ filter is_some (map (number_of places) deps) }
    ensures numbers { (places : List (Option Standing)) (index : ℕ) (entry : CrateEntry)
        → is_some (number_of places index) ≡ is_some (crate_of places (index, entry)) }
{}
