// Laws of the workspaces of projects.
ghost use Rattle.std.specs.Prelude.{◌≡◌, ◌≢◌, ◌↔◌, List, [], ◌∷◌, ◌++◌, IsTrue, AllPairs, Contains, if◌then◌else◌};
ghost use Rattle.std.specs.List.{list_any};
ghost use Rattle.project_model.specs.Workspaces.{without_build};
ghost use Rattle.ra_settings.specs.declared.value.LinkedProject.{LinkedProject};
ghost use Rattle.small_project.specs.Workspaces.{workspace_of, workspaces_of, are_alike};

/// Projects are alike exactly where their workspaces are equal but for what their builds made.
pub fn alike_projects_give_equal_workspaces()
    ensures { (one other : LinkedProject)
        → IsTrue (are_alike one other) ↔ (without_build (workspace_of one) ≡ without_build (workspace_of other)) }
{}

/// No two workspaces that are listed are equal but for what their builds made, and each that a project gives is listed. A
/// project more is listed, behind all others, exactly where none that is listed is equal.
pub fn the_first_of_equal_workspaces_stays()
    ensures unequal { (projects : List LinkedProject) → AllPairs (λ one other. without_build one ≢ without_build other) (workspaces_of projects) }
    ensures listed { (projects : List LinkedProject) (project : LinkedProject) → Contains projects project
        → Contains (workspaces_of projects) (workspace_of project) }
    ensures first { (projects : List LinkedProject) (project : LinkedProject)
        → workspaces_of (projects ++ project ∷ [])
        ≡ workspaces_of projects ++ (if list_any (are_alike project) projects then [] else workspace_of project ∷ []) }
{}
