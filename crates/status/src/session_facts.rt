//! What a status tells of the session.
ghost use Rattle.std.specs.Prelude.{◌≡◌, OnOk};
ghost use Rattle.status.specs.Drafts.{add_all, add_each};
ghost use Rattle.status.specs.Facts.{fact_if, all_of, session_facts};
ghost use Rattle.status.specs.Texts.{load_text};
ghost use Rattle.status.specs.declared.health.Health.TheVariants.{Error};

use crate::draft::{Draft, add, add_line, warn_if};
use crate::health::Health;
use crate::linked::load_text;
use crate::status::StatusInput;
use plain::NoMemory;
use ra_settings::LinkedProject;
use std::alloc::Global;

const RELOAD: &str =
    "Auto-reloading is disabled and the workspace has changed, a manual workspace reload is required.\n\n";

const REBUILD: &str = "Proc-macros and/or build scripts have changed and need to be rebuilt.\n\n";

const BUILD: &str =
    "Failed to run build scripts of some packages.\n\nPlease refer to the language server logs for more details on the errors.";

const DISCOVER: &str =
    "Failed to discover workspace.\nConsider adding the `Cargo.toml` of the workspace to the [`linkedProjects`](https://rust-analyzer.github.io/book/configuration.html#linkedProjects) setting.\n\n";

fn add_load_error(
    alloc: Global,
    draft: &mut Draft,
    holds: bool,
    linked: &[LinkedProject],
) -> Result<(), NoMemory>
    ensures { OnOk result (draft.new ≡ add_all (fact_if holds Error (load_text linked.now)) draft.old) }
{
    if holds {
        add(draft, Health::Error, load_text(alloc, linked)?.as_str())
    } else {
        Ok(())
    }
}

/// Adds the facts of the session, which links these projects.
pub(crate) fn add_session_facts(
    alloc: Global,
    draft: &mut Draft,
    input: &StatusInput,
    linked: &[LinkedProject],
) -> Result<(), NoMemory>
    ensures { OnOk result (draft.new ≡ add_each all_of (session_facts (record input.now { linked = linked.now })) draft.old) }
{
    warn_if(draft, input.reload_needed, RELOAD)?;
    warn_if(draft, input.build_deps_changed, REBUILD)?;
    warn_if(draft, input.build_error, BUILD)?;
    add_line(alloc, draft, &input.config_errors)?;
    add_line(alloc, draft, &input.check_error)?;
    warn_if(draft, input.no_projects, DISCOVER)?;
    add_load_error(alloc, draft, input.workspace_error, linked)?;
    Ok(())
}
