// The codecs of workspaces, with what builds and macros made.
ghost use Rattle.std.specs.Prelude.{◌≡◌};
ghost use Rattle.event_codec.specs.Workspaces.{root_codec, target_kind_codec, target_codec, package_codec, crate_entry_codec, macro_path_codec, build_scripts_codec, workspace_kind_codec, workspace_end, end_of_workspace, project_workspace_codec, macro_state_codec};
ghost use Rattle.record_codec.specs.Meets.{Encodes, Decodes};

use crate::recorded::Recorded;
use docs_vfs::{Root, VfsPath};
use plain::{Items, Text};
use project_model::{
    BuildScripts, CrateEntry, MacroPath, MacroState, Package, ProjectWorkspace, Target, TargetKind,
    WorkspaceKind,
};
use record_codec::{Cursor, DecodeFault, EncodeFault};
use std::alloc::Global;

impl Recorded for Root {
    ghost code = { root_codec };

    #[tactic(auto, unfolding(crate::specs::Workspaces::root_codec))]
    fn encode(&self, out: &mut Vec<u8>) -> Result<(), EncodeFault> {
        self.include.encode(out)?;
        self.exclude.encode(out)?;
        self.is_local.encode(out)?;
        Ok(())
    }

    #[tactic(auto, unfolding(crate::specs::Workspaces::root_codec))]
    fn decode(alloc: Global, cursor: &mut Cursor<'_>) -> Result<Root, DecodeFault> {
        Ok(Root {
            include: Recorded::decode(alloc, cursor)?,
            exclude: Recorded::decode(alloc, cursor)?,
            is_local: Recorded::decode(alloc, cursor)?,
        })
    }
}

impl Recorded for TargetKind {
    ghost code = { target_kind_codec };

    #[tactic(auto, unfolding(crate::specs::Workspaces::target_kind_codec))]
    fn encode(&self, out: &mut Vec<u8>) -> Result<(), EncodeFault> {
        match self {
            TargetKind::Bin => {
                out.push(0)?;
                Ok(())
            }
            TargetKind::Lib => {
                out.push(1)?;
                Ok(())
            }
            TargetKind::Example => {
                out.push(2)?;
                Ok(())
            }
            TargetKind::Test => {
                out.push(3)?;
                Ok(())
            }
            TargetKind::Bench => {
                out.push(4)?;
                Ok(())
            }
            TargetKind::BuildScript => {
                out.push(5)?;
                Ok(())
            }
            TargetKind::Other => {
                out.push(6)?;
                Ok(())
            }
        }
    }

    #[tactic(auto, unfolding(crate::specs::Workspaces::target_kind_codec))]
    fn decode(_alloc: Global, cursor: &mut Cursor<'_>) -> Result<TargetKind, DecodeFault> {
        match cursor.byte()? {
            0 => Ok(TargetKind::Bin),
            1 => Ok(TargetKind::Lib),
            2 => Ok(TargetKind::Example),
            3 => Ok(TargetKind::Test),
            4 => Ok(TargetKind::Bench),
            5 => Ok(TargetKind::BuildScript),
            6 => Ok(TargetKind::Other),
            _ => Err(DecodeFault::Malformed),
        }
    }
}

impl Recorded for Target {
    ghost code = { target_codec };

    #[tactic(auto, unfolding(crate::specs::Workspaces::target_codec))]
    fn encode(&self, out: &mut Vec<u8>) -> Result<(), EncodeFault> {
        self.name.encode(out)?;
        self.kind.encode(out)?;
        self.root.encode(out)?;
        self.required_features.encode(out)?;
        Ok(())
    }

    #[tactic(auto, unfolding(crate::specs::Workspaces::target_codec))]
    fn decode(alloc: Global, cursor: &mut Cursor<'_>) -> Result<Target, DecodeFault> {
        Ok(Target {
            name: Recorded::decode(alloc, cursor)?,
            kind: Recorded::decode(alloc, cursor)?,
            root: Recorded::decode(alloc, cursor)?,
            required_features: Recorded::decode(alloc, cursor)?,
        })
    }
}

impl Recorded for Package {
    ghost code = { package_codec };

    #[tactic(auto, unfolding(crate::specs::Workspaces::package_codec))]
    fn encode(&self, out: &mut Vec<u8>) -> Result<(), EncodeFault> {
        self.id.encode(out)?;
        self.manifest.encode(out)?;
        self.targets.encode(out)?;
        self.features.encode(out)?;
        self.member_deps.encode(out)?;
        Ok(())
    }

    #[tactic(auto, unfolding(crate::specs::Workspaces::package_codec))]
    fn decode(alloc: Global, cursor: &mut Cursor<'_>) -> Result<Package, DecodeFault> {
        Ok(Package {
            id: Recorded::decode(alloc, cursor)?,
            manifest: Recorded::decode(alloc, cursor)?,
            targets: Recorded::decode(alloc, cursor)?,
            features: Recorded::decode(alloc, cursor)?,
            member_deps: Recorded::decode(alloc, cursor)?,
        })
    }
}

impl Recorded for CrateEntry {
    ghost code = { crate_entry_codec };

    #[tactic(auto, unfolding(crate::specs::Workspaces::crate_entry_codec))]
    fn encode(&self, out: &mut Vec<u8>) -> Result<(), EncodeFault> {
        self.root.encode(out)?;
        self.name.encode(out)?;
        self.deps.encode(out)?;
        self.is_proc_macro.encode(out)?;
        Ok(())
    }

    #[tactic(auto, unfolding(crate::specs::Workspaces::crate_entry_codec))]
    fn decode(alloc: Global, cursor: &mut Cursor<'_>) -> Result<CrateEntry, DecodeFault> {
        Ok(CrateEntry {
            root: Recorded::decode(alloc, cursor)?,
            name: Recorded::decode(alloc, cursor)?,
            deps: Recorded::decode(alloc, cursor)?,
            is_proc_macro: Recorded::decode(alloc, cursor)?,
        })
    }
}

impl Recorded for MacroPath {
    ghost code = { macro_path_codec };

    #[tactic(auto, unfolding(crate::specs::Workspaces::macro_path_codec))]
    fn encode(&self, out: &mut Vec<u8>) -> Result<(), EncodeFault> {
        match self {
            MacroPath::Built { name, library } => {
                out.push(0)?;
                name.encode(out)?;
                library.encode(out)?;
                Ok(())
            }
            MacroPath::Failed(value) => {
                out.push(1)?;
                value.encode(out)?;
                Ok(())
            }
        }
    }

    #[tactic(auto, unfolding(crate::specs::Workspaces::macro_path_codec))]
    fn decode(alloc: Global, cursor: &mut Cursor<'_>) -> Result<MacroPath, DecodeFault> {
        match cursor.byte()? {
            0 => Ok(MacroPath::Built {
                name: Recorded::decode(alloc, cursor)?,
                library: Recorded::decode(alloc, cursor)?,
            }),
            1 => Ok(MacroPath::Failed(Recorded::decode(alloc, cursor)?)),
            _ => Err(DecodeFault::Malformed),
        }
    }
}

impl Recorded for BuildScripts {
    ghost code = { build_scripts_codec };

    #[tactic(auto, unfolding(crate::specs::Workspaces::build_scripts_codec))]
    fn encode(&self, out: &mut Vec<u8>) -> Result<(), EncodeFault> {
        self.error.encode(out)?;
        self.macro_paths.encode(out)?;
        Ok(())
    }

    #[tactic(auto, unfolding(crate::specs::Workspaces::build_scripts_codec))]
    fn decode(alloc: Global, cursor: &mut Cursor<'_>) -> Result<BuildScripts, DecodeFault> {
        Ok(BuildScripts {
            error: Recorded::decode(alloc, cursor)?,
            macro_paths: Recorded::decode(alloc, cursor)?,
        })
    }
}

impl Recorded for WorkspaceKind {
    ghost code = { workspace_kind_codec };

    #[tactic(auto, unfolding(crate::specs::Workspaces::workspace_kind_codec))]
    fn encode(&self, out: &mut Vec<u8>) -> Result<(), EncodeFault> {
        match self {
            WorkspaceKind::Cargo => {
                out.push(0)?;
                Ok(())
            }
            WorkspaceKind::Json => {
                out.push(1)?;
                Ok(())
            }
            WorkspaceKind::DetachedFile => {
                out.push(2)?;
                Ok(())
            }
        }
    }

    #[tactic(auto, unfolding(crate::specs::Workspaces::workspace_kind_codec))]
    fn decode(_alloc: Global, cursor: &mut Cursor<'_>) -> Result<WorkspaceKind, DecodeFault> {
        match cursor.byte()? {
            0 => Ok(WorkspaceKind::Cargo),
            1 => Ok(WorkspaceKind::Json),
            2 => Ok(WorkspaceKind::DetachedFile),
            _ => Err(DecodeFault::Malformed),
        }
    }
}

/// The fields of a workspace from its build files on.
type WorkspaceEnd = (
    Items<Text>,
    (
        Option<Text>,
        (
            Option<Text>,
            (
                Option<VfsPath>,
                (
                    Option<Text>,
                    (Option<Text>, (Option<Text>, Option<BuildScripts>)),
                ),
            ),
        ),
    ),
);

// A part of its own, since a proof over all fields at once is too large.
#[tactic(auto, unfolding(crate::specs::Workspaces::workspace_end))]
fn encode_end(workspace: &ProjectWorkspace, out: &mut Vec<u8>) -> Result<(), EncodeFault>
    ensures { Encodes workspace_end (end_of_workspace workspace.now) out.old.items out.new.items result }
{
    workspace.build_files.encode(out)?;
    workspace.toolchain.encode(out)?;
    workspace.error.encode(out)?;
    workspace.sysroot_root.encode(out)?;
    workspace.sysroot_error.encode(out)?;
    workspace.sysroot_metadata_error.encode(out)?;
    workspace.rustc_error.encode(out)?;
    workspace.build.encode(out)?;
    Ok(())
}

#[tactic(auto, unfolding(crate::specs::Workspaces::workspace_end))]
fn decode_end(alloc: Global, cursor: &mut Cursor<'_>) -> Result<WorkspaceEnd, DecodeFault>
    ensures { Decodes (workspace_end.read cursor.old) cursor.new result }
{
    Recorded::decode(alloc, cursor)
}

impl Recorded for ProjectWorkspace {
    ghost code = { project_workspace_codec };

    #[tactic(auto, unfolding(crate::specs::Workspaces::project_workspace_codec))]
    fn encode(&self, out: &mut Vec<u8>) -> Result<(), EncodeFault> {
        self.kind.encode(out)?;
        self.manifest.encode(out)?;
        self.root.encode(out)?;
        self.roots.encode(out)?;
        self.packages.encode(out)?;
        self.crates.encode(out)?;
        encode_end(self, out)?;
        Ok(())
    }

    #[tactic(auto, unfolding(crate::specs::Workspaces::project_workspace_codec))]
    fn decode(alloc: Global, cursor: &mut Cursor<'_>) -> Result<ProjectWorkspace, DecodeFault> {
        let kind = Recorded::decode(alloc, cursor)?;
        let manifest = Recorded::decode(alloc, cursor)?;
        let root = Recorded::decode(alloc, cursor)?;
        let roots = Recorded::decode(alloc, cursor)?;
        let packages = Recorded::decode(alloc, cursor)?;
        let crates = Recorded::decode(alloc, cursor)?;
        let (build_files, (toolchain, (error, (sysroot_root, (sysroot_error, rest))))) = decode_end(
            alloc, cursor,
        )?;
        let (sysroot_metadata_error, (rustc_error, build)) = rest;
        Ok(ProjectWorkspace {
            kind,
            manifest,
            root,
            roots,
            packages,
            crates,
            build_files,
            toolchain,
            error,
            sysroot_root,
            sysroot_error,
            sysroot_metadata_error,
            rustc_error,
            build,
        })
    }
}

impl Recorded for MacroState {
    ghost code = { macro_state_codec };

    #[tactic(auto, unfolding(crate::specs::Workspaces::macro_state_codec))]
    fn encode(&self, out: &mut Vec<u8>) -> Result<(), EncodeFault> {
        match self {
            MacroState::NotYetBuilt => {
                out.push(0)?;
                Ok(())
            }
            MacroState::Disabled => {
                out.push(1)?;
                Ok(())
            }
            MacroState::Loaded(value) => {
                out.push(2)?;
                value.encode(out)?;
                Ok(())
            }
            MacroState::Failed(value) => {
                out.push(3)?;
                value.encode(out)?;
                Ok(())
            }
        }
    }

    #[tactic(auto, unfolding(crate::specs::Workspaces::macro_state_codec))]
    fn decode(alloc: Global, cursor: &mut Cursor<'_>) -> Result<MacroState, DecodeFault> {
        match cursor.byte()? {
            0 => Ok(MacroState::NotYetBuilt),
            1 => Ok(MacroState::Disabled),
            2 => Ok(MacroState::Loaded(Recorded::decode(alloc, cursor)?)),
            3 => Ok(MacroState::Failed(Recorded::decode(alloc, cursor)?)),
            _ => Err(DecodeFault::Malformed),
        }
    }
}
