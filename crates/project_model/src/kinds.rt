ghost use Rattle.std.proofs.Common.{rules};

use plain::ExactClone;

/// Where a workspace comes from.
#[derive(Clone, Copy, Debug, PartialEq, Eq, PartialOrd, Ord, Hash)]
pub enum WorkspaceKind {
    /// A manifest of cargo.
    Cargo,
    /// A project that is described as JSON.
    Json,
    /// One file that belongs to no project.
    DetachedFile,
}

/// What is built of a target.
#[derive(Clone, Copy, Debug, PartialEq, Eq, PartialOrd, Ord, Hash)]
pub enum TargetKind {
    Bin,
    Lib,
    Example,
    Test,
    Bench,
    BuildScript,
    Other,
}

impl ExactClone for WorkspaceKind {
    ghost copies = { λ x y h. Prim.search rules };
}

impl ExactClone for TargetKind {
    ghost copies = { λ x y h. Prim.search rules };
}
