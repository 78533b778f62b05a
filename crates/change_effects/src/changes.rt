//! What one change is.
ghost use Rattle.std.specs.Prelude.{◌≡◌};
ghost use Rattle.change_effects.specs.Changes.{came_or_went, is_awaited, is_settings_file, is_rust, is_source, asks_fetch};

use docs_vfs::{ByPath, ChangedFile, VfsPath};
use plain::Text;
use reload::should_refresh_for_change;

/// Whether the file was created or deleted.
pub(crate) fn came_or_went(change: &ChangedFile) -> bool
    ensures { result ≡ came_or_went change.now }
{
    change.kind.is_created_or_deleted()
}

/// Whether the file was created or deleted, and is one that crate data asked for.
pub(crate) fn is_awaited(asked: &ByPath<()>, change: &ChangedFile) -> bool
    ensures { result ≡ is_awaited asked.now change.now }
{
    came_or_went(change) && asked.contains(&change.path)
}

/// Whether a path is that of a settings file.
pub(crate) fn is_settings_file(path: &VfsPath) -> bool
    ensures { result ≡ is_settings_file path.now }
{
    match path.file_name() {
        None => false,
        Some(name) => name == "rust-analyzer.toml",
    }
}

fn is_rust(path: &VfsPath) -> bool
    ensures { result ≡ is_rust path.now }
{
    match path.extension() {
        None => false,
        Some(extension) => extension == "rs",
    }
}

/// Whether this is a modification of a file of Rust.
pub(crate) fn is_source(change: &ChangedFile) -> bool
    ensures { result ≡ is_source change.now }
{
    !came_or_went(change) && is_rust(&change.path)
}

/// Whether a change asks for the workspaces to be fetched.
pub(crate) fn asks_fetch(additional: &[Text], change: &ChangedFile) -> bool
    ensures { result ≡ asks_fetch additional.now change.now }
{
    came_or_went(change) || should_refresh_for_change(&change.path, change.kind, additional)
}
