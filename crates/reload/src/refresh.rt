ghost use Rattle.std.specs.Prelude.{◌≡◌, true, bytes_eq, option_and_then};
ghost use Rattle.std.specs.Option.{option_copied};
ghost use Rattle.std.specs.List.{list_any};
ghost use Rattle.docs_vfs.specs.Paths.{is_path, parent_of};
ghost use Rattle.reload.specs.Refresh.{ends, folder_is, is_manifest_name, is_config_name, is_target_file, is_target_folder, is_extension_rs, is_target, is_cargo_config, refreshes};

use docs_vfs::{ChangeKind, VfsPath, parent_text};
use plain::Text;

fn ends(text: &str, end: &str) -> bool
    ensures { result ≡ ends text.now end.now }
{
    text.as_bytes().ends_with(end.as_bytes())
}

fn is_manifest_name(name: &str) -> bool
    ensures { result ≡ is_manifest_name name.now }
{
    name == "Cargo.toml" || name == "Cargo.lock"
}

fn is_config_name(name: &str) -> bool
    ensures { result ≡ is_config_name name.now }
{
    name == "config.toml" || name == "config"
}

fn is_listed(additional: &[Text], name: &str) -> bool
    ensures { result ≡ list_any (λ listed. bytes_eq listed name.now) additional.now }
{
    additional.iter().any(|listed| listed.as_str() == name)
}

fn is_target_file(path: &str) -> bool
    ensures { result ≡ is_target_file path.now }
{
    ends(path, "build.rs") || ends(path, "src/main.rs") || ends(path, "src/lib.rs")
}

fn is_target_folder(folder: &str) -> bool
    ensures { result ≡ is_target_folder folder.now }
{
    ends(folder, "src/bin")
        || ends(folder, "examples")
        || ends(folder, "tests")
        || ends(folder, "benches")
}

fn is_in_target_folder(path: &str) -> bool
    requires { is_path path.now ≡ true }
    ensures { result ≡ folder_is is_target_folder (parent_of path.now) }
{
    match parent_text(path) {
        None => false,
        Some(folder) => is_target_folder(folder),
    }
}

fn is_two_below_target_folder(path: &VfsPath) -> bool
    ensures { result ≡ folder_is is_target_folder (option_and_then parent_of (parent_of path.now)) }
{
    match path.parent_str() {
        None => false,
        Some(folder) => is_in_target_folder(folder),
    }
}

fn is_target(path: &VfsPath, name: &str) -> bool
    ensures { result ≡ is_target path.now name.now }
{
    let text = path.as_str();
    is_target_file(text)
        || is_in_target_folder(text)
        || (name == "main.rs" && is_two_below_target_folder(path))
}

fn is_cargo_config(path: &VfsPath, name: &str) -> bool
    ensures { result ≡ is_cargo_config path.now name.now }
{
    if !is_config_name(name) {
        return false;
    }
    match path.parent_str() {
        None => false,
        Some(folder) => ends(folder, ".cargo"),
    }
}

fn is_extension_rs(extension: Option<&str>) -> bool
    ensures { result ≡ is_extension_rs (option_copied extension.entry) }
{
    match extension {
        None => false,
        Some(extension) => extension == "rs",
    }
}

/// Whether a change of a file asks for the workspaces to be fetched anew.
pub fn should_refresh_for_change(path: &VfsPath, kind: ChangeKind, additional: &[Text]) -> bool
    ensures { result ≡ refreshes path.now kind additional.now }
{
    let Some(name) = path.file_name() else {
        return false;
    };
    if is_manifest_name(name) || is_listed(additional, name) {
        true
    } else if !kind.is_created_or_deleted() {
        false
    } else if !is_extension_rs(path.extension()) {
        is_cargo_config(path, name)
    } else {
        is_target(path, name)
    }
}
