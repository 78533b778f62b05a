// A change of settings.
ghost use Rattle.std.specs.Prelude.{◌≡◌, ◌++◌, ◌↔◌, [], ◌∷◌, IfOk, OnOk, IsTrue, false};
ghost use Rattle.std.specs.FinMap as map;
ghost use Rattle.ra_settings.specs.Layers.{nothing_set};
ghost use Rattle.ra_settings.specs.declared.layer.Source.{Source};
ghost use Rattle.layered_settings.specs.Order.{by_path};
ghost use Rattle.layered_settings.specs.Change.{after, over, passed_over, errors_after, put_first, parents_of, parents_after, has_parents, HasChanged, text_layer, text_errors, not_toml, files_after, files_errors, tree_in, client_after, client_errors, user_after, user_errors, held, put_files, tell_files};

use crate::settings::{Files, Parents, Settings, SettingsParts};
use docs_vfs::VfsPath;
use plain::{ByNumber, Items, Json, JsonObject, Text};
use ra_settings::{ConfigError, Layer, ReadLayer, Reason, Source, toml_tree};
use std::alloc::{AllocError, Global};

/// A changed settings file of a root; without a text it was deleted.
pub struct SettingsFile {
    pub root: u32,
    pub path: VfsPath,
    pub text: Option<Text>,
}

impl Drop for SettingsFile {
    fn drop(self) {
        let SettingsFile {
            root: _,
            path: _,
            text: _,
        } = self;
    }
}

/// A change of settings. What it leaves out stays.
#[derive(Drop)]
pub struct ConfigChange {
    /// The client's settings: of no kind but an object do any values come.
    pub client: Option<Json>,
    /// The user's settings, as TOML.
    pub user: Option<Text>,
    pub workspace_toml: Items<SettingsFile>,
    pub crate_toml: Items<SettingsFile>,
    /// Roots with their parents. The first pair of a root holds.
    pub parents: Option<Items<(u32, u32)>>,
}

/// The files, stably sorted by path.
fn sort(files: Items<SettingsFile>) -> Result<Items<SettingsFile>, AllocError>
    ensures { IfOk result (λ sorted. sorted ≡ by_path files) }
{
    let mut files = files.into_vec();
    files.sort_by(|a, b| a.path.cmp(&b.path))?;
    Ok(Items::from_vec(files))
}

/// One list after another.
fn append<T: Drop>(list: Items<T>, more: Items<T>) -> Result<Items<T>, AllocError>
    ensures { IfOk result (λ all. all ≡ list ++ more) }
{
    let mut all = list.into_vec();
    all.append(&mut more.into_vec())?;
    Ok(Items::from_vec(all))
}

/// The layer of a TOML text, or of none.
#[tactic(auto, unfolding(crate::specs::Change::text_layer, crate::specs::Change::text_errors))]
fn read_text_layer(
    alloc: Global,
    source: Source,
    place: &Text,
    root: &VfsPath,
    text: &Option<Text>,
) -> Result<ReadLayer, AllocError>
    ensures layer { IfOk result (λ read. read.layer ≡ text_layer source root.now text.now) }
    ensures errors { IfOk result
        (λ read. read.errors ≡ text_errors place.now source root.now text.now) }
{
    match tree_in(alloc, text)? {
        Some(tree) => Layer::read(alloc, source, place, root, tree.as_value()),
        None => no_toml(alloc, place),
    }
}

/// Nothing, and the error of a text that is no TOML.
fn no_toml(alloc: Global, place: &Text) -> Result<ReadLayer, AllocError>
    ensures layer { IfOk result (λ read. read.layer ≡ nothing_set) }
    ensures errors { IfOk result (λ read. read.errors ≡ not_toml place.now ∷ []) }
{
    let mut errors = Items::new(alloc);
    errors.push(ConfigError {
        place: place.clone()?,
        key: Text::new(alloc),
        reason: Text::from_str(alloc, Reason::NotToml.as_str())?,
    })?;
    Ok(ReadLayer {
        layer: Layer::empty(alloc)?,
        errors,
    })
}

fn tree_in(alloc: Global, text: &Option<Text>) -> Result<Option<Json>, AllocError>
    ensures { IfOk result (λ tree. tree ≡ tree_in text.now) }
{
    match text {
        Some(text) => toml_tree(alloc, text.as_str()),
        None => Ok(Some(JsonObject::new(alloc).into_json())),
    }
}

/// What changed files come to.
#[derive(Drop)]
struct ReadFiles {
    files: Files,
    errors: Items<ConfigError>,
    passed_over: Items<VfsPath>,
}

/// The layers after changed files: of those of one root the smallest path holds.
fn read_files(
    alloc: Global,
    source: Source,
    root_path: &VfsPath,
    before: &Files,
    changes: Items<SettingsFile>,
) -> Result<ReadFiles, AllocError>
    ensures files { IfOk result
        (λ read. read.files ≡ files_after source root_path.now changes before.now) }
    ensures errors { IfOk result
        (λ read. read.errors ≡ files_errors source root_path.now changes) }
    ensures passed { IfOk result (λ read. read.passed_over ≡ over map.empty (by_path changes)) }
{
    let changes = sort(changes)?;
    read_sorted(alloc, source, root_path, before, changes.as_slice())
}

/// The same of files in order: of those of one root the first holds.
fn read_sorted(
    alloc: Global,
    source: Source,
    root_path: &VfsPath,
    before: &Files,
    changes: &[SettingsFile],
) -> Result<ReadFiles, AllocError>
    ensures files { IfOk result
        (λ read. read.files ≡ put_files source root_path.now (held map.empty changes.now) before.now) }
    ensures errors { IfOk result
        (λ read. read.errors ≡ tell_files source root_path.now (held map.empty changes.now)) }
    ensures passed { IfOk result (λ read. read.passed_over ≡ over map.empty changes.now) }
{
    let mut errors = Items::new(alloc);
    let mut passed_over = Items::new(alloc);
    let mut files = before.clone()?;
    let mut done = ByNumber::new(alloc);
    for change in changes {
        let root = u64::from(change.root);
        if done.contains(root) {
            passed_over.push(change.path.clone()?)?;
            continue;
        }
        let place = Text::from_str(alloc, change.path.as_str())?;
        let read = read_text_layer(alloc, source, &place, root_path, &change.text)?;
        errors = append(errors, read.errors)?;
        files = files.put(change.root, read.layer)?;
        done.insert(root, ())?;
    }
    Ok(ReadFiles {
        files,
        errors,
        passed_over,
    })
}

/// A layer that stays.
fn kept(alloc: Global, before: &Layer) -> Result<ReadLayer, AllocError>
    ensures layer { IfOk result (λ read. read.layer ≡ before.now) }
    ensures errors { IfOk result (λ read. read.errors ≡ []) }
{
    Ok(ReadLayer {
        layer: before.clone()?,
        errors: Items::new(alloc),
    })
}

/// The client's layer after a change.
fn client_after(
    alloc: Global,
    root: &VfsPath,
    change: &Option<Json>,
    before: &Layer,
) -> Result<ReadLayer, AllocError>
    ensures layer { IfOk result (λ read. read.layer ≡ client_after root.now change.now before.now) }
    ensures errors { IfOk result (λ read. read.errors ≡ client_errors root.now change.now) }
{
    match change {
        Some(tree) => {
            let place = Text::from_str(alloc, "client")?;
            Layer::read(alloc, Source::Client, &place, root, tree.as_value())
        }
        None => kept(alloc, before),
    }
}

/// The user's layer after a change.
fn user_after(
    alloc: Global,
    root: &VfsPath,
    change: &Option<Text>,
    before: &Layer,
) -> Result<ReadLayer, AllocError>
    ensures layer { IfOk result (λ read. read.layer ≡ user_after root.now change.now before.now) }
    ensures errors { IfOk result (λ read. read.errors ≡ user_errors root.now change.now) }
{
    match change {
        Some(_) => {
            let place = Text::from_str(alloc, "user")?;
            read_text_layer(alloc, Source::User, &place, root, change)
        }
        None => kept(alloc, before),
    }
}

/// Which of the client's and the user's settings a change names.
#[derive(Drop)]
struct Named {
    client: bool,
    user: bool,
}

/// Whether a layer stays. One that the change doesn't name does, and it is not compared.
fn stays(is_named: bool, new: &Layer, old: &Layer) -> bool
    requires { is_named ≡ false → new.now ≡ old.now }
    ensures { IsTrue result ↔ (new.now ≡ old.now) }
{
    !is_named || new.is_same(old)
}

/// Whether the client's or the user's values differ. Only those that the change names are compared.
fn is_changed(named: Named, new: &Settings, old: &Settings) -> bool
    requires client { named.client ≡ false → new.now.client ≡ old.now.client }
    requires user { named.user ≡ false → new.now.user ≡ old.now.user }
    ensures { IsTrue result ↔ HasChanged new.now old.now }
{
    !(stays(named.client, new.client(), old.client()) && stays(named.user, new.user(), old.user()))
}

fn put_first(parents: &mut ByNumber<u32>, pair: (u32, u32)) -> Result<(), AllocError>
    ensures { OnOk result (parents.new ≡ put_first parents.old pair) }
{
    if parents.contains(u64::from(pair.0)) {
        return Ok(());
    }
    parents.insert(u64::from(pair.0), pair.1)?;
    Ok(())
}

/// The parents by root.
fn parents_of(alloc: Global, pairs: &[(u32, u32)]) -> Result<ByNumber<u32>, AllocError>
    ensures { IfOk result (λ parents. parents ≡ parents_of pairs.now) }
{
    let mut parents = ByNumber::new(alloc);
    for pair in pairs {
        put_first(&mut parents, *pair)?;
    }
    Ok(parents)
}

fn parents_after(
    alloc: Global,
    change: &Option<Items<(u32, u32)>>,
    before: &Parents,
) -> Result<Parents, AllocError>
    ensures { IfOk result (λ parents. parents ≡ parents_after change.now before.now) }
{
    match change {
        Some(pairs) => Parents::new(alloc, parents_of(alloc, pairs.as_slice())?),
        None => before.clone(),
    }
}

/// What a change brings, read.
#[derive(Drop)]
struct ReadChange {
    client: ReadLayer,
    user: ReadLayer,
    workspaces: ReadFiles,
    crates: ReadFiles,
    parents: Parents,
}

/// The errors that a change brings, by where they come from.
#[derive(Drop)]
struct ReadErrors {
    client: Items<ConfigError>,
    user: Items<ConfigError>,
    workspaces: Items<ConfigError>,
    crates: Items<ConfigError>,
}

impl ReadErrors {
    /// The client's, then the user's, the workspace files' and the crate files'.
    fn in_order(self) -> Result<Items<ConfigError>, AllocError>
        ensures { IfOk result
            (λ all. all ≡ self.client ++ self.user ++ self.workspaces ++ self.crates) }
    {
        let ReadErrors {
            client,
            user,
            workspaces,
            crates,
        } = self;
        let files = append(workspaces, crates)?;
        let from_user = append(user, files)?;
        append(client, from_user)
    }
}

/// A change that is read, in its parts.
#[derive(Drop)]
struct Parted {
    parts: SettingsParts,
    errors: ReadErrors,
    workspaces_over: Items<VfsPath>,
    crates_over: Items<VfsPath>,
}

impl ReadChange {
    /// What is set, and what is to be told.
    fn part(self) -> Parted
        ensures client { result.parts.client ≡ self.client.layer }
        ensures user { result.parts.user ≡ self.user.layer }
        ensures workspaces { result.parts.workspaces ≡ self.workspaces.files }
        ensures crates { result.parts.crates ≡ self.crates.files }
        ensures parents { result.parts.parents ≡ self.parents }
        ensures errors { result.errors ≡ record {
          client = self.client.errors;
          user = self.user.errors;
          workspaces = self.workspaces.errors;
          crates = self.crates.errors;
        } }
        ensures workspaces_over { result.workspaces_over ≡ self.workspaces.passed_over }
        ensures crates_over { result.crates_over ≡ self.crates.passed_over }
    {
        let ReadChange {
            client,
            user,
            workspaces,
            crates,
            parents,
        } = self;
        let ReadLayer {
            layer: client,
            errors: client_errors,
        } = client;
        let ReadLayer {
            layer: user,
            errors: user_errors,
        } = user;
        let ReadFiles {
            files: workspaces,
            errors: workspace_errors,
            passed_over: workspaces_over,
        } = workspaces;
        let ReadFiles {
            files: crates,
            errors: crate_errors,
            passed_over: crates_over,
        } = crates;
        Parted {
            parts: SettingsParts {
                client,
                user,
                workspaces,
                crates,
                parents,
            },
            errors: ReadErrors {
                client: client_errors,
                user: user_errors,
                workspaces: workspace_errors,
                crates: crate_errors,
            },
            workspaces_over,
            crates_over,
        }
    }
}

/// Settings after a change, and what is to be told of it.
#[derive(Drop)]
pub struct ChangedSettings {
    pub settings: Settings,
    /// The errors of the values that the change brings.
    pub errors: Items<ConfigError>,
    /// Whether the client's or the user's values changed.
    pub changed: bool,
    /// The changed files that don't hold, since one of their root and kind has a smaller path.
    pub passed_over: Items<VfsPath>,
}

impl Settings {
    /// Whether the parents are just those of these pairs, of which the first of a root holds.
    #[tactic(auto, using(crate::proofs::ParentPairs::has_parents_if_equal), unfolding(crate::specs::Change::has_parents))]
    pub fn has_parents(&self, alloc: Global, pairs: &[(u32, u32)]) -> Result<bool, AllocError>
        ensures has { IfOk result (λ has. has ≡ has_parents self.now.parents pairs.now) }
        ensures truth { IfOk result (λ has. IsTrue has ↔ (self.now.parents ≡ parents_of pairs.now)) }
    {
        let parents = parents_of(alloc, pairs)?;
        Ok(self.parents().is_same(&parents))
    }

    /// Reads what a change brings.
    fn read_change(
        &self,
        alloc: Global,
        root: &VfsPath,
        change: ConfigChange,
    ) -> Result<ReadChange, AllocError>
        ensures client { IfOk result
            (λ r. r.client.layer ≡ client_after root.now change.client self.now.client) }
        ensures client_errors { IfOk result
            (λ r. r.client.errors ≡ client_errors root.now change.client) }
        ensures user { IfOk result
            (λ r. r.user.layer ≡ user_after root.now change.user self.now.user) }
        ensures user_errors { IfOk result
            (λ r. r.user.errors ≡ user_errors root.now change.user) }
        ensures workspaces { IfOk result (λ r. r.workspaces.files
            ≡ files_after Source.WorkspaceFile root.now change.workspace_toml self.now.workspaces) }
        ensures workspace_errors { IfOk result (λ r. r.workspaces.errors
            ≡ files_errors Source.WorkspaceFile root.now change.workspace_toml) }
        ensures workspaces_over { IfOk result (λ r. r.workspaces.passed_over
            ≡ over map.empty (by_path change.workspace_toml)) }
        ensures crates { IfOk result (λ r. r.crates.files
            ≡ files_after Source.CrateFile root.now change.crate_toml self.now.crates) }
        ensures crate_errors { IfOk result (λ r. r.crates.errors
            ≡ files_errors Source.CrateFile root.now change.crate_toml) }
        ensures crates_over { IfOk result (λ r. r.crates.passed_over
            ≡ over map.empty (by_path change.crate_toml)) }
        ensures parents { IfOk result
            (λ r. r.parents ≡ parents_after change.parents self.now.parents) }
    {
        let ConfigChange {
            client,
            user,
            workspace_toml,
            crate_toml,
            parents,
        } = change;
        let client = client_after(alloc, root, &client, self.client())?;
        let user = user_after(alloc, root, &user, self.user())?;
        let workspaces = read_files(
            alloc,
            Source::WorkspaceFile,
            root,
            self.workspaces(),
            workspace_toml,
        )?;
        let crates = read_files(alloc, Source::CrateFile, root, self.crates(), crate_toml)?;
        let parents = parents_after(alloc, &parents, self.parents())?;
        Ok(ReadChange {
            client,
            user,
            workspaces,
            crates,
            parents,
        })
    }

    /// The settings after a change, and what is to be told of it.
    #[tactic(auto, using(crate::proofs::Unnamed::client_stays, crate::proofs::Unnamed::user_stays), unfolding(crate::specs::Change::after, crate::specs::Change::errors_after, crate::specs::Change::passed_over))]
    pub fn after(
        &self,
        alloc: Global,
        root: &VfsPath,
        change: ConfigChange,
    ) -> Result<ChangedSettings, AllocError>
        ensures settings { IfOk result (λ r. r.settings ≡ after root.now change self.now) }
        ensures errors { IfOk result (λ r. r.errors ≡ errors_after root.now change) }
        ensures passed { IfOk result (λ r. r.passed_over ≡ passed_over change) }
        ensures truth { IfOk result (λ r. IsTrue r.changed ↔ HasChanged r.settings self.now) }
    {
        let named = Named {
            client: change.client.is_some(),
            user: change.user.is_some(),
        };
        let Parted {
            parts,
            errors,
            workspaces_over,
            crates_over,
        } = self.read_change(alloc, root, change)?.part();
        let settings = Settings::of_parts(self.defaults().clone()?, parts);
        let errors = errors.in_order()?;
        let passed_over = append(workspaces_over, crates_over)?;
        let changed = is_changed(named, &settings, self);
        Ok(ChangedSettings {
            settings,
            errors,
            changed,
            passed_over,
        })
    }
}
