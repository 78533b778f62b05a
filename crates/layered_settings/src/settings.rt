// What is set, by where it comes from, and how a value is searched.
ghost use Rattle.std.specs.Prelude.{◌≡◌, ◌<◌, bytes_eq, option_to_list, IfSome, IfOk};
ghost use Rattle.std.specs.Option.{option_copied};
ghost use Rattle.std.specs.FinMap as map;
ghost use Rattle.ra_settings.specs.Facts.{facts_of};
ghost use Rattle.ra_settings.specs.Values.{kind_of};
ghost use Rattle.layered_settings.specs.Change.{no_settings, same_pairs};
ghost use Rattle.layered_settings.specs.Search.{parent_of, layers_at, layers_of, roots_from, path, first_in, setting};

use crate::shared_layer::SharedLayer;
use plain::ByNumber;
use ra_settings::{Defaults, Layer, Row, SettingValue};
use shared_map::{SharedMap, Steps};
use std::alloc::{AllocError, Global};
use std::marker::{Brand, Model};
use std::sync::Arc;
use std::sync::ledger::{Blank, Ledger};

/// The files of one kind, by root. They never change: `put` answers others, which share with these all nodes but
/// those on the way to the root, and a clone is the same tree.
pub(crate) struct Files {
    alloc: Global,
    layers: SharedMap<u32, SharedLayer>,
}

impl Drop for Files {
    fn drop(self) {
        let Files {
            alloc: _,
            layers: _,
        } = self;
    }
}

impl Model for Files {
    ghost use Rattle.std.specs.Prelude.{List, Option};
    ghost use Rattle.std.specs.Ordering.{nat_cmp};
    ghost use Rattle.std.specs.FinMap as map;
    ghost use Rattle.ra_settings.specs.Layers.{Values};
    ghost use Rattle.std.specs.Coded.{coded_ℕ};
    ghost use Rattle.ra_settings.specs.contracts.layer.Layer as layer_row;

    ghost Value = { map.FinMap nat_cmp Values };

    ghost coded = { map.code coded_ℕ layer_row.the_row.coded };

    ghost view = { λ f. map.from_entries f.layers };
}

impl Files {
    /// No files.
    pub(crate) fn new(alloc: Global) -> Files
        ensures { result ≡ map.empty }
    {
        Files {
            alloc,
            layers: SharedMap::new(alloc),
        }
    }

    /// The layer of a root.
    pub(crate) fn get(&self, root: u32) -> Option<&Layer>
        ensures { option_copied result ≡ map.get self.now root }
    {
        match self.layers.get(&root) {
            Some(shared) => Some(shared.layer()),
            None => None,
        }
    }

    /// The files where the layer of a root is this one.
    pub(crate) fn put(&self, root: u32, layer: Layer) -> Result<Files, AllocError>
        ensures { IfOk result (λ files. files ≡ map.insert self.now root layer) }
    {
        self.put_uncounted::<Brand>(root, layer, Blank::new(1))
    }

    /// The same where nobody counts the steps.
    fn put_uncounted<L: Ledger>(
        &self,
        root: u32,
        layer: Layer,
        blank: Blank,
    ) -> Result<Files, AllocError>
        requires name { blank.name ≡ L.name }
        requires parts { blank.parts ≡ L.parts }
        requires some { 0 < L.parts }
        ensures { IfOk result (λ files. files ≡ map.insert self.now root layer) }
    {
        let mut steps = Steps::<L>::new(blank);
        let _in_order = self.layers.len();
        let shared = SharedLayer::new(self.alloc, layer)?;
        Ok(Files {
            alloc: self.alloc,
            layers: self.layers.set(root, Some(shared), &mut steps)?,
        })
    }
}

impl Clone for Files {
    ghost is_clone = { λ files copy. copy ≡ files };

    fn clone(&self) -> Result<Files, AllocError> {
        Ok(Files {
            alloc: self.alloc,
            layers: self.layers.clone()?,
        })
    }
}

// Whether both have the same roots.
fn have_same_roots(one: &ByNumber<u32>, other: &ByNumber<u32>) -> bool
    ensures { result ≡ bytes_eq (map.keys one.now) (map.keys other.now) }
{
    let mut others = other.keys();
    for root in one.keys() {
        let Some(other_root) = others.next() else {
            return false;
        };
        if *root != *other_root {
            return false;
        }
    }
    others.next().is_none()
}

// Whether both have the same parents, in the order of their roots.
fn have_same_parents(one: &ByNumber<u32>, other: &ByNumber<u32>) -> bool
    ensures { result ≡ bytes_eq (map.values one.now) (map.values other.now) }
{
    let mut others = other.values();
    for parent in one.values() {
        let Some(other_parent) = others.next() else {
            return false;
        };
        if *parent != *other_parent {
            return false;
        }
    }
    others.next().is_none()
}

/// The parent of each root that has one. A clone shares them.
pub(crate) struct Parents {
    parents: Arc<ByNumber<u32>, Global>,
}

impl Drop for Parents {
    fn drop(self) {
        let Parents { parents: _ } = self;
    }
}

impl Model for Parents {
    ghost use Rattle.std.specs.Prelude.{ℕ};
    ghost use Rattle.std.specs.Ordering.{nat_cmp};
    ghost use Rattle.std.specs.FinMap as map;
    ghost use Rattle.std.specs.Coded.{coded_ℕ};

    ghost Value = { map.FinMap nat_cmp ℕ };

    ghost coded = { map.code coded_ℕ coded_ℕ };

    ghost view = { λ p. p.parents.value };
}

impl Parents {
    pub(crate) fn new(alloc: Global, parents: ByNumber<u32>) -> Result<Parents, AllocError>
        ensures { IfOk result (λ made. made ≡ parents) }
    {
        Ok(Parents {
            parents: Arc::new(alloc, parents)?,
        })
    }

    pub(crate) fn len(&self) -> usize
        ensures { result ≡ map.len self.now }
    {
        self.parents.len()
    }

    pub(crate) fn get(&self, root: u32) -> Option<u32>
        ensures { result ≡ parent_of self.now root }
    {
        match self.parents.get(u64::from(root)) {
            Some(parent) => Some(*parent),
            None => None,
        }
    }

    /// Whether these are the same: each root with its parent is in both.
    #[tactic(auto, using(crate::proofs::ParentPairs::pairs_are_same_by_parts))]
    pub(crate) fn is_same(&self, other: &ByNumber<u32>) -> bool
        ensures { result ≡ same_pairs (map.entries self.now) (map.entries other.now) }
    {
        let parents: &ByNumber<u32> = &self.parents;
        have_same_roots(parents, other) && have_same_parents(parents, other)
    }
}

impl Clone for Parents {
    ghost is_clone = { λ parents copy. copy ≡ parents };

    fn clone(&self) -> Result<Parents, AllocError> {
        Ok(Parents {
            parents: self.parents.clone()?,
        })
    }
}

/// What is set. Clones share the values.
pub struct Settings {
    client: Layer,
    user: Layer,
    workspaces: Files,
    crates: Files,
    parents: Parents,
    defaults: Defaults,
}

impl Drop for Settings {
    fn drop(self) {
        let Settings {
            client: _,
            user: _,
            workspaces: _,
            crates: _,
            parents: _,
            defaults: _,
        } = self;
    }
}

/// The parts of settings.
#[derive(Drop)]
pub(crate) struct SettingsParts {
    pub(crate) client: Layer,
    pub(crate) user: Layer,
    pub(crate) workspaces: Files,
    pub(crate) crates: Files,
    pub(crate) parents: Parents,
}

impl Model for Settings {
    ghost use Rattle.std.specs.Coded.{codes};
    ghost use Rattle.layered_settings.specs.Search.{SettingsData};
    ghost use Rattle.ra_settings.specs.contracts.layer.Layer as layer_row;
    ghost use Rattle.layered_settings.specs.contracts.settings.Files as files_row;
    ghost use Rattle.layered_settings.specs.contracts.settings.Parents as parents_row;

    ghost Value = { SettingsData };

    ghost coded = { Prim.hlevel (codes, layer_row.the_row.coded, files_row.the_row.coded, parents_row.the_row.coded) };

    ghost view = { λ s. record {
      client = s.client;
      user = s.user;
      workspaces = s.workspaces;
      crates = s.crates;
      parents = s.parents;
    } };
}

impl Settings {
    pub(crate) fn of_parts(defaults: Defaults, parts: SettingsParts) -> Settings
        ensures { result ≡ record {
          client = parts.client;
          user = parts.user;
          workspaces = parts.workspaces;
          crates = parts.crates;
          parents = parts.parents;
        } }
    {
        let SettingsParts {
            client,
            user,
            workspaces,
            crates,
            parents,
        } = parts;
        Settings {
            client,
            user,
            workspaces,
            crates,
            parents,
            defaults,
        }
    }

    /// Nothing is set.
    #[tactic(auto, unfolding(crate::specs::Change::no_settings))]
    pub fn new(alloc: Global) -> Result<Settings, AllocError>
        ensures { IfOk result (λ settings. settings ≡ no_settings) }
    {
        let none = Layer::empty(alloc)?;
        Ok(Settings::of_parts(
            Defaults::new(alloc)?,
            SettingsParts {
                client: none.clone()?,
                user: none,
                workspaces: Files::new(alloc),
                crates: Files::new(alloc),
                parents: Parents::new(alloc, ByNumber::new(alloc))?,
            },
        ))
    }

    /// The same with these values of the client.
    pub fn with_client(self, client: Layer) -> Settings
        ensures { result ≡ record self { client = client } }
    {
        let Settings {
            client: _,
            user,
            workspaces,
            crates,
            parents,
            defaults,
        } = self;
        Settings {
            client,
            user,
            workspaces,
            crates,
            parents,
            defaults,
        }
    }

    pub(crate) fn client(&self) -> &Layer
        ensures { result.now ≡ self.now.client }
    {
        &self.client
    }

    pub(crate) fn user(&self) -> &Layer
        ensures { result.now ≡ self.now.user }
    {
        &self.user
    }

    pub(crate) fn workspaces(&self) -> &Files
        ensures { result.now ≡ self.now.workspaces }
    {
        &self.workspaces
    }

    pub(crate) fn crates(&self) -> &Files
        ensures { result.now ≡ self.now.crates }
    {
        &self.crates
    }

    pub(crate) fn parents(&self) -> &Parents
        ensures { result.now ≡ self.now.parents }
    {
        &self.parents
    }

    pub(crate) fn defaults(&self) -> &Defaults {
        &self.defaults
    }

    /// The value of a row at a root: the first on its search path, else its default.
    #[tactic(auto, unfolding(crate::specs::Search::setting))]
    pub fn get(&self, row: Row, root: Option<u32>) -> &SettingValue
        ensures value { result.now ≡ setting row root self.now }
        ensures kind { kind_of result.now ≡ kind_of (facts_of row).default }
    {
        match self.find(row, root) {
            Some(value) => value,
            None => self.defaults.get(row),
        }
    }

    /// The value that holds for a row at a root, where one is set.
    #[tactic(auto, using(crate::proofs::SearchLaws::path_found))]
    fn find(&self, row: Row, root: Option<u32>) -> Option<&SettingValue>
        ensures value { option_copied result ≡ first_in row (path root self.now) }
        ensures kind { IfSome result (λ v. kind_of v.now ≡ kind_of (facts_of row).default) }
    {
        if let Some(value) = self.find_in_roots(row, root) {
            return Some(value);
        }
        match self.client.get(row) {
            Some(value) => Some(value),
            None => self.user.get(row),
        }
    }

    #[tactic(auto, using(crate::proofs::SearchLaws::searching))]
    fn find_in_roots(&self, row: Row, root: Option<u32>) -> Option<&SettingValue>
        ensures value { option_copied result ≡ first_in row (layers_of self.now (roots_from root self.now)) }
        ensures kind { IfSome result (λ v. kind_of v.now ≡ kind_of (facts_of row).default) }
    {
        let mut at = root;
        // A number of more bits, since one more than a length may be too much for `usize`.
        let mut left = self.parents.len() as u128 + 1;
        'roots: while left > 0 {
            let Some(here) = at else {
                return None;
            };
            if let Some(value) = self.find_at_root(row, here) {
                return Some(value);
            }
            at = self.parents.get(here);
            left -= 1;
        }
        None
    }

    fn find_at_root(&self, row: Row, root: u32) -> Option<&SettingValue>
        ensures value { option_copied result ≡ first_in row (layers_at self.now root) }
        ensures kind { IfSome result (λ v. kind_of v.now ≡ kind_of (facts_of row).default) }
    {
        match find_in_files(&self.workspaces, row, root) {
            Some(value) => Some(value),
            None => find_in_files(&self.crates, row, root),
        }
    }
}

impl Clone for Settings {
    ghost is_clone = { λ settings copy. copy ≡ settings };

    fn clone(&self) -> Result<Settings, AllocError> {
        Ok(Settings {
            client: self.client.clone()?,
            user: self.user.clone()?,
            workspaces: self.workspaces.clone()?,
            crates: self.crates.clone()?,
            parents: self.parents.clone()?,
            defaults: self.defaults.clone()?,
        })
    }
}

fn find_in_files(files: &Files, row: Row, root: u32) -> Option<&SettingValue>
    ensures value { option_copied result ≡ first_in row (option_to_list (map.get files.now root)) }
    ensures kind { IfSome result (λ v. kind_of v.now ≡ kind_of (facts_of row).default) }
{
    match files.get(root) {
        Some(layer) => layer.get(row),
        None => None,
    }
}
