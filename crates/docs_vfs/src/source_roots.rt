ghost use Rattle.std.specs.Prelude.{true, false, not, ℕ, List, ◌∷◌, [], ◌≡◌, ◌==◌, ◌++◌, ◌≤◌, length, take, option_to_list, OnOk, IfOk};
ghost use Rattle.std.specs.List.{find, list_any};
ghost use Rattle.docs_vfs.specs.Paths.{is_within};
ghost use Rattle.docs_vfs.specs.Includes.{places, is_kept, IsIndex};
ghost use Rattle.docs_vfs.specs.Parents.{parent_above, better};
ghost use Rattle.docs_vfs.specs.Roots.{most_roots, first_greatest, root_length, root_of, parent_of, parent_pair, parent_map, is_local_at};

use crate::includes::Includes;
use crate::path::VfsPath;
use crate::relative::folder_above;
use plain::{ExactClone, Items, NoMemory};
use std::alloc::Global;
use std::marker::Model;
use std::sync::Arc;

/// A part of the files: those below an include that are below no exclude.
pub struct Root {
    pub include: Items<VfsPath>,
    pub exclude: Items<VfsPath>,
    pub is_local: bool,
}

impl Drop for Root {
    fn drop(self) {
        let Root {
            include: _,
            exclude: _,
            is_local: _,
        } = self;
    }
}

impl Clone for Root {
    ghost is_clone = { λ root copy. copy ≡ root };

    fn clone(&self) -> Result<Root, NoMemory> {
        Ok(Root {
            include: self.include.clone()?,
            exclude: self.exclude.clone()?,
            is_local: self.is_local,
        })
    }
}

impl ExactClone for Root {
    ghost copies = { λ x y h. h };
}

/// At most this many roots are kept.
const MOST_ROOTS: usize = 4_294_967_295;

/// The roots of a workspace.
pub struct SourceRoots {
    alloc: Global,
    roots: Items<Root>,
    includes: Arc<Includes, Global>,
    local_includes: Arc<Includes, Global>,
}

impl Drop for SourceRoots {
    fn drop(self) {
        let SourceRoots {
            alloc: _,
            roots: _,
            includes: _,
            local_includes: _,
        } = self;
    }
}

impl Model for SourceRoots {
    ghost use Rattle.std.specs.Prelude.{List, length, ◌≤◌, true, false};
    ghost use Rattle.std.specs.Arc.{arc_value};
    ghost use Rattle.docs_vfs.specs.declared.source_roots.Root.{Root};
    ghost use Rattle.docs_vfs.specs.Roots.{most_roots};
    ghost use Rattle.docs_vfs.specs.Includes.{IsIndex};

    ghost Value = { List Root };

    ghost view = { λ s. s.roots };

    ghost invariant = { λ s. (length s.roots ≤ most_roots) × IsIndex false s.roots (arc_value s.includes)
        × IsIndex true s.roots (arc_value s.local_includes) };
}

/// Whether an exclude of a root is a prefix of a path.
fn is_excluded(path: &VfsPath, root: &Root) -> bool
    ensures { result ≡ list_any (λ exclude. is_within exclude path.now) root.now.exclude }
{
    root.exclude.iter().any(|exclude| path.starts_with(exclude))
}

/// Whether none of the excludes of the root at a place holds a path.
fn is_kept(path: &VfsPath, roots: &[Root], at: u32) -> bool
    ensures { result ≡ is_kept roots.now path.now at }
{
    match roots.get(at as usize) {
        Some(root) => !is_excluded(path, root),
        None => false,
    }
}

/// The first root with this include whose excludes don't hold a path.
fn root_at(index: &Includes, roots: &[Root], path: &VfsPath, include: &str) -> Option<u32>
    ensures { result ≡ find (is_kept roots.now path.now) (places index.now include.now) }
{
    index
        .get(include)
        .iter()
        .copied()
        .find(|at| is_kept(path, roots, *at))
}

/// The root with the longest include that holds a path: the first one at the longest such folder that has one.
fn root_above(index: &Includes, roots: &[Root], path: &VfsPath) -> Option<u32>
    requires { IsIndex false roots.now index.now }
    ensures { result ≡ first_greatest (root_length path.now) roots.now }
{
    let mut folder = path.as_str();
    'folders: loop {
        if let Some(at) = root_at(index, roots, path, folder) {
            return Some(at);
        }
        match folder_above(folder) {
            Some(above) => folder = above,
            None => return None,
        }
    }
}

/// The first of these places that isn't this one.
fn other_place(places: &[u32], at: u32) -> Option<u32>
    ensures { result ≡ find (λ place. not (place == at)) places.now }
{
    places.iter().copied().find(|place| *place != at)
}

/// The length of the longest include of a local root but one that lies above an include, and the first root that
/// has it: the first one at the longest such folder that has one.
fn parent_above(index: &Includes, at: u32, include: &VfsPath) -> Option<(usize, u32)>
    ensures { (roots : List Root) → IsIndex true roots index.now → result ≡ parent_above at (include.now ∷ []) roots }
{
    let mut folder = include.as_str();
    'folders: while let Some(above) = folder_above(folder) {
        if let Some(place) = other_place(index.get(above), at) {
            return Some((above.len(), place));
        }
        folder = above;
    }
    None
}

/// Of two the longer one, and of equal ones the earlier one.
fn better(a: Option<(usize, u32)>, b: Option<(usize, u32)>) -> Option<(usize, u32)>
    ensures { result ≡ better a b }
{
    match (a, b) {
        (None, _) => b,
        (_, None) => a,
        (Some((length, place)), Some((longer, earlier))) => {
            if length < longer || (length == longer && earlier < place) {
                b
            } else {
                a
            }
        }
    }
}

/// The same for several includes.
fn parent_in(index: &Includes, at: u32, includes: &[VfsPath]) -> Option<(usize, u32)>
    ensures { (roots : List Root) → IsIndex true roots index.now → result ≡ parent_above at includes.now roots }
{
    let mut best = None;
    for include in includes {
        best = better(best, parent_above(index, at, include));
    }
    best
}

/// The parent of a root.
fn parent_of(index: &Includes, at: u32, child: &Root) -> Option<u32>
    ensures { (roots : List Root) → IsIndex true roots index.now → result ≡ parent_of roots at child.now }
{
    match parent_in(index, at, child.include.as_slice()) {
        Some((_length, parent)) => Some(parent),
        None => None,
    }
}

/// Adds a local root with its parent, where it has one.
fn push_parent(
    list: &mut Items<(u32, u32)>,
    index: &Includes,
    at: u32,
    root: &Root,
) -> Result<(), NoMemory>
    ensures { OnOk result ((roots : List Root) → IsIndex true roots index.now
        → list.new ≡ list.old ++ option_to_list (parent_pair roots (at, root.now))) }
{
    if !root.is_local {
        return Ok(());
    }
    match parent_of(index, at, root) {
        None => Ok(()),
        Some(parent) => {
            list.push((at, parent))?;
            Ok(())
        }
    }
}

/// Each local root that has a parent, with its parent.
fn parent_pairs(
    alloc: Global,
    index: &Includes,
    roots: &[Root],
) -> Result<Items<(u32, u32)>, NoMemory>
    requires count { length roots.now ≤ most_roots }
    requires index { IsIndex true roots.now index.now }
    ensures { IfOk result (λ list. list ≡ parent_map roots.now) }
{
    let mut list = Items::new(alloc);
    for (at, root) in roots.iter().enumerate() {
        push_parent(&mut list, index, at as u32, root)?;
    }
    Ok(list)
}

impl SourceRoots {
    /// The first 4,294,967,295 of these roots.
    pub fn new(roots: Items<Root>) -> Result<SourceRoots, NoMemory>
        ensures { IfOk result (λ made. made ≡ take most_roots roots) }
    {
        let mut roots = roots.into_vec();
        let alloc = *roots.allocator();
        roots.truncate(MOST_ROOTS);
        let roots = Items::from_vec(roots);
        let includes = Includes::of(alloc, roots.as_slice(), false)?;
        let local_includes = Includes::of(alloc, roots.as_slice(), true)?;
        Ok(SourceRoots {
            alloc,
            roots,
            includes: Arc::new(alloc, includes)?,
            local_includes: Arc::new(alloc, local_includes)?,
        })
    }

    /// The number of the root that a path is in, or the number of roots where it is in none.
    pub fn root_of(&self, path: &VfsPath) -> u32
        ensures { result ≡ root_of self.now path.now }
    {
        match root_above(&self.includes, self.roots.as_slice(), path) {
            Some(at) => at,
            None => self.roots.len() as u32,
        }
    }

    /// Whether this is the number of a local root.
    pub fn is_local(&self, root: u32) -> bool
        ensures { result ≡ is_local_at self.now root }
    {
        match self.roots.get(root as usize) {
            Some(root) => root.is_local,
            None => false,
        }
    }

    /// Each local root that has a parent, with its parent: the local root with the longest include that is a
    /// proper prefix of one of its includes.
    pub fn parent_map(&self) -> Result<Items<(u32, u32)>, NoMemory>
        ensures { IfOk result (λ list. list ≡ parent_map self.now) }
    {
        parent_pairs(self.alloc, &self.local_includes, self.roots.as_slice())
    }
}

impl Clone for SourceRoots {
    ghost is_clone = { λ roots copy. copy ≡ roots };

    fn clone(&self) -> Result<SourceRoots, NoMemory> {
        Ok(SourceRoots {
            alloc: self.alloc,
            roots: self.roots.clone()?,
            includes: Arc::try_clone(&self.includes)?,
            local_includes: Arc::try_clone(&self.local_includes)?,
        })
    }
}

impl ExactClone for SourceRoots {
    ghost copies = { λ x y h. h };
}
