ghost use Rattle.std.specs.Prelude.{◌≡◌, ◌++◌, ◌∷◌, [], ◌+◌, OnOk, OnErr, IfOk, IfErr, None, Some, true, false, option_to_list};
ghost use Rattle.std.specs.Option.{option_copied};
ghost use Rattle.std.specs.FinMap as map;
ghost use Rattle.std.specs.List.{filter_map};
ghost use Rattle.docs_vfs.specs.Files.{new_files, contents_of, kept_of, kept_in, is_marked, contents_at, same_contents, was_of, before_of, set_row, add_row, mark_row, put_in, set_in, add_in, mark_in, path_at, exists_in, id_by, file_id_of, kind_between, change_of, changes, changed_of, next_file, is_full, TableRefines, TableRefinesTotal};
ghost use Rattle.docs_vfs.specs.FileLaws.{IsNumbered, IsDifference};
ghost use Rattle.docs_vfs.specs.declared.file_kinds.TableFault.TheVariants.{Full};

use crate::by_path::ByPath;
use crate::file_kinds::{
    ChangeKind, ChangedFile, FileExcluded, FileId, FileRow, FileWas, Replaced, RowState, TableFault,
};
use crate::path::VfsPath;
use crate::path_table::PathTable;
use crate::shared_bytes::SharedBytes;
use plain::{Bytes, Items};
use std::alloc::{AllocError, Global};
use std::marker::Model;
use std::mem;

/// At most this many numbers are given.
const MOST_FILES: u128 = 4_294_967_295;

/// The files by path: their numbers, and their contents or marks, now and at the last take.
pub struct FileTable {
    alloc: Global,
    first: u32,
    paths: Items<VfsPath>,
    rows: PathTable<FileRow>,
    before: ByPath<FileWas>,
}

impl Drop for FileTable {
    fn drop(self) {
        let FileTable {
            alloc: _,
            first: _,
            paths: _,
            rows: _,
            before: _,
        } = self;
    }
}

impl Model for FileTable {
    ghost use Rattle.docs_vfs.specs.Files.{Files};
    ghost use Rattle.docs_vfs.specs.FileLaws.{IsNumbered};
    ghost use Rattle.std.specs.Coded.{codes};
    ghost use Rattle.std.specs.FinMap as map;

    ghost Value = { Files };

    ghost coded = { Prim.hlevel (codes, map.code) };

    ghost view = { λ t. record { first = t.first; paths = t.paths; rows = t.rows; before = t.before } };

    ghost invariant = { λ t. IsNumbered (record { first = t.first; paths = t.paths; rows = t.rows; before = t.before }) };
}

/// Whether this is a mark.
fn is_mark(kept: &RowState) -> bool
    ensures { result ≡ is_marked kept.now }
{
    match kept {
        RowState::Excluded => true,
        RowState::Contents(_) => false,
        RowState::Nothing => false,
    }
}

/// The contents, where these are what is kept.
fn contents_of(kept: &RowState) -> Option<&SharedBytes>
    ensures { option_copied result ≡ contents_of kept.now }
{
    match kept {
        RowState::Contents(bytes) => Some(bytes),
        RowState::Excluded => None,
        RowState::Nothing => None,
    }
}

/// The contents that are kept of a path.
fn contents_of_row(row: Option<&FileRow>) -> Option<&SharedBytes>
    ensures { option_copied result ≡ contents_of (kept_in (option_copied row.entry)) }
{
    match row {
        None => None,
        Some(row) => contents_of(&row.kept),
    }
}

/// The number of a path that has contents or a mark, and whether it is marked.
fn id_of(row: &FileRow) -> Option<(FileId, FileExcluded)>
    ensures { result ≡ id_by row.now.file row.now.kept }
{
    match &row.kept {
        RowState::Nothing => None,
        RowState::Contents(_) => Some((row.file, FileExcluded::No)),
        RowState::Excluded => Some((row.file, FileExcluded::Yes)),
    }
}

/// What is kept of a path with these contents.
fn keep(contents: Option<SharedBytes>) -> RowState
    ensures { result ≡ kept_of contents }
{
    match contents {
        Some(bytes) => RowState::Contents(bytes),
        None => RowState::Nothing,
    }
}

/// Whether contents are the same, or there are none in both.
fn are_same(old: Option<&SharedBytes>, new: &Option<SharedBytes>) -> bool
    ensures { result ≡ same_contents (option_copied old.entry) new.now }
{
    match (old, new) {
        (Some(old), Some(new)) => old.as_slice() == new.as_slice(),
        (None, None) => true,
        _ => false,
    }
}

/// What became of contents.
fn kind_between(old: &Option<SharedBytes>, new: Option<&SharedBytes>) -> Option<ChangeKind>
    ensures { result ≡ kind_between old.now (option_copied new.entry) }
{
    match (old, new) {
        (None, None) => None,
        (None, Some(_)) => Some(ChangeKind::Create),
        (Some(_), None) => Some(ChangeKind::Delete),
        (Some(old), Some(new)) => {
            if old.as_slice() == new.as_slice() {
                None
            } else {
                Some(ChangeKind::Modify)
            }
        }
    }
}

/// Contents that share the bytes of others.
fn share(contents: Option<&SharedBytes>) -> Result<Option<SharedBytes>, AllocError>
    ensures { IfOk result (λ copy. copy ≡ option_copied contents.entry) }
{
    match contents {
        Some(bytes) => Ok(Some(bytes.clone()?)),
        None => Ok(None),
    }
}

/// Adds what became of a path since the last take, unless its contents are what they were.
fn push_change(
    list: &mut Items<ChangedFile>,
    rows: &PathTable<FileRow>,
    path: VfsPath,
    was: &FileWas,
) -> Result<(), AllocError>
    ensures { OnOk result (list.new ≡ list.old ++ option_to_list (change_of rows.now (path, was.now))) }
{
    let now = contents_of_row(rows.get(&path));
    match kind_between(&was.contents, now) {
        None => Ok(()),
        Some(kind) => {
            let contents = share(now)?;
            list.push(ChangedFile {
                file: was.file,
                path,
                kind,
                contents,
            })?;
            Ok(())
        }
    }
}

/// Adds what became of each path that was touched.
fn drain_changes(
    list: &mut Items<ChangedFile>,
    rows: &PathTable<FileRow>,
    before: &mut ByPath<FileWas>,
) -> Result<(), AllocError>
    ensures { OnOk result ((list.new ≡ list.old ++ filter_map (change_of rows.now) (map.entries before.old))
        × (before.new ≡ map.empty)) }
{
    'paths: loop {
        match before.pop_first() {
            None => return Ok(()),
            Some((path, was)) => push_change(list, rows, path, &was)?,
        }
    }
}

/// Keeps what is in a path's row, unless the path was touched since the last take.
fn touch(before: &mut ByPath<FileWas>, path: &VfsPath, row: &FileRow) -> Result<(), AllocError>
    ensures ok { OnOk result (before.new ≡ before_of before.old path.now (was_of row.now)) }
    ensures err { OnErr result (before.new ≡ before.old) }
{
    let contents = share(contents_of(&row.kept))?;
    let file = row.file;
    before.insert_new(path.clone()?, FileWas { file, contents })
}

/// Keeps this in a path's row. Without memory all stays.
fn put_in_row(
    row: &mut FileRow,
    before: &mut ByPath<FileWas>,
    path: &VfsPath,
    kept: RowState,
) -> Result<(), AllocError>
    ensures ok { OnOk result ((row.new ≡ record row.old { kept = kept }) × (before.new ≡ before_of before.old path.now (was_of row.old))) }
    ensures err { OnErr result ((row.new ≡ row.old) × (before.new ≡ before.old)) }
{
    touch(before, path, row)?;
    row.kept = kept;
    Ok(())
}

/// Nothing has changed at a path with this number.
fn unchanged(id: Option<(FileId, FileExcluded)>) -> Replaced
    ensures { result ≡ record { before = id; after = id; changed = false } }
{
    Replaced {
        before: id,
        after: id,
        changed: false,
    }
}

/// Sets the contents in a path's row, or takes them away. Without memory all stays.
fn set_row(
    row: &mut FileRow,
    before: &mut ByPath<FileWas>,
    path: &VfsPath,
    contents: Option<SharedBytes>,
) -> Result<Replaced, AllocError>
    ensures row { IfOk result (λ r. (row.new, before.new, r.changed) ≡ set_row row.old before.old path.now contents) }
    ensures before { IfOk result (λ r. r.before ≡ id_by row.old.file row.old.kept) }
    ensures after { IfOk result (λ r. r.after ≡ id_by row.new.file row.new.kept) }
    ensures err { OnErr result ((row.new ≡ row.old) × (before.new ≡ before.old)) }
{
    let id = id_of(row);
    if is_mark(&row.kept) || are_same(contents_of(&row.kept), &contents) {
        return Ok(unchanged(id));
    }
    put_in_row(row, before, path, keep(contents))?;
    Ok(Replaced {
        before: id,
        after: id_of(row),
        changed: true,
    })
}

/// The same, where a path has neither contents nor a mark. Any other stays as it is.
fn add_row(
    row: &mut FileRow,
    before: &mut ByPath<FileWas>,
    path: &VfsPath,
    contents: Option<SharedBytes>,
) -> Result<Replaced, AllocError>
    ensures row { IfOk result (λ r. (row.new, before.new, r.changed) ≡ add_row row.old before.old path.now contents) }
    ensures before { IfOk result (λ r. r.before ≡ id_by row.old.file row.old.kept) }
    ensures after { IfOk result (λ r. r.after ≡ id_by row.new.file row.new.kept) }
    ensures err { OnErr result ((row.new ≡ row.old) × (before.new ≡ before.old)) }
{
    match id_of(row) {
        None => set_row(row, before, path, contents),
        known => Ok(unchanged(known)),
    }
}

/// Marks a path in its row. Without memory all stays.
fn mark_row(
    row: &mut FileRow,
    before: &mut ByPath<FileWas>,
    path: &VfsPath,
) -> Result<(), AllocError>
    ensures ok { OnOk result ((row.new, before.new) ≡ mark_row row.old before.old path.now) }
    ensures err { OnErr result ((row.new ≡ row.old) × (before.new ≡ before.old)) }
{
    if is_mark(&row.kept) {
        return Ok(());
    }
    put_in_row(row, before, path, RowState::Excluded)
}

/// Keeps a row of a path that has none, and the path behind those that have numbers. Without memory all stays.
#[tactic(auto, using(crate::proofs::TableLemmas::undone_by))]
fn put_next_row(
    paths: &mut Items<VfsPath>,
    rows: &mut PathTable<FileRow>,
    path: &VfsPath,
    row: FileRow,
) -> Result<(), AllocError>
    requires { map.get rows.old path.now ≡ None }
    ensures ok { OnOk result ((paths.new ≡ paths.old ++ path.now ∷ []) × (rows.new ≡ map.insert rows.old path.now row)) }
    ensures err { OnErr result ((paths.new ≡ paths.old) × (rows.new ≡ rows.old)) }
{
    let numbered = path.clone()?;
    rows.insert(path.clone()?, row)?;
    match paths.push(numbered) {
        Ok(()) => Ok(()),
        Err(_) => {
            rows.remove(path);
            Err(AllocError)
        }
    }
}

/// Keeps this of a path that has no row, with the next number. Without memory all stays.
#[tactic(auto, using(crate::proofs::TableLemmas::undone_by))]
fn put_next(
    paths: &mut Items<VfsPath>,
    rows: &mut PathTable<FileRow>,
    before: &mut ByPath<FileWas>,
    path: &VfsPath,
    row: FileRow,
) -> Result<(), AllocError>
    requires row { map.get rows.old path.now ≡ None }
    requires touched { map.get before.old path.now ≡ None }
    ensures ok { OnOk result ((paths.new ≡ paths.old ++ path.now ∷ []) × (rows.new ≡ map.insert rows.old path.now row)
        × (before.new ≡ map.insert before.old path.now (record { file = row.file; contents = None }))) }
    ensures err { OnErr result ((paths.new ≡ paths.old) × (rows.new ≡ rows.old) × (before.new ≡ before.old)) }
{
    let file = row.file;
    let contents = None;
    before.insert(path.clone()?, FileWas { file, contents })?;
    match put_next_row(paths, rows, path, row) {
        Ok(()) => Ok(()),
        Err(_) => {
            before.remove(path);
            Err(AllocError)
        }
    }
}

impl FileTable {
    /// A table without files.
    pub fn new(alloc: Global) -> FileTable
        ensures { result ≡ new_files 0 }
    {
        FileTable::new_at(alloc, 0)
    }

    /// A table without files, as if this many numbers were given already.
    #[tactic(auto, using(crate::proofs::NumberLaws::none_numbered))]
    pub fn new_at(alloc: Global, used: u32) -> FileTable
        ensures { result ≡ new_files used }
    {
        FileTable {
            alloc,
            first: used,
            paths: Items::new(alloc),
            rows: PathTable::new(alloc),
            before: ByPath::new(alloc),
        }
    }

    /// The path with a number.
    pub fn path(&self, file: FileId) -> Option<&VfsPath>
        ensures { option_copied result ≡ path_at self.now file }
    {
        if file.0 < self.first {
            return None;
        }
        self.paths.get((file.0 - self.first) as usize)
    }

    /// The contents at a path.
    pub fn contents(&self, path: &VfsPath) -> Option<&SharedBytes>
        ensures { option_copied result ≡ contents_at self.now path.now }
    {
        contents_of_row(self.rows.get(path))
    }

    /// Whether the file with a number has contents.
    pub fn exists(&self, file: FileId) -> bool
        ensures { result ≡ exists_in self.now file }
    {
        match self.path(file) {
            None => false,
            Some(path) => self.contents(path).is_some(),
        }
    }

    /// The number of a path that has contents or a mark, and whether it is marked.
    pub fn file_id(&self, path: &VfsPath) -> Option<(FileId, FileExcluded)>
        ensures { result ≡ file_id_of self.now path.now }
    {
        id_of(self.rows.get(path)?)
    }

    /// The next number.
    fn next_number(&self) -> Result<FileId, TableFault>
        ensures ok { IfOk result (λ file. (file ≡ next_file self.now) × (is_full self.now ≡ false)) }
        ensures err { IfErr result (λ e. (e ≡ Full) × (is_full self.now ≡ true)) }
    {
        let given = self.first as u128 + self.paths.len() as u128;
        if given >= MOST_FILES {
            return Err(TableFault::Full);
        }
        Ok(FileId(given as u32))
    }

    /// Keeps this of a path that has no row, and answers its number.
    #[tactic(auto, using(crate::proofs::TableLemmas::parts))]
    fn put_new(&mut self, path: &VfsPath, kept: RowState) -> Result<FileId, TableFault>
        requires { map.get self.old.rows path.now ≡ None }
        ensures put { TableRefines result (put_in self.old path.now kept) self.old self.new }
        ensures row { IfOk result (λ file. map.get self.new.rows path.now ≡ Some (record { file = file; kept = kept })) }
    {
        let file = self.next_number()?;
        put_next(
            &mut self.paths,
            &mut self.rows,
            &mut self.before,
            path,
            FileRow { file, kept },
        )?;
        Ok(file)
    }

    /// Sets the contents of a path that has no row.
    #[tactic(auto, using(crate::proofs::TableLemmas::parts))]
    fn set_new(
        &mut self,
        path: &VfsPath,
        contents: Option<SharedBytes>,
    ) -> Result<Replaced, TableFault>
        requires { map.get self.old.rows path.now ≡ None }
        ensures set { TableRefinesTotal (changed_of result) (set_in self.old path.now contents) self.old self.new }
        ensures before { IfOk result (λ r. r.before ≡ file_id_of self.old path.now) }
        ensures after { IfOk result (λ r. r.after ≡ file_id_of self.new path.now) }
    {
        let Some(bytes) = contents else {
            return Ok(unchanged(None));
        };
        let file = self.put_new(path, RowState::Contents(bytes))?;
        Ok(Replaced {
            before: None,
            after: Some((file, FileExcluded::No)),
            changed: true,
        })
    }

    /// Sets the contents at a path, or takes them away, and answers whether that is a change. A marked path
    /// stays as it is.
    pub fn set_contents(
        &mut self,
        path: VfsPath,
        contents: Option<Bytes>,
    ) -> Result<bool, TableFault>
        ensures { TableRefinesTotal result (set_in self.old path contents) self.old self.new }
    {
        let contents = match contents {
            Some(bytes) => Some(SharedBytes::new(self.alloc, bytes)?),
            None => None,
        };
        self.set_shared(path, contents)
    }

    /// The same of contents that others share.
    pub fn set_shared(
        &mut self,
        path: VfsPath,
        contents: Option<SharedBytes>,
    ) -> Result<bool, TableFault>
        ensures { TableRefinesTotal result (set_in self.old path contents) self.old self.new }
    {
        Ok(self.replace_shared(&path, contents)?.changed)
    }

    /// The same, and answers the number of the path before and after.
    #[tactic(auto, using(crate::proofs::TableLemmas::parts))]
    pub fn replace_shared(
        &mut self,
        path: &VfsPath,
        contents: Option<SharedBytes>,
    ) -> Result<Replaced, TableFault>
        ensures set { TableRefinesTotal (changed_of result) (set_in self.old path.now contents) self.old self.new }
        ensures before { IfOk result (λ r. r.before ≡ file_id_of self.old path.now) }
        ensures after { IfOk result (λ r. r.after ≡ file_id_of self.new path.now) }
    {
        match self.rows.get_mut(path) {
            None => self.set_new(path, contents),
            Some(row) => Ok(set_row(row, &mut self.before, path, contents)?),
        }
    }

    /// The same of a path that has neither contents nor a mark. Any other stays as it is.
    #[tactic(auto, using(crate::proofs::TableLemmas::parts))]
    pub fn add_shared(
        &mut self,
        path: &VfsPath,
        contents: Option<SharedBytes>,
    ) -> Result<Replaced, TableFault>
        ensures set { TableRefinesTotal (changed_of result) (add_in self.old path.now contents) self.old self.new }
        ensures before { IfOk result (λ r. r.before ≡ file_id_of self.old path.now) }
        ensures after { IfOk result (λ r. r.after ≡ file_id_of self.new path.now) }
    {
        match self.rows.get_mut(path) {
            None => self.set_new(path, contents),
            Some(row) => Ok(add_row(row, &mut self.before, path, contents)?),
        }
    }

    /// Marks a path as excluded for good, and drops its contents.
    #[tactic(auto, using(crate::proofs::TableLemmas::parts))]
    pub fn insert_excluded(&mut self, path: VfsPath) -> Result<(), TableFault>
        ensures { TableRefines result (mark_in self.old path) self.old self.new }
    {
        match self.rows.get_mut(&path) {
            None => {
                self.put_new(&path, RowState::Excluded)?;
            }
            Some(row) => mark_row(row, &mut self.before, &path)?,
        }
        Ok(())
    }

    /// What became of the files since the last take, in the order of their paths. Without memory that is forgotten.
    #[tactic(auto, using(crate::proofs::ChangeLaws::is_difference, crate::proofs::NumberLaws::taken_numbered))]
    pub fn take_changes(&mut self) -> Result<Items<ChangedFile>, AllocError>
        ensures list { IfOk result (λ list. list ≡ changes self.old) }
        ensures difference { IfOk result (λ list. IsDifference self.old list) }
        ensures now { self.new ≡ record self.old { before = map.empty } }
    {
        let mut before = mem::replace(&mut self.before, ByPath::new(self.alloc));
        let mut list = Items::new(self.alloc);
        drain_changes(&mut list, &self.rows, &mut before)?;
        Ok(list)
    }

    /// Numbers and paths are inverse.
    pub fn numbers_are_inverse(&self)
        ensures { IsNumbered self.now }
    {
        let _ = &self.paths;
    }
}
