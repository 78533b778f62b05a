// A snapshot's files, by their numbers.
ghost use Rattle.std.specs.Prelude.{◌≡◌, None, Some, Ok, Err, IfOk, IfSome, MatchOption, MatchResult, option_copied};
ghost use Rattle.std.specs.FinMap as map;
ghost use Rattle.docs_vfs.specs.FileUrls.{path_of};
ghost use Rattle.analysis_host.specs.FilePlaces.{Finds};
ghost use Rattle.analysis_host.specs.SnapshotData.{text_of};
ghost use Rattle.analysis_host.specs.SnapshotFiles.{IsFile, IsLineIndexOf, beside, file_entry, file_exists, file_text, file_url, file_version, is_included, named_file, named_version, number_from, path_at, path_text, path_to_file, url_beside};

use crate::proto_fault::ProtoFault;
use crate::snapshot::GlobalStateSnapshot;
use crate::text_entry::TextEntry;
use docs_vfs::{
    EmptySegments, FileExcluded, FileId, UrlFault, VfsPath, path_named, path_of_url, url_of_path,
};
use plain::{NoMemory, Text};
use std::alloc::Global;
use text_core::{LineIndex, TextIndex};

/// Whether there is an entry, of a file that isn't excluded.
fn is_included(entry: Option<(FileId, FileExcluded)>) -> bool
    ensures { result ≡ is_included entry }
{
    match entry {
        Some((_, FileExcluded::No)) => true,
        Some((_, FileExcluded::Yes)) | None => false,
    }
}

/// The number in an entry, of a file with a text or without.
fn number_from(
    entry: Option<(FileId, FileExcluded)>,
    has_text: bool,
) -> Result<Option<FileId>, ProtoFault>
    ensures { result ≡ number_from entry has_text }
{
    match entry {
        None => Err(ProtoFault::NotFound),
        Some((_, FileExcluded::Yes)) => Ok(None),
        Some((file, FileExcluded::No)) => {
            if has_text {
                Ok(Some(file))
            } else {
                Err(ProtoFault::NotFound)
            }
        }
    }
}

/// The text of an entry, with its lines.
fn index_of(entry: Option<&TextEntry>) -> Option<&TextIndex>
    ensures { option_copied result ≡ text_of (option_copied entry.entry) }
{
    match entry {
        Some(entry) => Some(entry.text.index()),
        None => None,
    }
}

/// The path that a text is, taken from the folder that a path lies in.
fn beside(alloc: Global, anchor: &VfsPath, path: &str) -> Result<Option<VfsPath>, NoMemory>
    ensures { IfOk result (λ found. found ≡ beside anchor.now path.now) }
{
    match anchor.parent(alloc)? {
        Some(folder) => folder.resolve(path, EmptySegments::Dropped),
        None => anchor.resolve(path, EmptySegments::Dropped),
    }
}

impl GlobalStateSnapshot {
    /// The number of a path's file, or none where it is excluded. The number leads back to the path.
    pub fn vfs_path_to_file_id(&self, path: &VfsPath) -> Result<Option<FileId>, ProtoFault>
        ensures number { result ≡ path_to_file self.now path.now }
        ensures back { IfOk result (λ found. IfSome found (λ file. path_at self.now file ≡ Some path.now)) }
    {
        let entry = self.parts.file_ids.get(path);
        number_from(entry, self.parts.world.text(path).is_some())
    }

    /// The text of a path's file, with its lines, or none where the file is excluded.
    pub fn path_index(&self, path: &VfsPath) -> Result<Option<&TextIndex>, ProtoFault>
        ensures { MatchResult result
            (λ text. path_text self.now path.now ≡ Ok (option_copied text))
            (λ fault. path_text self.now path.now ≡ Err fault) }
    {
        let number = self.parts.file_ids.get(path);
        let entry = self.parts.world.entry(path);
        match number_from(number, entry.is_some())? {
            Some(_) => Ok(index_of(entry)),
            None => Ok(None),
        }
    }

    /// The same of the path that a URL names.
    pub fn url_to_file_id(&self, alloc: Global, url: &str) -> Result<Option<FileId>, ProtoFault>
        ensures number { Finds result (named_file self.now (path_of url.now)) }
        ensures file { IfOk result (λ found. IfSome found (IsFile self.now)) }
    {
        match path_of_url(alloc, url) {
            Ok(path) => self.vfs_path_to_file_id(&path),
            Err(UrlFault::NoMemory) => Err(ProtoFault::NoMemory),
            Err(fault @ (UrlFault::NotFile | UrlFault::HasHost | UrlFault::NotText)) => {
                Err(ProtoFault::Url(fault))
            }
        }
    }

    /// The path that has the number, if one has it.
    fn path_at(&self, file: FileId) -> Option<&VfsPath>
        ensures { option_copied result ≡ path_at self.now file }
    {
        self.parts.file_ids.path_of(file)
    }

    /// The path of a file.
    pub fn file_id_to_file_path(&self, file: FileId) -> &VfsPath
        requires { IsFile self.now file }
        ensures { path_at self.now file ≡ Some result.now }
    {
        self.path_at(file).unwrap()
    }

    /// The URL of a file.
    pub fn file_id_to_url(&self, alloc: Global, file: FileId) -> Result<Text, NoMemory>
        requires { IsFile self.now file }
        ensures { IfOk result (λ url. file_url self.now file ≡ Some url) }
    {
        url_of_path(alloc, self.file_id_to_file_path(file))
    }

    /// Whether the number is one of a file that isn't excluded.
    pub fn file_exists(&self, file: FileId) -> bool
        ensures { result ≡ file_exists self.now file }
    {
        match self.path_at(file) {
            Some(path) => is_included(self.parts.file_ids.get(path)),
            None => false,
        }
    }

    /// What the world keeps of a file.
    fn file_entry(&self, file: FileId) -> Option<&TextEntry>
        ensures { option_copied result ≡ file_entry self.now file }
    {
        match self.path_at(file) {
            Some(path) => self.parts.world.entry(path),
            None => None,
        }
    }

    /// The text of a file, with its lines.
    pub fn file_index(&self, file: FileId) -> Option<&TextIndex>
        ensures { option_copied result ≡ file_text self.now file }
    {
        index_of(self.file_entry(file))
    }

    /// The text of a file.
    pub fn file_text(&self, file: FileId) -> Option<&str>
        ensures { option_copied result ≡ file_text self.now file }
    {
        match self.file_entry(file) {
            Some(entry) => Some(entry.text.as_str()),
            None => None,
        }
    }

    /// The index of a file's text, with its line endings and what a column counts in it.
    pub fn file_line_index(&self, file: FileId) -> Result<Option<LineIndex>, NoMemory>
        ensures { IfOk result (λ found. MatchOption found (file_entry self.now file ≡ None) (IsLineIndexOf self.now file)) }
    {
        let Some(entry) = self.file_entry(file) else {
            return Ok(None);
        };
        Ok(Some(LineIndex {
            index: entry.text.share()?,
            endings: entry.endings,
            encoding: self.encoding(),
        }))
    }

    /// The version of a path that is open.
    pub(crate) fn path_version(&self, path: &VfsPath) -> Option<i32>
        ensures { result ≡ map.get self.now.versions path.now }
    {
        self.parts.versions.get(path)
    }

    /// The version of a file that is open.
    pub fn file_version(&self, file: FileId) -> Option<i32>
        ensures { result ≡ file_version self.now file }
    {
        match self.path_at(file) {
            Some(path) => self.path_version(path),
            None => None,
        }
    }

    /// The version of the open document that a URL names.
    pub fn url_file_version(&self, alloc: Global, url: &str) -> Result<Option<i32>, NoMemory>
        ensures { IfOk result (λ version. version ≡ named_version self.now (path_of url.now)) }
    {
        match path_named(alloc, url)? {
            Some(path) => Ok(self.path_version(&path)),
            None => Ok(None),
        }
    }

    /// The URL of the path that a text is, taken from the folder that a file lies in, or from `/` where it begins with a
    /// slash. None where it leads above `/` or holds NUL.
    pub fn anchored_path(
        &self,
        alloc: Global,
        anchor: FileId,
        path: &str,
    ) -> Result<Option<Text>, NoMemory>
        requires { IsFile self.now anchor }
        ensures { IfOk result (λ url. url ≡ url_beside self.now anchor path.now) }
    {
        let anchor = self.file_id_to_file_path(anchor);
        match beside(alloc, anchor, path)? {
            Some(path) => Ok(Some(url_of_path(alloc, &path)?)),
            None => Ok(None),
        }
    }
}
