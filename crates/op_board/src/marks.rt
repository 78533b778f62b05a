ghost use Rattle.std.specs.Prelude.{◌≡◌, ◌+◌, ◌<◌, ◌≤◌, ◌++◌, ◌∷◌, [], OnOk};
ghost use Rattle.std.specs.Vec.{vec_len, vec_capacity};
ghost use Rattle.std.specs.FinMap as map;
ghost use Rattle.op_board.specs.Marked.{mark, mark_if, files_at, taken};

use crate::by_file::ByFile;
use docs_vfs::FileId;
use plain::Items;
use std::alloc::{AllocError, Global};
use std::marker::Model;
use std::mem;

/// The files that are marked, and a list with room for them, so that a take needs no memory.
pub struct Marks {
    files: ByFile<()>,
    room: Vec<FileId>,
}

impl Drop for Marks {
    fn drop(self) {
        let Marks { files: _, room: _ } = self;
    }
}

impl Model for Marks {
    ghost use Rattle.std.specs.Prelude.{◌≤◌};
    ghost use Rattle.std.specs.Coded.{codes};
    ghost use Rattle.std.specs.FinMap as map;
    ghost use Rattle.std.specs.Vec.{vec_len};
    ghost use Rattle.op_board.specs.Marked.{Marked};

    ghost Value = { Marked };

    ghost coded = { Prim.hlevel (codes, map.code) };

    ghost view = { λ m. m.files };

    ghost invariant = { λ m. map.len m.files ≤ vec_len m.room };
}

/// Adds a file where there is room.
fn push(list: &mut Vec<FileId>, file: FileId)
    requires { vec_len list.old < vec_capacity list.old }
    ensures items { list.new.items ≡ list.old.items ++ file ∷ [] }
    ensures len { vec_len list.new ≡ vec_len list.old + 1 }
    ensures capacity { vec_capacity list.old ≤ vec_capacity list.new }
{
    let _ = list.push(file);
}

/// Adds the files to a list that has room for them, in order.
fn push_files(list: &mut Vec<FileId>, files: &ByFile<()>)
    requires { vec_len list.old + map.len files.now ≤ vec_capacity list.old }
    ensures { list.new.items ≡ list.old.items ++ files_at (map.keys files.now) }
{
    for number in files.numbers() {
        push(list, FileId(*number));
    }
}

impl Marks {
    pub fn new(alloc: Global) -> Marks
        ensures { result ≡ map.empty }
    {
        Marks {
            files: ByFile::new(alloc),
            room: Vec::new(alloc),
        }
    }

    pub fn mark(&mut self, file: FileId) -> Result<(), AllocError>
        ensures { OnOk result (self.new ≡ mark file self.old) }
    {
        if self.files.contains(file) {
            return Ok(());
        }
        self.room.push(file)?;
        self.files.insert(file, ())?;
        Ok(())
    }

    pub fn mark_if(&mut self, is_new: bool, file: FileId) -> Result<(), AllocError>
        ensures { OnOk result (self.new ≡ mark_if is_new file self.old) }
    {
        if is_new {
            return self.mark(file);
        }
        Ok(())
    }

    /// Takes all marks away, and answers the files in order, if there are some.
    pub fn take(&mut self) -> Option<Items<FileId>>
        ensures value { result ≡ taken self.old }
        ensures after { self.new ≡ map.empty }
    {
        if self.files.is_empty() {
            return None;
        }
        let alloc = *self.room.allocator();
        let files = mem::replace(&mut self.files, ByFile::new(alloc));
        let mut list = mem::replace(&mut self.room, Vec::new(alloc));
        list.clear();
        push_files(&mut list, &files);
        Some(Items::from_vec(list))
    }
}
