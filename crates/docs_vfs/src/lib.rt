//! Paths of files, the file URLs that name them, and the tables that are kept by path.
#![tactic(auto)]

mod arc_bytes;
mod by_path;
mod file_kinds;
mod file_laws;
mod file_table;
mod file_url;
mod includes;
mod mem_docs;
mod path;
mod path_laws;
mod path_table;
mod path_text;
mod relative;
mod root_laws;
mod shared_bytes;
mod source_roots;

pub use by_path::ByPath;
pub use file_kinds::{ChangeKind, ChangedFile, FileExcluded, FileId, Replaced, TableFault};
pub use file_laws::{
    calls_change_one_path, changes_are_the_difference, numbers_are_kept, runs_give_the_difference,
    runs_keep_numbers_and_marks,
};
pub use file_table::FileTable;
pub use file_url::{
    UrlFault, equal_urls_name_equal_paths, path_named, path_of_url, url_escapes_are_listed,
    url_names_its_path, url_of_path,
};
pub use mem_docs::{DocumentData, MemDocs, Paths};
pub use path::VfsPath;
pub use path_laws::resolved_texts_are_paths;
pub use path_table::PathTable;
pub use plain::NoMemory;
pub use relative::{EmptySegments, parent_text};
pub use root_laws::the_longest_root_is_chosen;
pub use shared_bytes::SharedBytes;
pub use source_roots::{Root, SourceRoots};
