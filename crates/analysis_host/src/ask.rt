// Questions, and what they come to.
use docs_vfs::{FileId, VfsPath};
use lsp_types::Diagnostic;
use method_table::RowId;
use plain::{Items, Json, SharedJson, Text};

/// A question on a snapshot.
#[derive(Clone, Drop)]
pub enum Ask {
    /// What the request of this row answers.
    Request {
        row: RowId,
        params: SharedJson,
    },
    /// What these files add to the answer to the request of this row.
    Part {
        row: RowId,
        params: SharedJson,
        files: Items<FileId>,
    },
    /// What is wrong in a file by its syntax alone.
    Syntax(FileId),
    /// What is wrong in a file by its meaning.
    Semantic(FileId),
    /// The tests of a file.
    Tests(FileId),
    /// The root files of the crates that a file belongs to.
    CratesOf(FileId),
    /// To find out beforehand what later questions need.
    Prime,
}

/// The answer to a question, of the question's kind.
#[derive(Clone, Drop)]
pub enum Answer {
    /// The result of a request, or of a part of one.
    Json(Json),
    /// What is wrong in a file.
    Diagnostics(Items<Diagnostic>),
    /// The tests of a file, each as the client is to read it.
    Tests(Items<Json>),
    /// Where the root files of crates are.
    Roots(Items<VfsPath>),
    /// What later questions need is found out.
    Primed,
}

/// What a query comes to.
#[derive(Clone, Drop)]
pub enum Outcome {
    Value(Answer),
    /// Why there is no answer, as the client is to read it.
    Fault { code: Option<i32>, message: Text },
    /// The query stopped, since its poll gave this revision.
    Cancelled { saw: u64 },
}
