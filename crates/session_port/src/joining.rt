// Answers, joined into the value of a job.
ghost use Rattle.std.specs.Prelude.{◌≡◌, ◌++◌, IfOk};
ghost use Rattle.std.specs.List.{flat_map};
ghost use Rattle.session_port.specs.Results.{first_value, joined, list_in, lists_of, roots_answered, tests_in, value_answering};

use crate::job::{JobKind, JobValue};
use crate::kinds::ValueKind;
use analysis_host::Answer;
use docs_vfs::{FileId, VfsPath};
use lsp_types::Diagnostic;
use plain::{Items, Json, NoMemory};
use std::alloc::Global;

/// Puts these items behind the others.
fn push_all<T: Drop>(into: &mut Items<T>, items: Items<T>) -> Result<(), NoMemory>
    ensures { IfOk result (λ _. into.new ≡ into.old ++ items) }
{
    for item in items.into_vec() {
        into.push(item)?;
    }
    Ok(())
}

fn list_in(alloc: Global, found: Answer) -> Items<Diagnostic>
    ensures { result ≡ list_in found }
{
    match found {
        Answer::Diagnostics(list) => list,
        other => {
            drop(other);
            Items::new(alloc)
        }
    }
}

fn tests_in(alloc: Global, found: Answer) -> Items<Json>
    ensures { result ≡ tests_in found }
{
    match found {
        Answer::Tests(tests) => tests,
        other => {
            drop(other);
            Items::new(alloc)
        }
    }
}

fn roots_in(alloc: Global, found: Answer) -> Items<VfsPath>
    ensures { result ≡ roots_answered found }
{
    match found {
        Answer::Roots(paths) => paths,
        other => {
            drop(other);
            Items::new(alloc)
        }
    }
}

/// The lists of answers, file by file.
fn lists_of(
    alloc: Global,
    files: &[FileId],
    found: Items<Answer>,
) -> Result<Items<(FileId, Items<Diagnostic>)>, NoMemory>
    ensures { IfOk result (λ lists. lists ≡ lists_of files.now found) }
{
    let mut lists = Items::new(alloc);
    let mut remaining = files;
    for answer in found.into_vec() {
        let Some((file, later)) = remaining.split_first() else {
            return Ok(lists);
        };
        lists.push((*file, list_in(alloc, answer)))?;
        remaining = later;
    }
    Ok(lists)
}

fn all_tests(alloc: Global, found: Items<Answer>) -> Result<Items<Json>, NoMemory>
    ensures { IfOk result (λ tests. tests ≡ flat_map tests_in found) }
{
    let mut tests = Items::new(alloc);
    for answer in found.into_vec() {
        push_all(&mut tests, tests_in(alloc, answer))?;
    }
    Ok(tests)
}

fn all_roots(alloc: Global, found: Items<Answer>) -> Result<Items<VfsPath>, NoMemory>
    ensures { IfOk result (λ roots. roots ≡ flat_map roots_answered found) }
{
    let mut roots = Items::new(alloc);
    for answer in found.into_vec() {
        push_all(&mut roots, roots_in(alloc, answer))?;
    }
    Ok(roots)
}

/// The value that an answer is by itself.
fn value_of(found: Answer) -> JobValue
    ensures { result ≡ value_answering found }
{
    match found {
        Answer::Json(value) => JobValue::Json(value),
        other => {
            drop(other);
            JobValue::Primed
        }
    }
}

/// The value that the first answer is, where one question was asked.
fn first_value(found: Items<Answer>) -> JobValue
    ensures { result ≡ first_value found }
{
    match found.into_vec().into_iter().next() {
        Some(first) => value_of(first),
        None => JobValue::Primed,
    }
}

/// The value of a job of this kind whose questions have these answers.
pub(crate) fn joined(
    alloc: Global,
    kind: &JobKind,
    found: Items<Answer>,
) -> Result<JobValue, NoMemory>
    ensures { IfOk result (λ value. value ≡ joined kind.now found) }
{
    match kind.facts().value {
        ValueKind::Diagnostics => Ok(JobValue::Diagnostics(lists_of(
            alloc,
            kind.listed_files(),
            found,
        )?)),
        ValueKind::Tests => Ok(JobValue::Tests(all_tests(alloc, found)?)),
        ValueKind::Roots => Ok(JobValue::Roots(all_roots(alloc, found)?)),
        _ => Ok(first_value(found)),
    }
}
