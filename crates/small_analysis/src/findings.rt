// What is wrong in a file, and its tests.
ghost use Rattle.std.specs.Prelude.{◌≡◌, ◌+◌, ◌++◌, ◌<◌, ◌≤◌, true, codes, length, Some, IfOk, OnOk};
ghost use Rattle.std.specs.FinMap as map;
ghost use Rattle.std.specs.String.Boundary.{IsSplitPoint};
ghost use Rattle.analysis_host.specs.Answers.{Answers, AreDiagnostics, AreTests, IfValue};
ghost use Rattle.small_analysis.specs.Defined.{defined_at, follows_fn, with_name};
ghost use Rattle.small_analysis.specs.Findings.{again_said, bracket_said, said, semantic_in, semantic_of, syntax_in, syntax_of, tests_of};
ghost use Rattle.small_analysis.specs.Names.{name_at, run_end, run_start};
ghost use Rattle.small_analysis.specs.Positions.{position_in};
ghost use Rattle.small_analysis.specs.Unmatched.{is_unmatched};

use crate::defined::follows_fn;
use crate::names::{name_at, run_end, run_start};
use crate::offsets::position_in;
use crate::unmatched::{is_unmatched, matched_marks};
use analysis_host::{Answer, GlobalStateSnapshot, Outcome};
use docs_vfs::FileId;
use lsp_types::Diagnostic;
use plain::{ByText, Items, Text};
use std::alloc::{AllocError, Global};
use text_core::{Position, PositionEncoding, Range, TextIndex};

/// The position of a place at which the text can be cut.
fn position_at(encoding: PositionEncoding, index: &TextIndex, place: u32) -> Position
    requires { IsSplitPoint index.now place }
    ensures { result ≡ position_in encoding index.now place }
{
    match position_in(encoding, index, place) {
        Some(position) => position,
        None => unreachable!(),
    }
}

/// What is said of the bytes from one place up to another.
fn said(
    alloc: Global,
    encoding: PositionEncoding,
    index: &TextIndex,
    severity: u8,
    from: u32,
    to: u32,
    message: Text,
) -> Result<Diagnostic, AllocError>
    requires from { IsSplitPoint index.now from }
    requires to { IsSplitPoint index.now to }
    ensures { IfOk result (λ diagnostic. diagnostic ≡ said encoding index.now severity from to message) }
{
    Ok(Diagnostic {
        range: Range {
            start: position_at(encoding, index, from),
            end: position_at(encoding, index, to),
        },
        severity: Some(severity),
        code: None,
        source: Some(Text::from_str(alloc, "ra_serve")?),
        message,
        related: Items::new(alloc),
    })
}

/// What is said of a bracket without partner.
fn bracket_said(
    alloc: Global,
    encoding: PositionEncoding,
    index: &TextIndex,
    place: u32,
) -> Result<Diagnostic, AllocError>
    requires from { IsSplitPoint index.now place }
    requires to { IsSplitPoint index.now (place + 1) }
    ensures { IfOk result (λ diagnostic. diagnostic ≡ said encoding index.now 1 place (place + 1) (codes "unmatched bracket")) }
{
    // It fits 32 bits.
    let _length = index.len();
    let message = Text::from_str(alloc, "unmatched bracket")?;
    said(alloc, encoding, index, 1, place, place + 1, message)
}

/// Says of a bracket that it has no partner.
#[tactic(auto, using(crate::proofs::UnmatchedLemmas::bracket_begins, crate::proofs::UnmatchedLemmas::unmatched_bracket))]
fn say_bracket(
    alloc: Global,
    encoding: PositionEncoding,
    index: &TextIndex,
    list: &mut Items<Diagnostic>,
    place: usize,
) -> Result<(), AllocError>
    requires { is_unmatched index.now place ≡ true }
    ensures { OnOk result (list.new ≡ list.old ++ bracket_said encoding index.now place) }
{
    // It fits 32 bits, and is UTF-8.
    let (_length, _text) = (index.len(), index.text());
    list.push(bracket_said(alloc, encoding, index, place as u32)?)?;
    Ok(())
}

/// What is wrong in a text by its syntax.
#[tactic(auto, using(crate::proofs::UnmatchedLemmas::said_next))]
fn syntax_in(
    alloc: Global,
    encoding: PositionEncoding,
    index: &TextIndex,
) -> Result<Items<Diagnostic>, AllocError>
    ensures { IfOk result (λ list. list ≡ syntax_in encoding index.now) }
{
    // It fits 32 bits.
    let _length = index.len();
    let text = index.text().as_bytes();
    let marks = matched_marks(alloc, text)?;
    let mut list = Items::new(alloc);
    for place in 0..text.len() {
        // Most places have none: what is said of one has a function of its own, which is entered for it alone.
        if is_unmatched(text, &marks, place) {
            say_bracket(alloc, encoding, index, &mut list, place)?;
        }
    }
    Ok(list)
}

/// What is said of the name that holds a place, which was defined before.
#[tactic(auto, using(crate::proofs::UnmatchedLemmas::name_splits_begin, crate::proofs::UnmatchedLemmas::name_splits_end))]
fn name_said(
    alloc: Global,
    encoding: PositionEncoding,
    index: &TextIndex,
    place: usize,
    name: &str,
) -> Result<Diagnostic, AllocError>
    requires within { place ≤ length index.now }
    requires name { name_at index.now place ≡ Some name.now }
    ensures { IfOk result (λ diagnostic. diagnostic
        ≡ said encoding index.now 2 (run_start index.now place) (run_end index.now place) (codes "duplicate name " ++ name.now)) }
{
    // It fits 32 bits.
    let _length = index.len();
    let text = index.text().as_bytes();
    let (start, end) = (run_start(text, place), run_end(text, place));
    let mut message = Text::from_str(alloc, "duplicate name ")?;
    message.push_str(name)?;
    said(alloc, encoding, index, 2, start as u32, end as u32, message)
}

/// Notes the name that holds a place, and says of it that it was defined before, where it was.
fn note_name(
    alloc: Global,
    encoding: PositionEncoding,
    index: &TextIndex,
    names: &mut ByText<Text, ()>,
    list: &mut Items<Diagnostic>,
    place: usize,
    name: &str,
) -> Result<(), AllocError>
    requires within { place ≤ length index.now }
    requires name { name_at index.now place ≡ Some name.now }
    ensures list { OnOk result (list.new ≡ list.old ++ again_said encoding index.now place names.old (Some name.now)) }
    ensures names { OnOk result (names.new ≡ with_name (Some name.now) names.old) }
{
    let was_defined = names.insert(Text::from_str(alloc, name)?, ())?.is_some();
    if was_defined {
        let diagnostic = name_said(alloc, encoding, index, place, name)?;
        list.push(diagnostic)?;
    }
    Ok(())
}

/// Notes the name that is defined at a place, if one is, and says of it that it was before, where it was.
fn note_defined(
    alloc: Global,
    encoding: PositionEncoding,
    index: &TextIndex,
    names: &mut ByText<Text, ()>,
    list: &mut Items<Diagnostic>,
    place: usize,
) -> Result<(), AllocError>
    requires within { place ≤ length index.now }
    requires follows { follows_fn index.now place ≡ true }
    ensures list { OnOk result (list.new ≡ list.old ++ again_said encoding index.now place names.old (defined_at index.now place)) }
    ensures names { OnOk result (names.new ≡ with_name (defined_at index.now place) names.old) }
{
    match name_at(index.text(), place) {
        Some(name) => note_name(alloc, encoding, index, names, list, place, name),
        None => Ok(()),
    }
}

/// What is wrong in a text by its names.
#[tactic(auto, using(crate::proofs::UnmatchedLemmas::said_next, crate::proofs::UnmatchedLemmas::defined_next))]
fn semantic_in(
    alloc: Global,
    encoding: PositionEncoding,
    index: &TextIndex,
) -> Result<Items<Diagnostic>, AllocError>
    ensures { IfOk result (λ list. list ≡ semantic_in encoding index.now) }
{
    let text = index.text();
    let mut names = ByText::new(alloc);
    let mut list = Items::new(alloc);
    for place in 0..text.len() {
        if follows_fn(text.as_bytes(), place) {
            note_defined(alloc, encoding, index, &mut names, &mut list, place)?;
        }
    }
    Ok(list)
}

/// That a file has no text.
fn not_text(alloc: Global) -> Result<Outcome, AllocError>
    ensures { IfOk result (λ outcome. outcome ≡ Outcome.Fault None (codes "not text")) }
{
    Ok(Outcome::Fault {
        code: None,
        message: Text::from_str(alloc, "not text")?,
    })
}

/// What is wrong in a file by its syntax: the brackets that have no partner.
pub(crate) fn syntax_of(
    alloc: Global,
    snapshot: &GlobalStateSnapshot,
    file: FileId,
) -> Result<Outcome, AllocError>
    ensures answers { IfOk result (Answers (syntax_of snapshot.now file) None) }
    ensures kind { IfOk result (IfValue AreDiagnostics) }
{
    match snapshot.file_index(file) {
        None => not_text(alloc),
        Some(index) => Ok(Outcome::Value(Answer::Diagnostics(syntax_in(
            alloc,
            snapshot.encoding(),
            index,
        )?))),
    }
}

/// What is wrong in a file by its meaning: the names of functions that come twice.
pub(crate) fn semantic_of(
    alloc: Global,
    snapshot: &GlobalStateSnapshot,
    file: FileId,
) -> Result<Outcome, AllocError>
    ensures answers { IfOk result (Answers (semantic_of snapshot.now file) None) }
    ensures kind { IfOk result (IfValue AreDiagnostics) }
{
    match snapshot.file_index(file) {
        None => not_text(alloc),
        Some(index) => Ok(Outcome::Value(Answer::Diagnostics(semantic_in(
            alloc,
            snapshot.encoding(),
            index,
        )?))),
    }
}

/// The tests of a file: none.
pub(crate) fn tests_of(
    alloc: Global,
    snapshot: &GlobalStateSnapshot,
    file: FileId,
) -> Result<Outcome, AllocError>
    ensures answers { IfOk result (Answers (tests_of snapshot.now file) None) }
    ensures kind { IfOk result (IfValue AreTests) }
{
    match snapshot.file_index(file) {
        None => not_text(alloc),
        Some(_) => Ok(Outcome::Value(Answer::Tests(Items::new(alloc)))),
    }
}
