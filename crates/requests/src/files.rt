// The text that a request speaks of, and why it is refused.
ghost use Rattle.std.specs.Prelude.{◌≡◌, ◌++◌, codes, None, Ok, Err, IfOk, MatchResult, option_copied};
ghost use Rattle.analysis_host.specs.Answers.{Answers, IsPlainOutcome};
ghost use Rattle.requests.specs.Files.{malformed, nothing, refusal, text_at, text_of};

use analysis_host::{Answer, GlobalStateSnapshot, Outcome};
use docs_vfs::{VfsPath, path_named};
use plain::{Json, NoMemory, Text};
use std::alloc::Global;
use text_core::TextIndex;

/// A fault without code.
pub fn refusal(message: Text) -> Outcome
    ensures answers { Answers (refusal message) None result }
    ensures plain { IsPlainOutcome result }
{
    Outcome::Fault {
        code: None,
        message,
    }
}

/// The fault of params that can't be read.
pub fn malformed(alloc: Global) -> Result<Outcome, NoMemory>
    ensures answers { IfOk result (Answers malformed None) }
    ensures plain { IfOk result IsPlainOutcome }
{
    Ok(refusal(Text::from_str(alloc, "invalid params")?))
}

/// The answer null.
#[tactic(auto, unfolding(plain::specs::Plain::most_levels))]
pub fn nothing() -> Outcome
    ensures answers { Answers nothing None result }
    ensures plain { IsPlainOutcome result }
{
    Outcome::Value(Answer::Json(Json::null()))
}

/// That a file is not there.
fn not_found(alloc: Global, path: &VfsPath) -> Result<Text, NoMemory>
    ensures { IfOk result (λ message. message ≡ codes "file not found: " ++ path.now) }
{
    let mut message = Text::from_str(alloc, "file not found: ")?;
    message.push_str(path.as_str())?;
    Ok(message)
}

/// The text of the file of a path, with its lines, or none where it is excluded, or the message that there is no such
/// file.
fn text_in<'a>(
    alloc: Global,
    snapshot: &'a GlobalStateSnapshot,
    path: &VfsPath,
) -> Result<Result<Option<&'a TextIndex>, Text>, NoMemory>
    ensures { IfOk result (λ found. MatchResult found
        (λ text. text_at snapshot.now (Ok path.now) ≡ Ok (option_copied text))
        (λ message. text_at snapshot.now (Ok path.now) ≡ Err message)) }
{
    match snapshot.path_index(path) {
        Ok(text) => Ok(Ok(text)),
        Err(_) => Ok(Err(not_found(alloc, path)?)),
    }
}

/// The text of the file that a URL names, with its lines, or none where it is excluded, or the message that there is no
/// such file.
pub fn text_of<'a>(
    alloc: Global,
    snapshot: &'a GlobalStateSnapshot,
    uri: &str,
) -> Result<Result<Option<&'a TextIndex>, Text>, NoMemory>
    ensures { IfOk result (λ found. MatchResult found
        (λ text. text_of snapshot.now uri.now ≡ Ok (option_copied text))
        (λ message. text_of snapshot.now uri.now ≡ Err message)) }
{
    match path_named(alloc, uri)? {
        Some(path) => text_in(alloc, snapshot, &path),
        None => Ok(Err(Text::from_str(alloc, "url is not a file")?)),
    }
}
