// How far a loader is with the files of the roots.
ghost use Rattle.std.specs.Prelude.{◌≡◌, ◌++◌, min, IfOk, OnOk};
ghost use Rattle.std.specs.Option.{option_copied};
ghost use Rattle.activities.specs.CheckNames.{behind};
ghost use Rattle.activities.specs.Scanning.{folder_text, message_told, relative_to, scan_begun, scan_ended, scan_reported, scan_text, scans_behind, scans_told, step_told, title, told_again, without_slash};

use crate::check_names::behind;
use crate::telling::Telling;
use docs_vfs::VfsPath;
use notify::Progress;
use plain::{Items, NoMemory, Text};
use session_port::{LoaderMsg, LoadingProgress};
use std::alloc::Global;

fn title(alloc: Global) -> Result<Text, NoMemory>
    ensures { IfOk result (λ text. text ≡ title) }
{
    Text::from_str(alloc, "Roots Scanned")
}

fn without_slash(text: &str) -> &str
    ensures { result.now ≡ without_slash text.now }
{
    text.strip_prefix("/").unwrap_or(text)
}

// A folder relative to the root path, where it lies in it.
fn relative_to<'a>(root: &VfsPath, dir: &'a VfsPath) -> &'a str
    ensures { result.now ≡ relative_to root.now dir.now }
{
    let text = dir.as_str();
    if !dir.starts_with(root) {
        return text;
    }
    match behind(root.as_str(), text) {
        None => text,
        Some(rest) => without_slash(rest),
    }
}

// Adds the folder that is read, where it is known.
fn push_folder(text: &mut Text, root: &VfsPath, dir: &Option<VfsPath>) -> Result<(), NoMemory>
    ensures { OnOk result (text.new ≡ text.old ++ folder_text root.now dir.now) }
{
    if let Some(dir) = dir {
        text.push_str(": ")?;
        text.push_str(relative_to(root, dir))?;
    }
    Ok(())
}

// So many of so many files are done.
fn scan_text(
    alloc: Global,
    root: &VfsPath,
    done: u64,
    total: u64,
    dir: &Option<VfsPath>,
) -> Result<Text, NoMemory>
    ensures { IfOk result (λ text. text ≡ scan_text root.now done total dir.now) }
{
    let mut text = Text::from_string(format!(in alloc; "{done}/{total}")?);
    push_folder(&mut text, root, dir)?;
    Ok(text)
}

fn scan_begun(
    alloc: Global,
    root: &VfsPath,
    total: u64,
    dir: &Option<VfsPath>,
) -> Result<Telling, NoMemory>
    ensures { IfOk result (λ told. told ≡ scan_begun root.now total dir.now) }
{
    Ok(Telling::Begin {
        title: title(alloc)?,
        token: None,
        message: Some(scan_text(alloc, root, 0, total, dir)?),
        percentage: Some(Progress::fraction(0, total)),
    })
}

fn scan_reported(
    alloc: Global,
    root: &VfsPath,
    done: u64,
    total: u64,
    dir: &Option<VfsPath>,
) -> Result<Telling, NoMemory>
    ensures { IfOk result (λ told. told ≡ scan_reported root.now done total dir.now) }
{
    let done = done.min(total);
    Ok(Telling::Report {
        title: title(alloc)?,
        token: None,
        message: Some(scan_text(alloc, root, done, total, dir)?),
        percentage: Some(Progress::fraction(done, total)),
    })
}

fn scan_ended(
    alloc: Global,
    root: &VfsPath,
    total: u64,
    dir: &Option<VfsPath>,
) -> Result<Telling, NoMemory>
    ensures { IfOk result (λ told. told ≡ scan_ended root.now total dir.now) }
{
    Ok(Telling::End {
        title: title(alloc)?,
        token: None,
        message: Some(scan_text(alloc, root, total, total, dir)?),
    })
}

// Tells of one step. Answers the report that is the last one then.
fn tell_step(
    alloc: Global,
    root: &VfsPath,
    total: u64,
    step: LoadingProgress,
    dir: &Option<VfsPath>,
    last: Option<Telling>,
    into: &mut Items<Telling>,
) -> Result<Option<Telling>, NoMemory>
    ensures value { IfOk result (λ now. now ≡ (step_told root.now total step dir.now last).1) }
    ensures told { OnOk result (into.new ≡ into.old ++ (step_told root.now total step dir.now last).0) }
{
    match step {
        LoadingProgress::Started => {
            into.push(scan_begun(alloc, root, total, dir)?)?;
            Ok(last)
        }
        LoadingProgress::Progress(done) => {
            let report = scan_reported(alloc, root, done, total, dir)?;
            match last {
                None => into.push(scan_reported(alloc, root, done, total, dir)?)?,
                Some(last) => drop(last),
            }
            Ok(Some(report))
        }
        LoadingProgress::Finished => {
            into.push(scan_ended(alloc, root, total, dir)?)?;
            Ok(None)
        }
    }
}

// The same of one message.
fn tell_message(
    alloc: Global,
    root: &VfsPath,
    message: &LoaderMsg,
    last: Option<Telling>,
    into: &mut Items<Telling>,
) -> Result<Option<Telling>, NoMemory>
    ensures value { IfOk result (λ now. now ≡ (message_told root.now message.now last).1) }
    ensures told { OnOk result (into.new ≡ into.old ++ (message_told root.now message.now last).0) }
{
    match message {
        LoaderMsg::Changed { .. } | LoaderMsg::Loaded { .. } => Ok(last),
        LoaderMsg::Progress {
            n_total,
            n_done,
            dir,
            ..
        } => tell_step(alloc, root, *n_total, *n_done, dir, last, into),
    }
}

fn tell_again(into: &mut Items<Telling>, last: Option<Telling>) -> Result<(), NoMemory>
    ensures { OnOk result (into.new ≡ into.old ++ told_again last) }
{
    if let Some(last) = last {
        into.push(last)?;
    }
    Ok(())
}

// Tells of messages, one after another.
fn tell_all(
    alloc: Global,
    root: &VfsPath,
    messages: &[LoaderMsg],
    into: &mut Items<Telling>,
) -> Result<(), NoMemory>
    ensures { OnOk result (into.new ≡ into.old ++ scans_told root.now messages.now) }
{
    let mut last = None;
    for message in messages {
        last = tell_message(alloc, root, message, last, into)?;
    }
    tell_again(into, last)
}

/// What a batch of a loader's messages tells of how far it is with the files: folders are told relative to the root path.
pub fn scans_told(
    alloc: Global,
    root: &VfsPath,
    messages: &[LoaderMsg],
) -> Result<Items<Telling>, NoMemory>
    ensures { IfOk result (λ tellings. tellings ≡ scans_told root.now messages.now) }
{
    let mut tellings = Items::new(alloc);
    tell_all(alloc, root, messages, &mut tellings)?;
    Ok(tellings)
}
