ghost use Rattle.std.specs.Prelude.{◌≡◌, IfOk, string_bytes, option_map, Some};
ghost use Rattle.serde_json.specs.View.{view, items_view, members_view};
ghost use Rattle.serde_json.specs.Find.{as_str};
ghost use Rattle.ra_settings.specs.Paths.{resolve};
ghost use Rattle.ra_settings.specs.Read.{read, read_truth, read_text, read_text_or_null, text_or_null, read_watcher, read_paths, read_env, read_small, texts_of, paths_of, env_of, env_item, read_strategy, read_threads, texts_in, texts_or_null, read_texts_or_null, read_features, features_of, value_or, read_projects, typed_projects, is_project, are_projects, project_of, projects_of, read_lists, lists_of, list_item, read_discover, discover_or_null, discover_in, texts_at, text_at};

use crate::floats::members_have_float;
use crate::path_text::resolve;
use crate::row::Kind;
use crate::value::{
    CargoFeatures, DiscoverConfig, FilesWatcher, InvocationStrategy, LinkedProject, Reading,
    Reason, SettingValue,
};
use docs_vfs::VfsPath;
use plain::{Items, Json, Text};
use serde_json::{Map, Value};
use std::alloc::{AllocError, Global};

/// What a value of a kind is read as.
pub fn read_value(
    alloc: Global,
    kind: Kind,
    root: &VfsPath,
    value: &Value,
) -> Result<Reading, AllocError>
    ensures { IfOk result (λ r. r ≡ read kind root.now (view value.now)) }
{
    match kind {
        Kind::Truth => Ok(read_truth(value)),
        Kind::Text => read_text(alloc, value),
        Kind::TextOrNull => read_text_or_null(alloc, value),
        Kind::TextsOrNull => read_texts_or_null(alloc, value),
        Kind::Watcher => Ok(read_watcher(value)),
        Kind::Strategy => Ok(read_strategy(value)),
        Kind::Paths => read_paths(alloc, root, value),
        Kind::Projects => read_projects(alloc, root, value),
        Kind::Features => read_features(alloc, value),
        Kind::Env => read_env(alloc, value),
        Kind::Lists => read_lists(alloc, value),
        Kind::Small => Ok(read_small(value)),
        Kind::Threads => Ok(read_threads(value)),
        Kind::Discover => read_discover(alloc, value),
    }
}

fn read_truth(value: &Value) -> Reading
    ensures { result ≡ read_truth (view value.now) }
{
    match value.as_bool() {
        Some(truth) => Reading::Value(SettingValue::Truth(truth)),
        None => Reading::Refused(Reason::WrongType),
    }
}

fn read_text(alloc: Global, value: &Value) -> Result<Reading, AllocError>
    ensures { IfOk result (λ r. r ≡ read_text (view value.now)) }
{
    match value.as_str() {
        Some(text) => Ok(Reading::Value(SettingValue::Text(Text::from_str(alloc, text)?))),
        None => Ok(Reading::Refused(Reason::WrongType)),
    }
}

fn read_text_or_null(alloc: Global, value: &Value) -> Result<Reading, AllocError>
    ensures { IfOk result (λ r. r ≡ read_text_or_null (view value.now)) }
{
    match text_or_null(alloc, value)? {
        Some(text) => Ok(Reading::Value(SettingValue::TextOrNull(text))),
        None => Ok(Reading::Refused(Reason::WrongType)),
    }
}

/// The text, or none for null.
fn text_or_null(alloc: Global, value: &Value) -> Result<Option<Option<Text>>, AllocError>
    ensures { IfOk result (λ t. t ≡ text_or_null (view value.now)) }
{
    match value {
        Value::Null => Ok(Some(None)),
        Value::String(text) => Ok(Some(Some(Text::from_str(alloc, text.as_str())?))),
        _ => Ok(None),
    }
}

fn read_watcher(value: &Value) -> Reading
    ensures { result ≡ read_watcher (view value.now) }
{
    match value.as_str() {
        None => Reading::Refused(Reason::WrongType),
        Some(text) if text == "client" => {
            Reading::Value(SettingValue::Watcher(FilesWatcher::Client))
        }
        Some(text) if text == "server" => {
            Reading::Value(SettingValue::Watcher(FilesWatcher::Server))
        }
        Some(_) => Reading::Refused(Reason::UnknownValue),
    }
}

fn read_small(value: &Value) -> Reading
    ensures { result ≡ read_small (view value.now) }
{
    match value.as_u64() {
        Some(n) if n < 256 => Reading::Value(SettingValue::Small(n as u8)),
        Some(_) => Reading::Refused(Reason::UnknownValue),
        None if value.is_i64() => Reading::Refused(Reason::UnknownValue),
        None => Reading::Refused(Reason::WrongType),
    }
}

fn read_paths(alloc: Global, root: &VfsPath, value: &Value) -> Result<Reading, AllocError>
    ensures { IfOk result (λ r. r ≡ read_paths root.now (view value.now)) }
{
    let Some(texts) = texts_in(alloc, value)? else {
        return Ok(Reading::Refused(Reason::WrongType));
    };
    match paths_of(alloc, root, texts.as_slice())? {
        Some(paths) => Ok(Reading::Value(SettingValue::Paths(paths))),
        None => Ok(Reading::Refused(Reason::UnknownValue)),
    }
}

fn read_env(alloc: Global, value: &Value) -> Result<Reading, AllocError>
    ensures { IfOk result (λ r. r ≡ read_env (view value.now)) }
{
    let Some(map) = value.as_object() else {
        return Ok(Reading::Refused(Reason::WrongType));
    };
    match env_of(alloc, map)? {
        Some(env) => Ok(Reading::Value(SettingValue::Env(env))),
        None => Ok(Reading::Refused(Reason::WrongType)),
    }
}

/// The texts of a list, or none where an item is no text.
fn texts_of(alloc: Global, list: &[Value]) -> Result<Option<Items<Text>>, AllocError>
    ensures { IfOk result (λ texts. texts ≡ texts_of (items_view list.now)) }
{
    let mut texts = Items::new(alloc);
    for item in list {
        match item.as_str() {
            Some(text) => texts.push(Text::from_str(alloc, text)?)?,
            None => return Ok(None),
        }
    }
    Ok(Some(texts))
}

/// The paths that texts are, or none where one is no path.
fn paths_of(
    alloc: Global,
    root: &VfsPath,
    texts: &[Text],
) -> Result<Option<Items<VfsPath>>, AllocError>
    ensures { IfOk result (λ paths. paths ≡ paths_of root.now texts.now) }
{
    let mut paths = Items::new(alloc);
    for text in texts {
        match resolve(root, text.as_str())? {
            Some(path) => paths.push(path)?,
            None => return Ok(None),
        }
    }
    Ok(Some(paths))
}

/// The members of a map of texts or null, or none where a member is neither.
fn env_of(
    alloc: Global,
    map: &Map<String, Value>,
) -> Result<Option<Items<(Text, Option<Text>)>>, AllocError>
    ensures { IfOk result (λ env. env ≡ env_of (members_view map.now.entries)) }
{
    let mut env = Items::new(alloc);
    for (name, value) in map.iter() {
        match env_item(alloc, name, value)? {
            Some(item) => env.push(item)?,
            None => return Ok(None),
        }
    }
    Ok(Some(env))
}

fn env_item(
    alloc: Global,
    name: &String,
    value: &Value,
) -> Result<Option<(Text, Option<Text>)>, AllocError>
    ensures { IfOk result (λ item. item ≡ env_item (string_bytes name.now) (view value.now)) }
{
    match text_or_null(alloc, value)? {
        Some(text) => Ok(Some((Text::from_str(alloc, name.as_str())?, text))),
        None => Ok(None),
    }
}

fn read_strategy(value: &Value) -> Reading
    ensures { result ≡ read_strategy (view value.now) }
{
    match value.as_str() {
        None => Reading::Refused(Reason::WrongType),
        Some(text) if text == "per_workspace" => {
            Reading::Value(SettingValue::Strategy(InvocationStrategy::PerWorkspace))
        }
        Some(text) if text == "once" => {
            Reading::Value(SettingValue::Strategy(InvocationStrategy::Once))
        }
        Some(_) => Reading::Refused(Reason::UnknownValue),
    }
}

fn read_threads(value: &Value) -> Reading
    ensures { result ≡ read_threads (view value.now) }
{
    if value.is_null() {
        return Reading::Value(SettingValue::Threads(None));
    }
    match value.as_u64() {
        Some(n) if n >= 1 && n <= 64 => Reading::Value(SettingValue::Threads(Some(n as u32))),
        Some(_) => Reading::Refused(Reason::UnknownValue),
        None if value.is_i64() => Reading::Refused(Reason::UnknownValue),
        None => Reading::Refused(Reason::WrongType),
    }
}

/// The texts of a value that is a list of texts.
fn texts_in(alloc: Global, value: &Value) -> Result<Option<Items<Text>>, AllocError>
    ensures { IfOk result (λ texts. texts ≡ texts_in (view value.now)) }
{
    match value.as_array() {
        Some(list) => texts_of(alloc, list.as_slice()),
        None => Ok(None),
    }
}

fn read_texts_or_null(alloc: Global, value: &Value) -> Result<Reading, AllocError>
    ensures { IfOk result (λ r. r ≡ read_texts_or_null (view value.now)) }
{
    match texts_or_null(alloc, value)? {
        Some(texts) => Ok(Reading::Value(SettingValue::TextsOrNull(texts))),
        None => Ok(Reading::Refused(Reason::WrongType)),
    }
}

/// The texts, or none for null.
fn texts_or_null(alloc: Global, value: &Value) -> Result<Option<Option<Items<Text>>>, AllocError>
    ensures { IfOk result (λ t. t ≡ texts_or_null (view value.now)) }
{
    match value {
        Value::Null => Ok(Some(None)),
        Value::Array(list) => some_texts(alloc, list.as_slice()),
        _ => Ok(None),
    }
}

fn some_texts(alloc: Global, list: &[Value]) -> Result<Option<Option<Items<Text>>>, AllocError>
    ensures { IfOk result (λ t. t ≡ option_map Some (texts_of (items_view list.now))) }
{
    match texts_of(alloc, list)? {
        Some(texts) => Ok(Some(Some(texts))),
        None => Ok(None),
    }
}

fn read_features(alloc: Global, value: &Value) -> Result<Reading, AllocError>
    ensures { IfOk result (λ r. r ≡ read_features (view value.now)) }
{
    match value {
        Value::String(text) => Ok(features_of(text.as_str())),
        Value::Array(list) => selected_features(alloc, list.as_slice()),
        _ => Ok(Reading::Refused(Reason::WrongType)),
    }
}

fn features_of(text: &str) -> Reading
    ensures { result ≡ features_of text.now }
{
    if text == "all" {
        Reading::Value(SettingValue::Features(CargoFeatures::All))
    } else {
        Reading::Refused(Reason::UnknownValue)
    }
}

fn selected_features(alloc: Global, list: &[Value]) -> Result<Reading, AllocError>
    ensures { IfOk result (λ r. r
        ≡ value_or Reason.WrongType (λ ts. SettingValue.Features (CargoFeatures.Selected ts)) (texts_of (items_view list.now))) }
{
    match texts_of(alloc, list)? {
        Some(texts) => Ok(Reading::Value(SettingValue::Features(CargoFeatures::Selected(texts)))),
        None => Ok(Reading::Refused(Reason::WrongType)),
    }
}

fn read_projects(alloc: Global, root: &VfsPath, value: &Value) -> Result<Reading, AllocError>
    ensures { IfOk result (λ r. r ≡ read_projects root.now (view value.now)) }
{
    match value.as_array() {
        Some(list) => typed_projects(alloc, root, list.as_slice()),
        None => Ok(Reading::Refused(Reason::WrongType)),
    }
}

fn typed_projects(alloc: Global, root: &VfsPath, list: &[Value]) -> Result<Reading, AllocError>
    ensures { IfOk result (λ r. r ≡ typed_projects root.now (items_view list.now)) }
{
    if !are_projects(list) {
        return Ok(Reading::Refused(Reason::WrongType));
    }
    match projects_of(alloc, root, list)? {
        Some(projects) => Ok(Reading::Value(SettingValue::Projects(projects))),
        None => Ok(Reading::Refused(Reason::UnknownValue)),
    }
}

/// Whether a value has the type of a project: a text, or an object without floats.
fn is_project(value: &Value) -> bool
    ensures { result ≡ is_project (view value.now) }
{
    match value {
        Value::String(_) => true,
        Value::Object(members) => !members_have_float(members),
        _ => false,
    }
}

fn are_projects(list: &[Value]) -> bool
    ensures { result ≡ are_projects (items_view list.now) }
{
    for item in list {
        if !is_project(item) {
            return false;
        }
    }
    true
}

fn manifest_of(root: &VfsPath, text: &str) -> Result<Option<LinkedProject>, AllocError>
    ensures { IfOk result (λ p. p ≡ option_map LinkedProject.ProjectManifest (resolve root.now text.now)) }
{
    match resolve(root, text)? {
        Some(path) => Ok(Some(LinkedProject::ProjectManifest(path))),
        None => Ok(None),
    }
}

fn project_of(
    alloc: Global,
    root: &VfsPath,
    value: &Value,
) -> Result<Option<LinkedProject>, AllocError>
    ensures { IfOk result (λ p. p ≡ project_of root.now (view value.now)) }
{
    match value {
        Value::String(text) => manifest_of(root, text.as_str()),
        Value::Object(_) => Ok(Some(LinkedProject::InlineProjectJson {
            project: Json::new(value.clone()?),
            buildfiles: Items::new(alloc),
        })),
        _ => Ok(None),
    }
}

/// The projects that values are, or none where a text is no path.
fn projects_of(
    alloc: Global,
    root: &VfsPath,
    list: &[Value],
) -> Result<Option<Items<LinkedProject>>, AllocError>
    ensures { IfOk result (λ projects. projects ≡ projects_of root.now (items_view list.now)) }
{
    let mut projects = Items::new(alloc);
    for item in list {
        match project_of(alloc, root, item)? {
            Some(project) => projects.push(project)?,
            None => return Ok(None),
        }
    }
    Ok(Some(projects))
}

fn read_lists(alloc: Global, value: &Value) -> Result<Reading, AllocError>
    ensures { IfOk result (λ r. r ≡ read_lists (view value.now)) }
{
    let Some(map) = value.as_object() else {
        return Ok(Reading::Refused(Reason::WrongType));
    };
    match lists_of(alloc, map)? {
        Some(lists) => Ok(Reading::Value(SettingValue::Lists(lists))),
        None => Ok(Reading::Refused(Reason::WrongType)),
    }
}

/// The members of a map of lists of texts, or none where a member is no such list.
fn lists_of(
    alloc: Global,
    map: &Map<String, Value>,
) -> Result<Option<Items<(Text, Items<Text>)>>, AllocError>
    ensures { IfOk result (λ lists. lists ≡ lists_of (members_view map.now.entries)) }
{
    let mut lists = Items::new(alloc);
    for (name, value) in map.iter() {
        match list_item(alloc, name, value)? {
            Some(item) => lists.push(item)?,
            None => return Ok(None),
        }
    }
    Ok(Some(lists))
}

fn list_item(
    alloc: Global,
    name: &String,
    value: &Value,
) -> Result<Option<(Text, Items<Text>)>, AllocError>
    ensures { IfOk result (λ item. item ≡ list_item (string_bytes name.now) (view value.now)) }
{
    match texts_in(alloc, value)? {
        Some(texts) => Ok(Some((Text::from_str(alloc, name.as_str())?, texts))),
        None => Ok(None),
    }
}

fn read_discover(alloc: Global, value: &Value) -> Result<Reading, AllocError>
    ensures { IfOk result (λ r. r ≡ read_discover (view value.now)) }
{
    match discover_or_null(alloc, value)? {
        Some(discover) => Ok(Reading::Value(SettingValue::Discover(discover))),
        None => Ok(Reading::Refused(Reason::WrongType)),
    }
}

fn discover_or_null(
    alloc: Global,
    value: &Value,
) -> Result<Option<Option<DiscoverConfig>>, AllocError>
    ensures { IfOk result (λ d. d ≡ discover_or_null (view value.now)) }
{
    match value {
        Value::Null => Ok(Some(None)),
        Value::Object(members) => {
            if members_have_float(members) {
                return Ok(None);
            }
            some_discover(alloc, value)
        }
        _ => Ok(None),
    }
}

fn some_discover(alloc: Global, value: &Value) -> Result<Option<Option<DiscoverConfig>>, AllocError>
    ensures { IfOk result (λ d. d ≡ option_map Some (discover_in (view value.now))) }
{
    let Some(command) = texts_at(alloc, value, "command")? else {
        return Ok(None);
    };
    let Some(progress_label) = text_at(alloc, value, "progressLabel")? else {
        return Ok(None);
    };
    let Some(files_to_watch) = texts_at(alloc, value, "filesToWatch")? else {
        return Ok(None);
    };
    Ok(Some(Some(DiscoverConfig {
        command,
        progress_label,
        files_to_watch,
    })))
}

fn texts_at(alloc: Global, value: &Value, name: &str) -> Result<Option<Items<Text>>, AllocError>
    ensures { IfOk result (λ texts. texts ≡ texts_at name.now (view value.now)) }
{
    match value.get(name) {
        Some(inner) => texts_in(alloc, inner),
        None => Ok(None),
    }
}

fn text_at(alloc: Global, value: &Value, name: &str) -> Result<Option<Text>, AllocError>
    ensures { IfOk result (λ text. text ≡ text_at name.now (view value.now)) }
{
    match value.get(name) {
        Some(inner) => text_in(alloc, inner),
        None => Ok(None),
    }
}

fn text_in(alloc: Global, value: &Value) -> Result<Option<Text>, AllocError>
    ensures { IfOk result (λ text. text ≡ as_str (view value.now)) }
{
    match value.as_str() {
        Some(text) => Ok(Some(Text::from_str(alloc, text)?)),
        None => Ok(None),
    }
}
