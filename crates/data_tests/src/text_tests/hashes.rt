// Hashes of completions.
use plain::{Items, Text};
use std::alloc::Global;
use text_core::{
    HashedItem, PostfixMatch, RefMode, Relevance, ReturnType, TypeMatch, completion_item_hash,
};

/// An item without names.
fn nameless(alloc: Global) -> HashedItem {
    HashedItem {
        is_snippet: false,
        deprecated: false,
        trigger_call_info: false,
        label: Text::new(alloc),
        detail_left: None,
        detail_right: None,
        kind_tag: Text::new(alloc),
        lookup: Text::new(alloc),
        detail: None,
        relevance: Relevance {
            exact_name_match: false,
            is_local: false,
            is_name_already_imported: false,
            requires_import: false,
            is_private_editable: false,
            type_match: None,
            trait_: None,
            postfix_match: None,
            function: None,
        },
        ref_match: None,
        import_to_add: Items::new(alloc),
    }
}

/// Gives an item its names.
fn name(item: &mut HashedItem, label: &str, kind_tag: &str) -> Option<()> {
    item.label.push_str(label).ok()?;
    item.lookup.push_str(label).ok()?;
    item.kind_tag.push_str(kind_tag).ok()
}

/// Makes an item a method that brings in two paths, of which one is empty.
fn make_method(alloc: Global, item: &mut HashedItem) -> Option<()> {
    name(item, "push", "me")?;
    item.is_snippet = true;
    item.trigger_call_info = true;
    item.relevance = Relevance {
        exact_name_match: true,
        is_local: false,
        is_name_already_imported: true,
        requires_import: false,
        is_private_editable: true,
        type_match: Some(TypeMatch::Exact),
        trait_: Some((false, true)),
        postfix_match: Some(PostfixMatch::NonExact),
        function: Some((true, false, ReturnType::Builder)),
    };
    item.ref_match = Some((RefMode::Dereference, 70000));
    drop(
        item.detail_left
            .replace(Text::from_str(alloc, "(..)").ok()?),
    );
    drop(item.detail.replace(Text::from_str(alloc, "größer").ok()?));
    item.import_to_add
        .push(Text::from_str(alloc, "a::b").ok()?)
        .ok()?;
    item.import_to_add.push(Text::new(alloc)).ok()
}

/// The hash of a method where this is so, else of a keyword.
fn hash(alloc: Global, is_method: bool) -> Option<[u8; 20]> {
    let mut item = nameless(alloc);
    let made = if is_method {
        make_method(alloc, &mut item)
    } else {
        name(&mut item, "ab", "kw")
    };
    let hash = completion_item_hash(&item, is_method);
    drop(item);
    made?;
    Some(hash)
}

const KEYWORD: &[u8; 55] =
    b"\0\0\0\0\x02\0\0\0\0\0\0\0ab\0\0\x02\0\0\0\0\0\0\0kw\x02\0\0\0\0\0\0\0ab\0\0\0\0\0\0\0\0\0\0\0\0\0\0\0\0\0\0\0";

const METHOD_HASH: [u8; 20] = [
    0xb0, 0x1c, 0x99, 0xe6, 0xcf, 0x7a, 0x61, 0xed, 0xfe, 0x10, 0xa7, 0xa6, 0xa4, 0x1b, 0xf4, 0x76,
    0xaa, 0xa9, 0xc7, 0x02,
];

/// Whether the hash of a keyword is that of its bytes.
pub fn is_keyword(alloc: Global) -> Option<bool> {
    Some(hash(alloc, false)? == sha1::Sha1::digest(KEYWORD))
}

/// Whether the hash of a method is this one.
pub fn is_method(alloc: Global) -> Option<bool> {
    Some(hash(alloc, true)? == METHOD_HASH)
}
