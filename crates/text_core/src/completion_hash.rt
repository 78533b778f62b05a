// The hash of a completion item.
ghost use Rattle.std.specs.Prelude.{◌≡◌, ◌++◌, [], ◌∷◌, ℕ, Bool, List, length};
ghost use Rattle.sha1.specs.Sha1.{sha1, Holds};
ghost use Rattle.text_core.specs.Hashed.{flag, text_bytes, optional, type_match, postfix_match, return_type, ref_mode, trait_bytes, function_bytes, ref_bytes, truth_bytes, relevance_bytes, texts_bytes, head_bytes, name_bytes, item_bytes, IsShort};
ghost use Rattle.text_core.specs.declared.completion.HashedItem.{HashedItem};

use crate::completion::{HashedItem, PostfixMatch, RefMode, Relevance, ReturnType, TypeMatch};
use plain::{Items, Text};
use sha1::Sha1;

fn type_match(found: Option<TypeMatch>) -> u8
    ensures { result ≡ type_match found }
{
    match found {
        None => 0,
        Some(TypeMatch::CouldUnify) => 1,
        Some(TypeMatch::Exact) => 2,
    }
}

fn postfix_match(found: Option<PostfixMatch>) -> u8
    ensures { result ≡ postfix_match found }
{
    match found {
        None => 0,
        Some(PostfixMatch::NonExact) => 1,
        Some(PostfixMatch::Exact) => 2,
    }
}

fn return_type(kind: ReturnType) -> u8
    ensures { result ≡ return_type kind }
{
    match kind {
        ReturnType::Other => 0,
        ReturnType::DirectConstructor => 1,
        ReturnType::Constructor => 2,
        ReturnType::Builder => 3,
    }
}

fn ref_mode(mode: RefMode) -> u8
    ensures { result ≡ ref_mode mode }
{
    match mode {
        RefMode::Shared => 0,
        RefMode::Mut => 1,
        RefMode::Dereference => 2,
    }
}

fn feed_byte(hasher: &mut Sha1, byte: u8)
    ensures { (m : List ℕ) → Holds hasher.old m → Holds hasher.new (m ++ byte ∷ []) }
{
    hasher.update(&[byte]);
}

fn feed_flag(hasher: &mut Sha1, set: bool)
    ensures { (m : List ℕ) → Holds hasher.old m → Holds hasher.new (m ++ flag set) }
{
    feed_byte(hasher, if set { 1 } else { 0 });
}

fn feed_text(hasher: &mut Sha1, text: &str)
    ensures { (m : List ℕ) → Holds hasher.old m → Holds hasher.new (m ++ text_bytes text.now) }
{
    hasher.update(&(text.len() as u64).to_le_bytes());
    hasher.update(text.as_bytes());
}

fn feed_optional(hasher: &mut Sha1, text: &Option<Text>)
    ensures { (m : List ℕ) → Holds hasher.old m → Holds hasher.new (m ++ optional text_bytes text.now) }
{
    match text {
        None => feed_byte(hasher, 0),
        Some(text) => {
            feed_byte(hasher, 1);
            feed_text(hasher, text.as_str());
        }
    }
}

fn feed_truths(hasher: &mut Sha1, relevance: &Relevance)
    ensures { (m : List ℕ) → Holds hasher.old m → Holds hasher.new (m ++ truth_bytes relevance.now) }
{
    feed_flag(hasher, relevance.exact_name_match);
    feed_flag(hasher, relevance.is_local);
    feed_flag(hasher, relevance.is_name_already_imported);
    feed_flag(hasher, relevance.requires_import);
    feed_flag(hasher, relevance.is_private_editable);
}

fn feed_trait(hasher: &mut Sha1, trait_: Option<(bool, bool)>)
    ensures { (m : List ℕ) → Holds hasher.old m → Holds hasher.new (m ++ optional trait_bytes trait_) }
{
    match trait_ {
        None => feed_byte(hasher, 0),
        Some((is_op_method, notable_trait)) => {
            feed_byte(hasher, 1);
            feed_flag(hasher, is_op_method);
            feed_flag(hasher, notable_trait);
        }
    }
}

fn feed_function(hasher: &mut Sha1, function: Option<(bool, bool, ReturnType)>)
    ensures { (m : List ℕ) → Holds hasher.old m → Holds hasher.new (m ++ optional function_bytes function) }
{
    match function {
        None => feed_byte(hasher, 0),
        Some((has_params, has_self_param, kind)) => {
            feed_byte(hasher, 1);
            feed_flag(hasher, has_params);
            feed_flag(hasher, has_self_param);
            feed_byte(hasher, return_type(kind));
        }
    }
}

fn feed_relevance(hasher: &mut Sha1, relevance: &Relevance)
    ensures { (m : List ℕ) → Holds hasher.old m → Holds hasher.new (m ++ relevance_bytes relevance.now) }
{
    feed_truths(hasher, relevance);
    feed_byte(hasher, type_match(relevance.type_match));
    feed_trait(hasher, relevance.trait_);
    feed_byte(hasher, postfix_match(relevance.postfix_match));
    feed_function(hasher, relevance.function);
}

fn feed_ref(hasher: &mut Sha1, ref_match: Option<(RefMode, u32)>)
    ensures { (m : List ℕ) → Holds hasher.old m → Holds hasher.new (m ++ optional ref_bytes ref_match) }
{
    match ref_match {
        None => feed_byte(hasher, 0),
        Some((mode, place)) => {
            feed_byte(hasher, 1);
            feed_byte(hasher, ref_mode(mode));
            hasher.update(&place.to_le_bytes());
        }
    }
}

fn feed_texts(hasher: &mut Sha1, texts: &Items<Text>)
    ensures { (m : List ℕ) → Holds hasher.old m → Holds hasher.new (m ++ texts_bytes texts.now) }
{
    hasher.update(&(texts.len() as u64).to_le_bytes());
    for text in texts.as_slice() {
        feed_text(hasher, text.as_str());
    }
}

fn feed_head(hasher: &mut Sha1, item: &HashedItem, is_ref: bool)
    ensures { (m : List ℕ) → Holds hasher.old m → Holds hasher.new (m ++ head_bytes is_ref item.now) }
{
    feed_flag(hasher, is_ref);
    feed_flag(hasher, item.is_snippet);
    feed_flag(hasher, item.deprecated);
    feed_flag(hasher, item.trigger_call_info);
}

fn feed_names(hasher: &mut Sha1, item: &HashedItem)
    ensures { (m : List ℕ) → Holds hasher.old m → Holds hasher.new (m ++ name_bytes item.now) }
{
    feed_text(hasher, item.label.as_str());
    feed_optional(hasher, &item.detail_left);
    feed_optional(hasher, &item.detail_right);
    feed_text(hasher, item.kind_tag.as_str());
    feed_text(hasher, item.lookup.as_str());
    feed_optional(hasher, &item.detail);
}

/// The hash by which a resolved completion is found again: SHA-1 of the item's bytes.
#[tactic(auto, unfolding(crate::specs::Hashed::item_bytes))]
pub fn completion_item_hash(item: &HashedItem, is_ref_completion: bool) -> [u8; 20]
    ensures { result ≡ sha1 (item_bytes is_ref_completion item.now) }
{
    let mut hasher = Sha1::new();
    feed_head(&mut hasher, item, is_ref_completion);
    feed_names(&mut hasher, item);
    feed_relevance(&mut hasher, &item.relevance);
    feed_ref(&mut hasher, item.ref_match);
    feed_texts(&mut hasher, &item.import_to_add);
    hasher.finalize()
}

/// Items whose bytes are equal are equal, and so are their flags.
pub fn equal_bytes_are_equal_items()
    ensures { (a b : HashedItem) (r s : Bool) → IsShort a → IsShort b
        → item_bytes r a ≡ item_bytes s b → (a ≡ b) × (r ≡ s) }
{}
