// Completion items as far as they are hashed.
use plain::{Items, Text};

/// How the type of a completion fits what is expected.
#[derive(Clone, Copy, Debug, PartialEq, Eq, PartialOrd, Ord, Hash)]
pub enum TypeMatch {
    CouldUnify,
    Exact,
}

/// How a postfix completion fits what was typed.
#[derive(Clone, Copy, Debug, PartialEq, Eq, PartialOrd, Ord, Hash)]
pub enum PostfixMatch {
    NonExact,
    Exact,
}

/// What a function gives back, as far as completions rank it.
#[derive(Clone, Copy, Debug, PartialEq, Eq, PartialOrd, Ord, Hash)]
pub enum ReturnType {
    Other,
    DirectConstructor,
    Constructor,
    Builder,
}

/// How a completion refers to its item.
#[derive(Clone, Copy, Debug, PartialEq, Eq, PartialOrd, Ord, Hash)]
pub enum RefMode {
    Shared,
    Mut,
    Dereference,
}

/// What a completion's rank goes by.
#[derive(Clone, Copy, PartialEq, Eq)]
pub struct Relevance {
    pub exact_name_match: bool,
    pub is_local: bool,
    pub is_name_already_imported: bool,
    pub requires_import: bool,
    pub is_private_editable: bool,
    pub type_match: Option<TypeMatch>,
    /// Whether it is a method of an operator's trait, and whether the trait is notable.
    pub trait_: Option<(bool, bool)>,
    pub postfix_match: Option<PostfixMatch>,
    /// Whether it has parameters, whether `self` is one, and what it gives back.
    pub function: Option<(bool, bool, ReturnType)>,
}

/// The parts of a completion that tell whether it is the one that a client asks for.
#[derive(Clone)]
pub struct HashedItem {
    pub is_snippet: bool,
    pub deprecated: bool,
    pub trigger_call_info: bool,
    pub label: Text,
    pub detail_left: Option<Text>,
    pub detail_right: Option<Text>,
    pub kind_tag: Text,
    pub lookup: Text,
    pub detail: Option<Text>,
    pub relevance: Relevance,
    /// How it refers to its item, and where.
    pub ref_match: Option<(RefMode, u32)>,
    pub import_to_add: Items<Text>,
}

impl Drop for HashedItem {
    fn drop(self) {
        let HashedItem {
            is_snippet: _,
            deprecated: _,
            trigger_call_info: _,
            label: _,
            detail_left: _,
            detail_right: _,
            kind_tag: _,
            lookup: _,
            detail: _,
            relevance: _,
            ref_match: _,
            import_to_add: _,
        } = self;
    }
}
