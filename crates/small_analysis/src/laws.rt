// Laws of names, of brackets and of the rows.
ghost use Rattle.std.specs.Prelude.{◌≡◌, ◌≤◌, ℕ, List, length};
ghost use Rattle.serde_json.specs.Data.{null};
ghost use Rattle.small_analysis.specs.Brackets.{partners_of, AreNested, IsMatching};
ghost use Rattle.small_analysis.specs.Names.{name_at, name_of, IsRunAt};
ghost use Rattle.small_analysis.specs.Small.{IsAnsweredBy};

use method_table::{
    CODE_ACTION_RESOLVE, CODE_LENS_RESOLVE, FORMATTING, INLAY_HINT_RESOLVE, JOIN_LINES, ON_ENTER,
    ON_TYPE_FORMATTING, RANGE_FORMATTING, SELECTION_RANGE,
};

/// Each place of a text has a maximal run of word bytes, and no other is the name there.
pub fn names_are_maximal_runs()
    ensures some { (text : List ℕ) (place : ℕ) → place ≤ length text → (from : ℕ) × ((to : ℕ) × IsRunAt text place from to) }
    ensures name { (text : List ℕ) (place from to : ℕ) → IsRunAt text place from to → name_at text place ≡ name_of text from to }
{}

/// A bracket is its partner's partner, each opener stands before a closer of its kind, and pairs nest.
pub fn brackets_match_in_pairs()
    ensures pairs { (text : List ℕ) → IsMatching text (partners_of text) }
    ensures nest { (text : List ℕ) → AreNested (partners_of text) }
{}

/// The rows whose params are given back, and those that are answered null.
pub fn rows_have_their_answers()
    ensures inlay_hint { IsAnsweredBy INLAY_HINT_RESOLVE (λ params. params) }
    ensures code_lens { IsAnsweredBy CODE_LENS_RESOLVE (λ params. params) }
    ensures code_action { IsAnsweredBy CODE_ACTION_RESOLVE (λ params. params) }
    ensures join_lines { IsAnsweredBy JOIN_LINES (λ _. null) }
    ensures on_enter { IsAnsweredBy ON_ENTER (λ _. null) }
    ensures selection_range { IsAnsweredBy SELECTION_RANGE (λ _. null) }
    ensures on_type { IsAnsweredBy ON_TYPE_FORMATTING (λ _. null) }
    ensures formatting { IsAnsweredBy FORMATTING (λ _. null) }
    ensures range_formatting { IsAnsweredBy RANGE_FORMATTING (λ _. null) }
{}
