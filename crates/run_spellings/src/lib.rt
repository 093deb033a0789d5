//! Laws of spellings: each commit of a legal run is one of changes that can be spelled as bytes and read again.
//!
//! Each law is a function with an empty body, whose clause is the law; a caller that calls it has it.
#![tactic(auto)]

mod laws;
mod texts;

pub use laws::{
    call_spells, commit_keeps_rows, due_spells, example_data, example_rules, legal_commits_spell,
    legal_is_spellable, opens_spellable, reading_keeps_spellable, rule_is_read_again,
    sending_spells, sound_is_spellable, step_keeps_spellable,
};
pub use texts::rules_are_texts;
