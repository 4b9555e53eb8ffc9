//! What is shown of a journal to a person: the lines of its roots, the same as JSON, and the text of a line of play.
//!
//! The texts are functions of what they show (`specs/Roots.antt`, `specs/Json.antt`, `specs/LineTexts.antt`).
//!
//! Proved: [`rows_text`], [`rows_json`], [`line_text`], [`push_numbers`] and [`push_json_goals`] write exactly the texts of `specs/`.
#![tactic(auto)]

mod json;
mod line_texts;
mod roots;

pub use json::{json_bool, push_json_goals, rows_json};
pub use line_texts::line_text;
pub use roots::{RootRow, push_numbers, rows_text};
