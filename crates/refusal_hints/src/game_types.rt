//! Games of another kind: where their tag stands, and what may be done.
use archive_words::{GameKind, game_kind};
use std::alloc::AllocError;
use terminal_text::say;

/// What may be done about a `GameType` that is not taken for that of English draughts.
fn type_advice(value: &[u8]) -> &'static str {
    if value.trim_ascii().is_empty() {
        return "The value is empty: write [GameType \"21\"] for English draughts, or leave the tag out.\n";
    }
    match game_kind(value) {
        GameKind::English =>
            "It seems to mean English draughts, whose value is 21, alone or with a comma straight behind it: \
                write [GameType \"21\"].\n",
        GameKind::Other =>
            "That is another kind of draughts, and English draughts is 21: take the game out of the file.\n",
        GameKind::Unknown =>
            "English draughts is 21: where the game is one, write [GameType \"21\"], and else take it out of \
                the file.\n",
    }
}

/// Appends what may be done about a value of `GameType`.
pub(crate) fn say_type_advice(text: &mut Vec<u8>, value: &[u8]) -> Result<(), AllocError> {
    say(text, type_advice(value))
}
