//! Laws of texts of games: each function does nothing, and its contract is the law.
ghost use Rattle.strict_games.specs.GameTexts.{GameTextsJoin};

/// Texts of games, at most 4,096 of them, are read together as these games, one after the other.
pub fn game_texts_join()
    ensures { GameTextsJoin }
{}
