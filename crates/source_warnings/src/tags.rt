//! What tags mean.
ghost use Rattle.std.specs.Prelude.{◌≡◌};
ghost use Rattle.source_warnings.specs.Items.{game_type_kind, names_no_other_game, set_up_kind, tag_kind};

/// What a tag means, by its name, and where it matters by its value.
#[derive(Clone, Copy)]
pub(crate) enum TagKind {
    /// `FEN`.
    Fen,
    /// `FEN` in other letters.
    LikeFen,
    /// `GameType`, with a value that names no other side, board or game.
    GameType,
    /// `GameType` with a value that begins as that of English draughts and goes on otherwise.
    OtherGameType,
    /// `GameType` in other letters.
    LikeGameType,
    /// `SetUp` with the value 1.
    SetUp,
    /// `Event`.
    Event,
    /// `Black`.
    Black,
    /// `White`.
    White,
    /// Another.
    Other,
}

/// The value of a tag `GameType` names no other side, board or game than that of English draughts.
fn names_no_other_game(value: &[u8]) -> bool
    ensures { result ≡ names_no_other_game value.now }
{
    !value.starts_with(b"21,")
        || value == b"21,B".as_slice()
        || value == b"21,B,8".as_slice()
        || value == b"21,B,8,8".as_slice()
        || value.starts_with(b"21,B,8,8,")
}

/// What a tag `GameType` of this value means. A value of another game is refused elsewhere.
fn game_type_kind(value: &[u8]) -> TagKind
    ensures { result ≡ game_type_kind value.now }
{
    if names_no_other_game(value) {
        TagKind::GameType
    } else {
        TagKind::OtherGameType
    }
}

/// What a tag `SetUp` of this value means.
fn set_up_kind(value: &[u8]) -> TagKind
    ensures { result ≡ set_up_kind value.now }
{
    if value == b"1".as_slice() {
        TagKind::SetUp
    } else {
        TagKind::Other
    }
}

/// What a tag of this name and value means.
pub(crate) fn tag_kind(name: &[u8], value: &[u8]) -> TagKind
    ensures { result ≡ tag_kind name.now value.now }
{
    if name == b"FEN".as_slice() {
        TagKind::Fen
    } else if name.eq_ignore_ascii_case(b"FEN") {
        TagKind::LikeFen
    } else if name == b"GameType".as_slice() {
        game_type_kind(value)
    } else if name.eq_ignore_ascii_case(b"GameType") {
        TagKind::LikeGameType
    } else if name == b"SetUp".as_slice() {
        set_up_kind(value)
    } else if name == b"Event".as_slice() {
        TagKind::Event
    } else if name == b"Black".as_slice() {
        TagKind::Black
    } else if name == b"White".as_slice() {
        TagKind::White
    } else {
        TagKind::Other
    }
}
