//! What words of an archive say, written by hand.
use archive_words::{
    GameKind, Join, Meaning, Outcome, Run, Said, TagName, Word, clean_fen, game_kind, is_like_fen,
    is_strict_name, number_at, pair_at, tag_name, tag_text, unescaped,
};
use std::test::Fail;

/// A run of numbers with these signs between.
fn run_of(numbers: &[u32], join: Join) -> Meaning {
    let mut run = Run::new();
    for number in numbers {
        if !run.is_empty() {
            run.join(join);
        }
        run.push(*number);
    }
    run.meaning()
}

/// What a run is, in few letters.
fn kind_of(meaning: Meaning) -> &'static str {
    match meaning {
        Meaning::Nothing => "nothing",
        Meaning::Number(_) => "number",
        Meaning::Move(_) => "move",
        Meaning::Result(outcome) => outcome.written(),
        Meaning::Clock => "clock",
        Meaning::Half => "half",
        Meaning::Bad => "bad",
    }
}

/// Numbers, the sign between them, and what they are.
static RUNS: [(&[u32], Join, &str); 10] = [
    (&[], Join::Dash, "nothing"),
    (&[12], Join::Dash, "number"),
    (&[11, 15], Join::Dash, "move"),
    (&[1, 10, 19], Join::Cross, "move"),
    (&[1, 0], Join::Dash, "1-0"),
    (&[0, 2], Join::Colon, "0-1"),
    (&[1, 2, 1, 2], Join::Slash, "1/2-1/2"),
    (&[0, 12, 33], Join::Colon, "clock"),
    (&[12, 99], Join::Dash, "bad"),
    (
        &[1, 2, 3, 4, 5, 6, 7, 8, 9, 10, 11, 12, 13, 14],
        Join::Cross,
        "bad",
    ),
];

#[test]
fn runs_have_meanings(rt: HostRuntime) {
    for (numbers, join, wanted) in RUNS {
        assert_eq!(rt; kind_of(run_of(numbers, join)), wanted);
    }
}

/// What stands at the front of a text among moves: the two numbers and the bytes of a move, or the
/// number and the bytes of a move's number.
fn front_of(text: &[u8]) -> (Option<(u32, u32, usize)>, Option<(u32, usize)>) {
    (
        pair_at(text).map(|pair| (pair.first, pair.second, pair.len)),
        number_at(text).map(|found| (found.number, found.len)),
    )
}

#[test]
fn moves_and_numbers_stand_at_the_front(rt: HostRuntime) {
    let rows: [(&[u8], Option<(u32, u32, usize)>, Option<(u32, usize)>); 7] = [
        (b"11-15 22-18", Some((11, 15, 6)), None),
        (b"9x2 ", Some((9, 2, 4)), None),
        (b"12. 11-15", None, Some((12, 4))),
        (b"11-15", None, None),
        (b"11-15x18 ", None, None),
        (b"100-20 ", None, None),
        (b"0. ", None, None),
    ];
    for (text, pair, number) in rows {
        assert_eq!(rt; front_of(text), (pair, number));
    }
}

#[test]
fn words_say_results(rt: HostRuntime) {
    let rows = [
        ("Drawn", Said::Drawn),
        ("WINS", Said::Wins),
        ("resigns", Said::Loses),
        ("move", Said::Other),
    ];
    for (letters, wanted) in rows {
        let mut word = Word::new();
        for letter in letters.chars() {
            word.push(letter);
        }
        assert_eq!(rt; word.said(), wanted);
    }
}

#[test]
fn tags_have_names_and_values(rt: HostRuntime) -> Result<(), Fail> {
    let tag = tag_text(b" Event  \"The \\\"Big\\\" Open\" ").ok_or("no tag")?;
    assert_eq!(rt; tag.name, b"Event".as_slice());
    assert_eq!(rt; tag.is_quoted, true);
    let value = unescaped(rt.alloc(), tag.value)?;
    assert_eq!(rt; value.as_slice(), b"The \"Big\" Open".as_slice());
    assert_eq!(rt; tag_name(b"fen"), TagName::Fen);
    assert_eq!(rt;
        (is_strict_name(b"White_2"), is_strict_name(b"2nd")),
        (true, false)
    );
    assert_eq!(rt;
        (game_kind(b"21,B"), game_kind(b"20")),
        (GameKind::English, GameKind::Other)
    );
    assert_eq!(rt; Outcome::of_tag(b"2-0"), Some(Outcome::FirstWins));
    Ok(())
}

#[test]
fn positions_are_cleaned(rt: HostRuntime) -> Result<(), Fail> {
    let fen = clean_fen(rt.alloc(), b"w:w 21, k22 23:b1 2:H0:F1.")?;
    assert_eq!(rt; fen.as_slice(), b"W:W21,K22,23:B1,2".as_slice());
    assert_eq!(rt;
        (is_like_fen(b"W:W21:B1."), is_like_fen(b"B: Smith")),
        (true, false)
    );
    Ok(())
}
