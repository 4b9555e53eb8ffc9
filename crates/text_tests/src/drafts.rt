//! Games as they are written in the strict profile, and groups of them. The texts and positions are
//! worked out by hand from the rules of play and from the profile.
use draughts_board::{Position, ResolveRefusal, Square};
use fen_text::{print_fen, read_fen};
use pdn_openings::openings;
use pdn_text::read_games;
use std::process::Abort;
use std::test::Fail;
use strict_games::{Draft, Layout, OpeningGroups, Score, TagRefusal, group_text};

/// Plays moves, each as its first square, the square between if one is named, and its last square.
fn play(
    rt: &impl Abort,
    draft: &mut Draft,
    moves: &[(u8, Option<u8>, u8)],
) -> Result<(), ResolveRefusal> {
    for (from, between, to) in moves {
        match between {
            Some(n) => {
                let middle = [square(rt, *n)];
                draft.play(square(rt, *from), &middle, square(rt, *to))?;
            }
            None => draft.play(square(rt, *from), &[], square(rt, *to))?,
        }
    }
    Ok(())
}

fn square(rt: &impl Abort, number: u8) -> Square {
    Square::new(number).expect(rt, "a square")
}

/// A game in lines, with a tag whose value has quotation marks, and the position behind it.
#[test]
fn a_game(rt: HostRuntime) -> Result<(), Fail> {
    let mut draft = Draft::new(rt.alloc(), None);
    draft.tag(b"Event", b"a \"b\"\n\\c")?;
    draft.tag(b"GameType", b"21,W")?;
    assert_eq!(rt; draft.tag(b"1x", b""), Err(TagRefusal::Name));
    assert_eq!(rt; draft.tag(b"FEN", b"W:W1:B2"), Err(TagRefusal::SetUp));
    assert_eq!(rt; draft.tag(b"GameType", b"20"), Err(TagRefusal::OtherGame));
    play(
        &rt,
        &mut draft,
        &[(11, None, 15), (22, None, 18), (15, None, 22)],
    )?;
    assert_eq!(rt;
        draft.play(square(&rt, 24), &[], square(&rt, 20)),
        Err(ResolveRefusal::Illegal)
    );
    let text = draft.text(Score::Halves, Layout::Lines)?;
    assert_eq!(rt;
        text.as_slice(),
        b"[Event \"a \\\"b\\\" \\\\c\"]\n[GameType \"21,W\"]\n1. 11-15 22-18 2. 15x22 1/2-1/2\n".as_slice()
    );
    assert_eq!(rt;
        print_fen(&draft.position()).as_str(),
        "W:W21,23,24,25,26,27,28,29,30,31,32:B1,2,3,4,5,6,7,8,9,10,12,22"
    );
    Ok(())
}

/// A capture with two routes has all squares, one with a single route its first and last; White's
/// first move has three dots. The three texts together are read as three games.
#[test]
fn own_positions(rt: HostRuntime) -> Result<(), Fail> {
    let mut all = Vec::new(rt.alloc());
    let games = [
        (
            "B:W6,7,14,15:B2",
            [(2, Some(9), 18)],
            "[FEN \"B:W6,7,14,15:B2\"] 1. 2x9x18 1-0\n",
        ),
        (
            "B:W6,14:B2",
            [(2, Some(9), 18)],
            "[FEN \"B:W6,14:B2\"] 1. 2x18 2-0\n",
        ),
        (
            "W:W21:B1",
            [(21, None, 17)],
            "[FEN \"W:W21:B1\"] 1... 21-17 *\n",
        ),
    ];
    let scores = [Score::OneNil, Score::TwoNil, Score::Unknown];
    for ((fen, moves, due), score) in games.iter().zip(scores) {
        let mut draft = Draft::new(rt.alloc(), Some(read_fen(fen.as_bytes())?));
        play(&rt, &mut draft, moves)?;
        let text = draft.text(score, Layout::OneLine)?;
        assert_eq!(rt; text.as_slice(), due.as_bytes());
        all.extend_from_slice(&text)?;
    }
    let read = read_games(rt.alloc(), &all)?;
    assert_eq!(rt; read.len(), 3);
    let led = openings(rt.alloc(), &read, 1)?;
    assert_eq!(rt; led.len(), 3);
    assert_eq!(rt; print_fen(&led[0].position).as_str(), "W:W7,15:B18");
    assert_eq!(rt; print_fen(&led[1].position).as_str(), "W:W:B18");
    assert_eq!(rt; print_fen(&led[2].position).as_str(), "B:W17:B1");
    Ok(())
}

/// Games that lead to one position are one group, and its tag lists them as ranges.
#[test]
fn groups(rt: HostRuntime) -> Result<(), Fail> {
    let other = read_fen(b"W:W21:B1")?;
    let mut groups = OpeningGroups::new(rt.alloc());
    for number in [12, 40, 41, 42, 43] {
        groups.add(other, number)?;
    }
    groups.add(Position::start(), 44)?;
    groups.add(other, 45)?;
    assert_eq!(rt; groups.len(), 2);
    let text = match groups.group(0) {
        Some((position, games)) => group_text(rt.alloc(), &position, games)?,
        None => Vec::new(rt.alloc()),
    };
    assert_eq!(rt;
        text.as_slice(),
        b"[FEN \"W:W21:B1\"] [Games \"12, 40-43, 45\"] *\n".as_slice()
    );
    assert!(rt; groups.group(2).is_none());
    Ok(())
}
