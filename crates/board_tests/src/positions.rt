//! Each public call once, with values read off a board of English draughts.
use draughts_board::{Cell, Move, PlaceRefusal, Position, ResolveRefusal, Side, Square};
use std::alloc::{AllocError, Global};
use std::test::Fail;

/// The number, the row and the column of the square of this number, if there is one.
fn place(number: u8) -> Option<(u8, u8, u8)> {
    let square = Square::new(number)?;
    Some((square.number(), square.row(), square.column()))
}

/// Numbers, and the rows and the columns of their squares.
const PLACES: [(u8, Option<(u8, u8, u8)>); 8] = [
    (0, None),
    (1, Some((1, 0, 1))),
    (4, Some((4, 0, 7))),
    (5, Some((5, 1, 0))),
    (18, Some((18, 4, 3))),
    (29, Some((29, 7, 0))),
    (32, Some((32, 7, 6))),
    (33, None),
];

/// Whether two squares are neighbours, and the number of the one between them where a jump leads
/// from one to the other.
fn way(from: u8, to: u8) -> Option<(bool, Option<u8>)> {
    let (from, to) = (Square::new(from)?, Square::new(to)?);
    let between = if from.is_jump_apart(to) {
        Some(from.between(to).number())
    } else {
        None
    };
    Some((from.is_near(to), between))
}

#[test]
fn squares_lie_where_the_board_has_them(rt: HostRuntime) {
    for (number, due) in PLACES {
        assert_eq!(rt; place(number), due);
    }
    assert_eq!(rt;
        [way(15, 18), way(15, 22)],
        [Some((true, None)), Some((false, Some(18)))]
    );
    assert_eq!(rt; Square::all()[31].number(), 32);
}

#[test]
fn pieces_have_an_owner(rt: HostRuntime) {
    let (man, king) = (Cell::Man(Side::Black), Cell::King(Side::White));
    let belongs = (man.belongs_to(Side::Black), king.belongs_to(Side::Black));
    let empty = (Cell::Empty.is_empty(), king.is_empty());
    assert_eq!(rt; (belongs, empty), ((true, false), (true, false)));
    assert!(rt; Side::Black.other() == Side::White);
    assert!(rt; Cell::Man(Side::White).turned() == man);
}

/// What stands on the square of this number when a game starts.
fn starting_cell(number: u8) -> Cell {
    match number {
        1..=12 => Cell::Man(Side::Black),
        21..=32 => Cell::Man(Side::White),
        _ => Cell::Empty,
    }
}

/// The number of the first square on which something else stands.
fn first_other(p: &Position) -> Option<u8> {
    for square in &Square::all() {
        if p.at(*square) != starting_cell(square.number()) {
            return Some(square.number());
        }
    }
    None
}

/// The side to move, and how many pieces Black has and White.
fn sides(p: &Position) -> (Side, u8, u8) {
    (p.to_move(), p.count(Side::Black), p.count(Side::White))
}

/// What stands on 12.
fn twelfth(p: &Position) -> Option<Cell> {
    Some(p.at(Square::new(12)?))
}

#[test]
fn a_game_starts_with_twelve_men_a_side(rt: HostRuntime) {
    let start = Position::start();
    let turned = start.turned();
    assert_eq!(rt; first_other(&start), None);
    assert_eq!(rt;
        [sides(&start), sides(&turned)],
        [(Side::Black, 12, 12), (Side::White, 12, 12)]
    );
    // Turned it is the start with White to move; turned again, the start.
    assert!(rt; twelfth(&turned) == Some(Cell::Man(Side::Black)));
    assert!(rt; turned != start && turned.turned() == start);
}

#[test]
fn a_position_is_made_of_its_cells(rt: HostRuntime) {
    let start = Position::start();
    let cells = start.cells();
    let (black, white) = (Cell::Man(Side::Black), Cell::Man(Side::White));
    assert!(rt; [cells[11], cells[12], cells[20]] == [black, Cell::Empty, white]);
    assert!(rt; Position::of_lawful(cells, start.to_move()) == start);
}

/// Masks that are no position with Black to move.
const NO_POSITIONS: [[u32; 4]; 5] = [
    // A square in two masks.
    [1, 1, 0, 0],
    [0, 8, 8, 0],
    // A Black man on 29 and a White one on 4.
    [1 << 28, 0, 0, 0],
    [0, 0, 1 << 3, 0],
    // Thirteen White kings.
    [0, 0, 0, 0x1FFF],
];

/// The position of these masks, with Black to move.
fn of_masks(masks: [u32; 4]) -> Option<Position> {
    Position::of_masks(masks, Side::Black)
}

const START: [u32; 4] = [0x0000_0FFF, 0, 0xFFF0_0000, 0];

#[test]
fn a_position_is_made_of_its_masks(rt: HostRuntime) {
    let start = Position::start();
    assert!(rt; start.masks() == START && of_masks(START) == Some(start));
    assert!(rt; Position::of_lawful_masks(start.masks(), Side::White) != start);
    for masks in NO_POSITIONS {
        assert!(rt; of_masks(masks).is_none());
    }
    assert!(rt; of_masks([0, 1 << 28, 0, 0x0FFF]).is_some());
}

/// The bit of the square of this number.
fn bit(number: u8) -> Option<u32> {
    Some(Square::new(number)?.bit())
}

/// The start without the men on 11 and on 12, and that with a Black man on 15 and White to move.
fn lifted_and_moved() -> (Position, Position) {
    let start = Position::start();
    let eleven = Square::new(11).unwrap();
    let fifteen = Square::new(15).unwrap();
    let lifted = start.without(eleven).without(Square::new(12).unwrap());
    let moved = lifted.with(fifteen, Cell::Man(Side::Black), Side::White);
    (lifted, moved)
}

#[test]
fn pieces_are_put_and_taken(rt: HostRuntime) {
    assert_eq!(rt; bit(32), Some(0x8000_0000));
    // 11-15 by hand, and the man on 12 taken off.
    let (lifted, moved) = lifted_and_moved();
    assert!(rt; of_masks([0x0000_03FF, 0, 0xFFF0_0000, 0]) == Some(lifted));
    let due = Position::of_masks([0x0000_43FF, 0, 0xFFF0_0000, 0], Side::White);
    assert!(rt; due == Some(moved));
}

/// The step from one square to the other.
fn step(from: u8, to: u8) -> Option<Move> {
    Move::of(&[Square::new(from)?, Square::new(to)?])
}

/// The capture that goes over 10.
fn capture(from: u8, to: u8) -> Option<Move> {
    Move::of(&[Square::new(from)?, Square::new(10)?, Square::new(to)?])
}

/// What is printed of squares, sides, moves and a position, a line each.
fn printed(alloc: Global) -> Result<String, Fail> {
    let last = Square::new(32).ok_or("no square")?;
    let step = step(23, 19).ok_or("no move")?;
    let capture = capture(1, 17).ok_or("no move")?;
    let shown = of_masks([0, 1 << 1, 0x0000_6060, 0]).ok_or("no position")?;
    Ok(format!(in alloc;
        "{last}\n{} {}\n{step}\n{capture}\n{shown}\n",
        Side::Black,
        Side::White
    )?)
}

/// What is printed of the refusals, a line each.
fn printed_refusals(alloc: Global) -> Result<String, Fail> {
    let square = Square::new(29).ok_or("no square")?;
    let step = step(23, 19).ok_or("no move")?;
    let capture = capture(1, 17).ok_or("no move")?;
    Ok(format!(in alloc;
        "{}\n{}\n{}\n{}\n{}\n",
        PlaceRefusal::TooMany(Side::White),
        PlaceRefusal::ManOnLastRow(square),
        ResolveRefusal::Illegal,
        ResolveRefusal::Ambiguous(step, capture),
        ResolveRefusal::Memory(AllocError)
    )?)
}

#[test]
fn each_value_prints_as_the_field_writes_it(rt: HostRuntime) -> Result<(), Fail> {
    let due = "32\nBlack White\n23-19\n1x10x17\nB:W6,7,14,15:BK2\n";
    assert_eq!(rt; printed(rt.alloc())?.as_str(), due);
    Ok(())
}

#[test]
fn each_refusal_prints_what_is_wrong(rt: HostRuntime) -> Result<(), Fail> {
    let due = "White has more than 12 pieces\n\
        the man on 29 stands on its farthest row\n\
        no legal move is written so\n\
        23-19 and 1x10x17 are both written so, and lead to different positions\n\
        out of memory\n";
    assert_eq!(rt; printed_refusals(rt.alloc())?.as_str(), due);
    Ok(())
}

/// The refusal of a man on the square of this number.
fn misplaced(number: u8) -> Option<PlaceRefusal> {
    Some(PlaceRefusal::ManOnLastRow(Square::new(number)?))
}

/// Why the cells are refused where Black is to move, if they are.
fn place_refusal(cells: [Cell; 32]) -> Option<PlaceRefusal> {
    Position::place(cells, Side::Black).err()
}

#[test]
fn thirteen_pieces_and_misplaced_men_are_refused(rt: HostRuntime) {
    let mut cells = [Cell::Empty; 32];
    cells[0] = Cell::King(Side::White);
    assert!(rt; Position::place(cells, Side::White).is_ok());
    // A Black man on 29 stands on its farthest row, and so does a White one on 4, which is the
    // lesser square.
    cells[28] = Cell::Man(Side::Black);
    let of_one = place_refusal(cells);
    cells[3] = Cell::Man(Side::White);
    assert!(rt; [of_one, place_refusal(cells)] == [misplaced(29), misplaced(4)]);
    let crowded = [Cell::King(Side::White); 32];
    assert!(rt; place_refusal(crowded) == Some(PlaceRefusal::TooMany(Side::White)));
}

/// The numbers of a move's squares, two at most, and how many squares it has.
fn ends(m: Option<Move>) -> Option<(usize, u8, u8)> {
    let m = m?;
    Some((m.path().len(), m.path()[0].number(), m.path()[1].number()))
}

/// Whether there is a move over one square so often.
fn is_move(count: usize) -> Option<bool> {
    let squares = [Square::new(11)?; 14];
    Some(Move::of(squares.get(..count)?).is_some())
}

#[test]
fn moves_keep_their_path(rt: HostRuntime) {
    let made = [is_move(1), is_move(13), is_move(14)];
    assert_eq!(rt; made, [Some(false), Some(true), Some(false)]);
    let (left, right) = (step(11, 15), step(11, 16));
    assert_eq!(rt; ends(left), Some((2, 11, 15)));
    assert!(rt; left < right && left == step(11, 15));
}

/// A position with one piece, on square 14.
fn with_one_piece(cell: Cell, to_move: Side) -> Result<Position, PlaceRefusal> {
    let mut cells = [Cell::Empty; 32];
    cells[14 - 1] = cell;
    Position::place(cells, to_move)
}

/// Positions in rising order: the start has a piece on 1, and the others have none.
fn rising() -> Result<[Position; 7], PlaceRefusal> {
    Ok([
        with_one_piece(Cell::Empty, Side::White)?,
        with_one_piece(Cell::Man(Side::Black), Side::Black)?,
        with_one_piece(Cell::Man(Side::Black), Side::White)?,
        with_one_piece(Cell::Man(Side::White), Side::Black)?,
        with_one_piece(Cell::King(Side::Black), Side::Black)?,
        with_one_piece(Cell::King(Side::White), Side::Black)?,
        Position::start(),
    ])
}

/// Whether each two of the positions are ordered as they stand.
fn are_ordered(positions: &[Position]) -> bool {
    for (i, p) in positions.iter().enumerate() {
        for (j, q) in positions.iter().enumerate() {
            if p.cmp(q) != i.cmp(&j) || (p < q) != (i < j) {
                return false;
            }
        }
    }
    true
}

#[test]
fn positions_are_ordered_square_by_square(rt: HostRuntime) -> Result<(), Fail> {
    assert!(rt; are_ordered(&rising()?));
    Ok(())
}
