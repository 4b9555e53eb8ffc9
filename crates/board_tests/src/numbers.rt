//! Facts and numbers as they are used by the search: the values are worked out by hand from the
//! rules.
use draughts_board::{Position, Side, Value};
use proof_numbers::{Facts, Number, Numbers, leaf, least, mobility, total};

/// Both numbers are finite.
fn open(proof: u128, disproof: u128) -> Numbers {
    Numbers {
        proof: Number::Finite(proof),
        disproof: Number::Finite(disproof),
    }
}

/// Whether facts of values are joined to what they say together.
fn join() -> [bool; 3] {
    let black_holds = Facts::of_hold(Side::Black);
    let both = black_holds.joined(&Facts::of_hold(Side::White));
    [
        both == Facts::of_value(Value::Draw),
        Facts::none().joined(&black_holds) == black_holds,
        Facts::of_win(Side::White) == Facts::of_value(Value::WhiteWins),
    ]
}

/// What a draw decides, includes and knows, and then what a hold of one side does.
fn decide() -> ([bool; 3], [bool; 3]) {
    let draw = Facts::of_value(Value::Draw);
    let (black_holds, white_holds) = (Facts::of_hold(Side::Black), Facts::of_hold(Side::White));
    (
        [
            draw.includes(&white_holds),
            draw.knows_hold(Side::White),
            draw.knows_win(Side::White),
        ],
        [
            white_holds.includes(&draw),
            black_holds.decide(Side::White),
            black_holds.decide(Side::Black),
        ],
    )
}

/// The value of a draw, and of a hold of one side.
fn values() -> [Option<Value>; 2] {
    [
        Facts::of_value(Value::Draw).value(),
        Facts::of_hold(Side::Black).value(),
    ]
}

#[test]
fn facts_of_values_join_and_decide(rt: HostRuntime) {
    assert_eq!(rt; join(), [true; 3]);
    assert_eq!(rt; decide(), ([true, true, false], [false, true, false]));
    assert_eq!(rt; values(), [Some(Value::Draw), None]);
}

const THREE: Number = Number::Finite(3);

const MOST: Number = Number::Finite(u128::MAX);

/// The least of two numbers, and the total.
fn joined() -> [Number; 4] {
    [
        least(THREE, Number::Infinite),
        least(MOST, Number::Infinite),
        total(THREE, Number::Finite(4)),
        total(Number::Infinite, MOST),
    ]
}

#[test]
fn numbers_have_an_infinity(rt: HostRuntime) {
    assert!(rt; joined() == [THREE, MOST, Number::Finite(7), Number::Infinite]);
    let zero = [
        MOST.is_zero(),
        Number::Finite(0).is_zero(),
        Number::Infinite.is_zero(),
    ];
    assert_eq!(rt; zero, [false, true, false]);
}

/// The numbers of the start for each side's win: the first mover has seven moves.
fn of_start() -> [Numbers; 2] {
    let (nothing, first) = (Facts::none(), Position::start().to_move());
    [
        leaf(nothing, false, Side::Black, first, 7),
        leaf(nothing, false, Side::White, first, 7),
    ]
}

/// The proof number of a repeated leaf of which nothing is known, and whether it is resolved.
fn of_repeated() -> (Number, bool) {
    let numbers = leaf(Facts::none(), true, Side::Black, Side::Black, 7);
    (numbers.proof, numbers.is_resolved())
}

/// Whether a leaf that White wins has no proof left to do for White, and its disproof number.
fn of_won() -> (bool, Number) {
    let won = Facts::of_win(Side::White);
    let numbers = leaf(won, true, Side::White, Side::Black, 1);
    (numbers.proof.is_zero(), numbers.disproof)
}

#[test]
fn leaves_count_by_mobility(rt: HostRuntime) {
    // No player has more than 64 moves that count.
    assert_eq!(rt; [mobility(0), mobility(7), mobility(100)], [1, 7, 64]);
    assert!(rt; of_start() == [open(1, 7), open(7, 1)] && !open(1, 7).is_resolved());
    assert!(rt; of_repeated() == (Number::Infinite, true));
    assert!(rt; of_won() == (true, Number::Infinite));
}
