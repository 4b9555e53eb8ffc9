//! What the program tells of itself.

/// What `--help` writes.
pub(crate) const USAGE: &str =
    "strategy_player: plays one side of a root of a journal by the certificate of its value.

Usage:
  strategy_player PATH N SIDE < MOVES
  strategy_player --help
  strategy_player --version

PATH  the file of a journal of `opening_bench`; nothing is written to it
N     the number of a root that has a value, as `opening_bench PATH report` writes it
SIDE  black or white: the side that is played, which holds the root

Each line of standard input is one move of the other side, as `22-18` or `22x15x8`, at most 1048576
bytes in all. They are read whole before anything is written. To play on, give all moves so far and
one more:

  (cat moves; echo 22-18) | strategy_player PATH N SIDE

Written is `position FEN`, the root's position; `move M` for each move of SIDE; and last `won` where
the other side has no legal move, or else `open FEN`, the position in which it is to move.

SIDE never loses what it holds, and wins what the certificate says that it wins, whatever the moves.

Exit status:
  0  the play is written
  2  the words are not of the form above
  3  there is no root N, or it has no value; the other side wins it; a line is no legal move, or
     stands behind the end of the play; there are more bytes than may be
  4  the journal's file failed
  5  the journal's file is none, or damaged
  6  no memory
  7  standard input failed
  8  standard output failed
  9  the words could not be had from the system
With 2 to 7 one line says why, but with 6 nothing is written where memory ends while the words are
read. Standard error says more of it.
";

/// What `--version` writes.
pub(crate) const VERSION: &str = "strategy_player 0.1.0\n";
