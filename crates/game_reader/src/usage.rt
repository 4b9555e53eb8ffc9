//! What the program tells of itself.

/// What `--help` writes.
pub(crate) const USAGE: &str =
    "game_reader: reads archives of games of English draughts as they are.

Usage:
  game_reader check < ARCHIVE
  game_reader write [--part K] < ARCHIVE > GAMES.pdn
  game_reader openings [--plies N] [--part K] < ARCHIVE > GAMES.pdn
  game_reader --help
  game_reader --version

`check` lists every fault and every doubtful reading, and counts them in a last line. `write` writes
the games that can be read, in the profile of PDN that `opening_bench` reads, one behind the other.
`openings` writes a game of one line for each distinct position that the first plies of the games
lead to, with the numbers of the games that do. Both tell on standard error what was left out.

--plies N  how many plies of each game are its opening, 0 to 200 (200 where it is not given)
--part K   only the Kth 4096 games of those that are written, 1 to 999999999

Exit status:
  0  the command came to its end; `check` found nothing
  1  `check` found a fault or a doubtful reading
  2  the words are not of the form above
  3  the archive is too long to be counted
  6  no memory
  7  standard input failed
  8  standard output failed
  9  the words could not be had from the system
";

/// What `--version` writes.
pub(crate) const VERSION: &str = "game_reader 0.1.0\n";
