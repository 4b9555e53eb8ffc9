//! What the program tells of itself.

/// What `--help` writes.
pub(crate) const USAGE: &str =
    "journal_view: shows what a journal of `opening_bench` knows of its roots.

Usage:
  journal_view PATH roots [--plies P] [--json] [< GAMES]
  journal_view PATH line N [--plies P]
  journal_view PATH tree N [--plies P] [--nodes M] [--json]
  journal_view PATH page [N] [--nodes M]
  journal_view PATH records [--json]
  journal_view --help
  journal_view --version

PATH   the file of a journal of `opening_bench`; nothing is written to it
GAMES  games in PDN, as `opening_bench PATH solve` reads them; a terminal is not waited for
N      the number of a root, 1 to 65536; `line` wants one that has a value
P      of `roots` how many plies of each game are played, 0 to 200; 200 if nothing is said. Of `line`
       how many of its first plies have variations, 0 to 40; none if nothing is said. Of `tree` how
       many plies deep, 0 to 500; 500 if nothing is said
M      how many nodes, 0 to 100000; 2000 if nothing is said

roots   a line for each root, `root N FEN VALUE black P D white P D nodes M open L`: its number, its
        position, its value or `unsolved`; for the win of either side how many leaves are to be
        settled until it is shown (P) and until it is refuted (D), `inf` where nothing will do; how
        many nodes its tree has (M), and how many of its leaves are open (L); behind it
        `  game G (EVENT, BLACK - WHITE)` for each game that stands there after its first P plies, or
        after all of a shorter one; and a last line that counts the roots
line N  the play behind the value of root N, as a game of PDN. Of a win: the winner's moves by the
        certificate, and of the other side's replies one that holds out longest, to the end. Of a
        draw: the move by which each side holds, for 20 plies. A comment says what the play shows.
        At its first P plies each other reply stands in brackets behind the one that is made, in a draw
        each other move; then the play against it up to ply P, and what the certificate shows there
tree N  the tree of root N, a line a node, two blanks a ply: the move that leads there, the mark, `next`
        at the leaf that one worker would search next, FEN, what is known, and the numbers for the win
        of either side; and a last line that counts the nodes. Shown are all nodes down to a ply: the
        deepest one, at most P, to which there are no more than M nodes; and the root in any case
page    a page to look at, as HTML that needs nothing else: a table of the roots with their boards, values,
        numbers and records of work, and a bar that shows how much work each took; with N also the play
        behind the value of root N as boards in a row, and its tree, whose nodes open on a click, down
        to a ply as `tree` has it, and how many more nodes there are
records a line for each record, `record I KIND node N FEN CLAIMS`: its place, what it does (`begin` a
        root, `solve` a node, `expand` a node), the node and its position, and what a certificate in
        it shows; `last` at the last one that counts; and a last line that counts the records

With --json each line is an object.

A value is shown only behind a certificate that was joined from the journal and checked.

Exit status:
  0  it is written, and no value in it is `unsolved`
  1  it is written, and a value in it is `unsolved`
  2  the words are not of the form above
  3  there is no root N, or `line` is asked and it has no value, or the games are refused
  4  the journal's file failed
  5  the journal's file is none, or damaged
  6  no memory
  7  standard input failed
  8  standard output failed
  9  the words could not be had from the system
With 2 to 7 one line says why, but with 6 nothing is written where memory ends while the words are
read. Standard error says more of it.
";

/// What `--version` writes.
pub(crate) const VERSION: &str = "journal_view 0.1.0\n";
