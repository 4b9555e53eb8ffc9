//! What the program tells of itself.

/// What `--help` writes.
pub(crate) const USAGE: &str = "opening_bench: what openings of English draughts are worth, proved.

Usage:
  opening_bench PATH solve [OPTIONS] < GAMES.pdn
  opening_bench PATH generate SEED COUNT
  opening_bench PATH report
  opening_bench PATH certify N > CERTIFICATE
  opening_bench PATH verify < CERTIFICATE
  opening_bench PATH learn < CERTIFICATE
  opening_bench PATH table K > TABLE
  opening_bench PATH table-check < TABLE
  opening_bench --help
  opening_bench --version

PATH       the journal's file, which `solve`, `generate` and `learn` make where it is missing; `-` is a
           journal in memory, which ends with the run. `verify`, `table` and `table-check` do not use it
N          the number of a root, 1 to 65536, as `report` writes it
K          how many pieces an endgame table has at most, 2 or 3
SEED       where the openings of `generate` begin, 0 to 4294967295
COUNT      how many openings `generate` makes, 1 to 2000

Options of `solve`:
--workers N how many workers search at once, 1 to 64 (1 where it is not given)
--depth N  how many plies are looked ahead, 0 to 12 (4 where it is not given); from 5 on a search also
           looks for draws that stay among few positions, and from 7 on for wins by proof numbers and
           through all positions below: 8 settles two pieces against two, 12 three against two
--pieces K how many pieces the endgame table has at most (2 where it is not given); a journal keeps
           the number that it began with
--plies N  how many plies of each game are its opening, 0 to 200 (200 where it is not given)
--budget N after how many records of work the run ends, 0 to 1000000 (1000 where it is not given); what
           other workers are searching then is added too
--lease N  how many leases later a lease of a position runs out, 1 to 1000000000 (1000000 where it
           is not given)

`solve`: the games are PDN, of at most 16777216 bytes and 4096 games. Each distinct position after
an opening becomes a root of the journal, behind those that it has. The run goes on with what the
journal holds, until each root has a value or the budget is spent, and writes a line
`root NUMBER FEN VALUE` for each root, VALUE being black-wins, white-wins, draw or unsolved, and a
line that counts them. What is found is in the journal before the next position is looked at: a run
that is stopped, by Ctrl-C too, loses the position that it was looking at and no more, and the next
one goes on from there. It writes no report then, since the toolchain's library has no call that hears
a signal, as sigaction: `report` writes it. Only one program may use a journal at a time.

`generate` does the same with COUNT openings that are made from SEED, four workers that look one ply
ahead and a budget of COUNT, reads nothing, and writes the line that counts alone.

`report` writes these lines again for what the journal holds, and writes nothing to it. `certify`
writes the certificate of the value of root N. `verify` reads the text of a certificate, of at most
268435456 bytes, fills the endgame table that it names, and writes `verified FEN CLAIM` where the
certificate is good, or else why it is not. `learn` reads and checks a certificate as `verify` does,
and records it in the journal, at the root of its position, which begins where there is none. The
journal is for the table that the certificate names. A root that has a value, or knows all that is
claimed, stays as it is; one below which the search has gone on is refused. It writes
`learnt NUMBER FEN CLAIM`. `table` writes the bytes of the endgame table of K pieces. `table-check`
reads such bytes, at most 4194304, and writes `sound table K entries E` where each entry is right, or
else which is not.

Exit status:
  0  each root has a value; the certificate is written, or is good, or is learnt; the table is
     written, or is sound
  1  some root is unsolved
  2  the words are not of the form above
  3  the games cannot be read, or have no openings; there would be more than 65536 roots; there is no
     root N, or it is unsolved; the certificate is not good, or the search has gone on below its root;
     the bytes are no sound table
  4  the journal's file failed: what was written to the journal before is kept
  5  the journal's file is none, of a table of other pieces, or damaged; nothing was written to it
  6  no memory
  7  standard input failed
  8  standard output failed
  9  the words could not be had from the system
With 2 to 7 one line says why, but with 6 nothing is written where memory ends while the words are
read. Standard error says more of it. Behind `solve` standard error warns of what may be read otherwise
than it was meant, as tags in other letters. With 0 and 1 it says how the records fell to unsolved roots,
and which depth tries more for one of few pieces.
";

/// What `--version` writes.
pub(crate) const VERSION: &str = "opening_bench 0.1.0\n";
