//! What the program tells of itself.

/// What `--help` writes.
pub(crate) const USAGE: &str =
    "journal_shorten: writes a shorter journal that stands for a first one.

Usage:
  journal_shorten shorten OLD NEW
  journal_shorten which OLD NEW
  journal_shorten --help
  journal_shorten --version

OLD  the file of a journal of `opening_bench`; nothing is written to it
NEW  another file: `shorten` makes it, and it may have at most 9 bytes before

`shorten` writes to NEW the same roots in the same order. Of a root that has a value, one record with
its certificate stands for all the work; of each other root all work is kept. Written is
`roots R records X to Y`: the number of roots, and of the records of OLD and of NEW.

`report` writes the same of both journals, and `solve` goes on with either in the same way. NEW may be
the longer one, in bytes: the certificate of a root can be large and its records few.

Stopped at any moment, `shorten` leaves OLD as it was, and NEW without a record or whole. `which`
writes `new` where NEW has a record, and then it has all; else `old`. Where it writes `new`,
`mv NEW OLD` loses nothing, but what another run has added to OLD meanwhile.

Exit status:
  0  it is written
  2  the words are not of the form above
  4  the file of a journal failed
  5  the file of OLD is no journal, or damaged; NEW has more than 9 bytes; with `which`, NEW is no
     journal, or damaged
  6  no memory
  8  standard output failed
  9  the words could not be had from the system
With 2 to 6 one line says why, but with 6 nothing is written where memory ends while the words are
read. Standard error says more of it.
";

/// What `--version` writes.
pub(crate) const VERSION: &str = "journal_shorten 0.1.0\n";
