//! Words that are no command: what is meant, and what may be written.
ghost use Rattle.std.specs.Prelude.{◌<◌};

use bench_edges::{
    COMMAND_NAMES, LEAST_COUNT, LEAST_PIECES, LEAST_ROOT, MOST_COUNT, MOST_PIECES, MOST_ROOT,
    MOST_SEED, SOLVE_OPTIONS, SolveOption,
};
use std::alloc::{AllocError, Global};
use strsim::levenshtein;
use terminal_text::{quote, say, say_number};

/// How many letters apart a word may be from the one that is meant.
const MOST_APART: usize = 3;

/// The word is the name of a command.
fn is_command(word: &str) -> bool {
    for name in COMMAND_NAMES {
        if name == word {
            return true;
        }
    }
    false
}

/// The word asks for help or for the version, though not by `--help` or `--version` alone.
fn asks_for_help(word: &str) -> bool {
    matches!(
        word,
        "-h" | "help"
            | "-help"
            | "--help"
            | "-?"
            | "/?"
            | "usage"
            | "man"
            | "-V"
            | "version"
            | "-version"
            | "--version"
    )
}

/// The word looks like the name of a file.
fn is_file_name(word: &str) -> bool {
    word.as_bytes().contains(&b'.') || word.as_bytes().contains(&b'/')
}

/// Appends a word between accents.
fn say_word(text: &mut Vec<u8>, word: &str) -> Result<(), AllocError> {
    let bytes = word.as_bytes();
    say(text, "`")?;
    quote(text, &bytes[..bytes.len().min(60)])?;
    say(text, "`")
}

/// Keeps the nearer of two words.
fn nearer(
    alloc: Global,
    word: &str,
    name: &'static str,
    best: (usize, &'static str),
) -> Result<(usize, &'static str), AllocError> {
    let apart = levenshtein(alloc, word, name)?;
    Ok(if apart < best.0 { (apart, name) } else { best })
}

/// Appends which of these may be meant, where one is near by spelling.
fn say_nearest(
    text: &mut Vec<u8>,
    alloc: Global,
    word: &str,
    names: &[&'static str],
) -> Result<(), AllocError> {
    let mut best = (MOST_APART + 1, "");
    for name in names {
        best = nearer(alloc, word, name, best)?;
    }
    if best.0 > MOST_APART {
        return Ok(());
    }
    say(text, "Perhaps ")?;
    say_word(text, best.1)?;
    say(text, " is meant. ")
}

/// What stands before the name at a place in a list of `count` names: `last` before the last of them.
fn before(place: usize, count: usize, last: &'static str) -> &'static str
    requires { place < count }
{
    if place == 0 {
        ""
    } else if place + 1 == count {
        last
    } else {
        ", "
    }
}

/// Appends these names, as `a, b and c`.
fn say_names(text: &mut Vec<u8>, names: &[&'static str]) -> Result<(), AllocError> {
    for place in 0..names.len() {
        say(text, before(place, names.len(), " and "))?;
        say(text, names[place])?;
    }
    Ok(())
}

/// What has to stand behind the name of a command.
fn arguments(command: &str) -> &'static str {
    match command {
        "certify" => " N",
        "table" => " K",
        "generate" => " SEED COUNT",
        _ => "",
    }
}

/// Appends these commands with what has to stand behind each, as `a, b N or c`.
fn say_commands(text: &mut Vec<u8>, names: &[&'static str]) -> Result<(), AllocError> {
    for place in 0..names.len() {
        say(text, before(place, names.len(), " or "))?;
        say(text, names[place])?;
        say(text, arguments(names[place]))?;
    }
    Ok(())
}

/// Appends the form of the words.
fn say_form(text: &mut Vec<u8>) -> Result<(), AllocError> {
    say(
        text,
        "The words are: opening_bench JOURNAL COMMAND, where JOURNAL is a file, or `-` for a \
            journal in memory, and COMMAND is ",
    )?;
    say_commands(text, &COMMAND_NAMES)?;
    say(
        text,
        ". Games are read from standard input:\n  opening_bench games.journal solve \
            < games.pdn\n`opening_bench --help` says more.\n",
    )
}

/// Appends what is wrong with one word alone, which is no command.
fn say_lone_word(text: &mut Vec<u8>, alloc: Global, word: &str) -> Result<(), AllocError> {
    if asks_for_help(word) {
        return say_form(text);
    }
    if is_command(word) {
        say(text, "The journal comes first, and ")?;
        say_word(text, word)?;
        return say(text, " behind it: `-` stands for a journal in memory.\n");
    }
    say_nearest(text, alloc, word, &COMMAND_NAMES)?;
    say(text, "A command is due behind ")?;
    say_word(text, word)?;
    say(text, ".\n")?;
    say_form(text)
}

/// Appends what is wrong with a second word that is no command.
fn say_command(
    text: &mut Vec<u8>,
    alloc: Global,
    first: &str,
    word: &str,
) -> Result<(), AllocError> {
    if asks_for_help(word) || asks_for_help(first) {
        return say_form(text);
    }
    say_word(text, word)?;
    if is_command(first) {
        say(
            text,
            " stands where a command is due: the journal comes first, and then ",
        )?;
        say_word(text, first)?;
        return say(text, ".\n");
    }
    if is_file_name(word) {
        say(
            text,
            " stands where a command is due. Files are given on standard input, as `< FILE`.\n",
        )?;
        return say_form(text);
    }
    say(text, " is no command. ")?;
    say_nearest(text, alloc, word, &COMMAND_NAMES)?;
    say(text, "The commands are ")?;
    say_names(text, &COMMAND_NAMES)?;
    say(text, ".\n")
}

/// Appends two numbers with a word between them, and what stands behind them.
fn say_limits(
    text: &mut Vec<u8>,
    least: u32,
    between: &str,
    most: u32,
    behind: &str,
) -> Result<(), AllocError> {
    say_number(text, "", u64::from(least), between)?;
    say_number(text, "", u64::from(most), behind)
}

/// Appends which word cannot stand at a place where a number is due, or that one is missing there.
fn say_wrong_word(text: &mut Vec<u8>, words: &[&str], at: usize) -> Result<(), AllocError> {
    match words.get(at) {
        Some(word) => {
            say_word(text, word)?;
            say(text, " cannot stand there. ")
        }
        None => say(text, "A number is missing. "),
    }
}

/// Appends which numbers an option takes.
fn say_numbers(text: &mut Vec<u8>, option: SolveOption) -> Result<(), AllocError> {
    say(text, option.name())?;
    say(text, " takes a number from ")?;
    say_limits(
        text,
        option.least(),
        " to ",
        option.most(),
        ", as a word of its own, in digits alone and without zeros in front.\n",
    )
}

/// Appends what is wrong with a word where an option of `solve` is due.
fn say_option(text: &mut Vec<u8>, alloc: Global, word: &str) -> Result<(), AllocError> {
    say_word(text, word)?;
    if SolveOption::named(word).is_some() {
        return say(text, " stands there twice.\n");
    }
    if word.as_bytes().contains(&b'=') {
        return say(
            text,
            " is no option: the number is a word of its own, as in `--depth 4`.\n",
        );
    }
    if !word.as_bytes().starts_with(b"-") && is_file_name(word) {
        return say(
            text,
            " stands where an option is due. Games are given on standard input, as `< FILE`.\n",
        );
    }
    say(text, " is no option of `solve`. ")?;
    let names = SOLVE_OPTIONS.map(SolveOption::name);
    say_nearest(text, alloc, word, &names)?;
    say(text, "The options are ")?;
    say_names(text, &names)?;
    say(text, ", each with a number.\n")
}

/// Appends what is wrong with the words of `solve` at a place behind its name.
fn say_solve(
    text: &mut Vec<u8>,
    alloc: Global,
    words: &[&str],
    at: usize,
) -> Result<(), AllocError> {
    if at == 0 {
        return Ok(());
    }
    if at % 2 == 1 {
        return match words.get(at - 1) {
            Some(before) => match SolveOption::named(before) {
                Some(option) => {
                    say_wrong_word(text, words, at)?;
                    say_numbers(text, option)
                }
                None => Ok(()),
            },
            None => Ok(()),
        };
    }
    match words.get(at) {
        Some(word) => say_option(text, alloc, word),
        None => Ok(()),
    }
}

/// Appends which number a command with one takes.
fn say_one_number(text: &mut Vec<u8>, command: &str) -> Result<(), AllocError> {
    if command == "certify" {
        say(text, "certify takes the number of a root, from ")?;
        return say_limits(
            text,
            LEAST_ROOT,
            " to ",
            MOST_ROOT,
            ", as `report` shows it.\n",
        );
    }
    say(text, "table takes the number of pieces, ")?;
    say_limits(text, LEAST_PIECES, " or ", MOST_PIECES, ".\n")
}

/// Appends which numbers `generate` takes.
fn say_generated(text: &mut Vec<u8>) -> Result<(), AllocError> {
    say(text, "generate takes a seed, from ")?;
    say_limits(
        text,
        0,
        " to ",
        MOST_SEED,
        ", and then a number of openings, from ",
    )?;
    say_limits(text, LEAST_COUNT, " to ", MOST_COUNT, ".\n")
}

/// Appends what is wrong at a place behind the name of a command other than `solve`.
fn say_argument(
    text: &mut Vec<u8>,
    words: &[&str],
    command: &str,
    at: usize,
) -> Result<(), AllocError> {
    say_wrong_word(text, words, at)?;
    match command {
        "certify" | "table" if at == 2 => say_one_number(text, command),
        "generate" if at == 2 || at == 3 => say_generated(text),
        "verify" | "learn" | "table-check" => {
            say(text, command)?;
            say(
                text,
                " takes no further word: it reads standard input, as `< FILE`.\n",
            )
        }
        _ => {
            say(text, command)?;
            say(text, " takes no further word.\n")
        }
    }
}

/// The word at a place behind the command asks for help.
fn asks_behind_command(words: &[&str], at: usize) -> bool {
    match words.get(at) {
        Some(word) => at > 1 && asks_for_help(word),
        None => false,
    }
}

/// The first word looks like an option and names a file all the same.
fn is_odd_journal(words: &[&str]) -> bool {
    match words.first() {
        Some(word) => *word != "-" && word.as_bytes().starts_with(b"-") && !asks_for_help(word),
        None => false,
    }
}

/// Appends which file the first word names, where it looks like an option.
fn say_odd_journal(text: &mut Vec<u8>, words: &[&str]) -> Result<(), AllocError> {
    if is_odd_journal(words) {
        say(text, "The first word names the journal: the file ")?;
        say_word(text, words.first().copied().unwrap_or(""))?;
        say(text, ". Options stand behind `solve`.\n")?;
    }
    Ok(())
}

/// Appends what is wrong with the words at a place, counted from 0, and what may stand there.
pub(crate) fn say_words(
    text: &mut Vec<u8>,
    alloc: Global,
    words: &[&str],
    at: usize,
) -> Result<(), AllocError> {
    if asks_behind_command(words, at) {
        return say_form(text);
    }
    say_words_at(text, alloc, words, at)?;
    say_odd_journal(text, words)
}

/// Appends what is wrong with the words at a place, where none asks for help behind a command.
fn say_words_at(
    text: &mut Vec<u8>,
    alloc: Global,
    words: &[&str],
    at: usize,
) -> Result<(), AllocError> {
    match words {
        [] => say_form(text),
        [first] if first.is_empty() || at == 0 => say(
            text,
            "The first word is empty: it names the journal's file, or is `-` for a journal in memory.\n",
        ),
        [first] => say_lone_word(text, alloc, first),
        [_, ..] if at == 0 => say(
            text,
            "The first word is empty: it names the journal's file, or is `-` for a journal in memory.\n",
        ),
        [first, word, ..] if at == 1 => say_command(text, alloc, first, word),
        [_, command, ..] if *command == "solve" => say_solve(text, alloc, words, at),
        [_, command, ..] => say_argument(text, words, command, at),
    }
}
