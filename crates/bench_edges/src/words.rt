//! The words that the program is called with.
ghost use Rattle.std.specs.Prelude.{◌≡◌, ◌≢◌, ◌<◌, ◌≤◌, ◌+◌, [], ◌∷◌, List, ℕ, IfOk, IfErr, IfSome, Ok, Err, None, OnOk, OnErr, length, take, slice_index_or, decimal, codes};
ghost use Rattle.bench_edges.specs.Words.{AreGiven, IsPlain, IsRefusedAt, IsWithinLimits, Says, least_of, most_of, option_name, place_of, texts};
ghost use Rattle.bench_edges.specs.declared.words.SolveOption.{SolveOption};

use shared_words::number;
use thiserror::Error;

/// What the program is to do.
#[derive(Clone, Copy, Debug, PartialEq, Eq)]
pub enum Command {
    /// Solve the openings of the source on the journal.
    Solve(Options),
    /// Write what the journal holds.
    Report,
    /// Write the certificate of a root of the journal, by its number from 1.
    Certify(u32),
    /// Check the text of a certificate, which the source holds.
    Verify,
    /// Take the certificate that the source holds into the journal.
    Learn,
    /// Write the endgame table of this number of pieces, 2 or 3.
    MakeTable(u8),
    /// Check the endgame table that the source holds.
    TableCheck,
    /// Solve openings made from a seed on the journal.
    Generate {
        /// Where the openings begin, any number of 32 bits.
        seed: u32,
        /// How many openings there are, 1 to 2,000.
        count: u32,
    },
}

/// The options of `solve`.
#[derive(Clone, Copy, Debug, PartialEq, Eq)]
pub struct Options {
    /// How many workers search at once, 1 to 64.
    pub workers: u8,
    /// How many plies a search looks ahead, 0 to 12.
    pub depth: u8,
    /// The number of pieces of the endgame table, 2 or 3.
    pub pieces: u8,
    /// How many plies of each game are played, 0 to 200.
    pub plies: u8,
    /// How many records of work the run may add to the journal, 0 to 1,000,000.
    pub budget: u32,
    /// How many leases later a lease of a leaf runs out, 1 to 1,000,000,000.
    pub lease: u32,
}

/// An option of `solve`, each with a number.
#[derive(Clone, Copy, Debug, PartialEq, Eq)]
pub enum SolveOption {
    Workers,
    Depth,
    Pieces,
    Plies,
    Budget,
    Lease,
}

/// The words are not in the grammar.
#[derive(Clone, Copy, Debug, PartialEq, Eq, Error)]
#[error("the words are refused at word {at}")]
pub struct WordsRefusal {
    /// The place, from 0, of the first word that cannot stand there, or the number of words where
    /// one is missing.
    pub at: usize,
}

/// How many workers search at once where no number is given.
pub const DEFAULT_WORKERS: u32 = 1;

/// The least number of workers.
pub const LEAST_WORKERS: u32 = 1;

/// The most workers that search at once.
pub const MOST_WORKERS: u32 = 64;

/// How many plies a search looks ahead where no number is given.
pub const DEFAULT_DEPTH: u32 = 4;

/// The most plies that a search looks ahead.
pub const MOST_DEPTH: u32 = certificate_checker::MOST_DEPTH as u32;

/// How many plies of each game are played where no number is given.
pub const DEFAULT_PLIES: u32 = 200;

/// The most plies of each game that are played.
pub const MOST_PLIES: u32 = 200;

/// The number of pieces of the endgame table of `solve` where no number is given.
pub const DEFAULT_PIECES: u32 = 2;

/// The least number of pieces of an endgame table.
pub const LEAST_PIECES: u32 = 2;

/// The most pieces of an endgame table.
pub const MOST_PIECES: u32 = 3;

/// How many records of work a run may add where no number is given.
pub const DEFAULT_BUDGET: u32 = 1_000;

/// The most records of work that a run may add.
pub const MOST_BUDGET: u32 = bench_core::MOST_WORK;

/// How many leases later a lease runs out where no number is given.
pub const DEFAULT_LEASE: u32 = 1_000_000;

/// The least number of leases after which a lease runs out.
pub const LEAST_LEASE: u32 = 1;

/// The greatest number of leases after which a lease runs out.
pub const MOST_LEASE: u32 = bench_core::MOST_LEASE;

/// The number of the first root of a journal.
pub const LEAST_ROOT: u32 = 1;

/// The number of the last root that a journal can hold.
pub const MOST_ROOT: u32 = proof_tree::MOST_ROOTS as u32;

/// The greatest seed of `generate`.
pub const MOST_SEED: u32 = 4_294_967_295;

/// The fewest openings that `generate` makes.
pub const LEAST_COUNT: u32 = 1;

/// The most openings that `generate` makes.
pub const MOST_COUNT: u32 = capture_positions::MOST_OPENINGS;

/// How many options `solve` has.
const OPTION_COUNT: usize = 6;

/// The options of `solve`, in the order of the manual.
pub const SOLVE_OPTIONS: [SolveOption; OPTION_COUNT] = [
    SolveOption::Workers,
    SolveOption::Depth,
    SolveOption::Pieces,
    SolveOption::Plies,
    SolveOption::Budget,
    SolveOption::Lease,
];

/// The names of the commands, in the order of the manual.
pub const COMMAND_NAMES: [&str; 8] = [
    "solve",
    "report",
    "certify",
    "verify",
    "learn",
    "table",
    "table-check",
    "generate",
];

impl SolveOption {
    /// The word that names it.
    pub fn name(self) -> &'static str
        ensures { result.now ≡ option_name self }
    {
        match self {
            SolveOption::Workers => "--workers",
            SolveOption::Depth => "--depth",
            SolveOption::Pieces => "--pieces",
            SolveOption::Plies => "--plies",
            SolveOption::Budget => "--budget",
            SolveOption::Lease => "--lease",
        }
    }

    /// The option that a word names, if it names one.
    pub fn named(word: &str) -> Option<SolveOption>
        ensures some { IfSome result (λ option. word.now ≡ option_name option) }
        ensures none { result ≡ None → (option : SolveOption) → word.now ≢ option_name option }
    {
        match word {
            "--workers" => Some(SolveOption::Workers),
            "--depth" => Some(SolveOption::Depth),
            "--pieces" => Some(SolveOption::Pieces),
            "--plies" => Some(SolveOption::Plies),
            "--budget" => Some(SolveOption::Budget),
            "--lease" => Some(SolveOption::Lease),
            _ => None,
        }
    }

    /// Its place among the options, from 0.
    fn place(self) -> usize
        ensures place { result ≡ place_of self }
        ensures within { result < OPTION_COUNT }
    {
        self as usize
    }

    /// The least number that it takes.
    pub fn least(self) -> u32
        ensures { result ≡ least_of self }
    {
        match self {
            SolveOption::Workers => LEAST_WORKERS,
            SolveOption::Pieces => LEAST_PIECES,
            SolveOption::Lease => LEAST_LEASE,
            _ => 0,
        }
    }

    /// The most that it takes.
    pub fn most(self) -> u32
        ensures { result ≡ most_of self }
    {
        match self {
            SolveOption::Workers => MOST_WORKERS,
            SolveOption::Depth => MOST_DEPTH,
            SolveOption::Pieces => MOST_PIECES,
            SolveOption::Plies => MOST_PLIES,
            SolveOption::Budget => MOST_BUDGET,
            SolveOption::Lease => MOST_LEASE,
        }
    }
}

/// The number at a place, from `least` to `most`.
fn number_at(words: &[&str], at: usize, least: u32, most: u32) -> Result<u32, WordsRefusal>
    ensures within { OnOk result (at < length words.now) }
    ensures least { IfOk result (λ n. least ≤ n) }
    ensures most { IfOk result (λ n. n ≤ most) }
    ensures word { IfOk result (λ n. slice_index_or (texts words.now) at [] ≡ decimal n) }
    ensures place { IfErr result (λ refusal. refusal.at ≡ at) }
    ensures other { OnErr result (at < length words.now → (n : ℕ) → least ≤ n → n ≤ most →
        slice_index_or (texts words.now) at [] ≢ decimal n) }
{
    if at >= words.len() {
        return Err(WordsRefusal { at });
    }
    match number(words[at].as_bytes()) {
        Some(n) if u64::from(least) <= n && n <= u64::from(most) => Ok(n as u32),
        _ => Err(WordsRefusal { at }),
    }
}

/// Reads the options of `solve`, which stand behind the first two words: the number that each is
/// given, by its place.
fn read_settings(words: &[&str]) -> Result<[Option<u32>; OPTION_COUNT], WordsRefusal>
    requires { (path : List ℕ) × (path ≢ [])
        × (take 2 (texts words.now) ≡ path ∷ codes "solve" ∷ []) }
    ensures given { IfOk result (λ numbers. AreGiven (texts words.now) numbers) }
    ensures refused { IfErr result (λ refusal. IsRefusedAt (texts words.now) refusal.at) }
{
    let mut numbers = [None; OPTION_COUNT];
    let mut at = 2;
    while at < words.len() {
        let Some(option) = SolveOption::named(words[at]) else {
            return Err(WordsRefusal { at });
        };
        if numbers[option.place()].is_some() {
            return Err(WordsRefusal { at });
        }
        let number = number_at(words, at + 1, option.least(), option.most())?;
        numbers[option.place()] = Some(number);
        at += 2;
    }
    Ok(numbers)
}

/// Reads the options of `solve`, which stand behind the first two words.
fn read_solve(words: &[&str]) -> Result<Command, WordsRefusal>
    requires { (path : List ℕ) × (path ≢ [])
        × (take 2 (texts words.now) ≡ path ∷ codes "solve" ∷ []) }
    ensures command { IfOk result (λ command. Says (texts words.now) command) }
    ensures refused { IfErr result (λ refusal. IsRefusedAt (texts words.now) refusal.at) }
{
    let [workers, depth, pieces, plies, budget, lease] = read_settings(words)?;
    Ok(Command::Solve(Options {
        workers: workers.unwrap_or(DEFAULT_WORKERS) as u8,
        depth: depth.unwrap_or(DEFAULT_DEPTH) as u8,
        pieces: pieces.unwrap_or(DEFAULT_PIECES) as u8,
        plies: plies.unwrap_or(DEFAULT_PLIES) as u8,
        budget: budget.unwrap_or(DEFAULT_BUDGET),
        lease: lease.unwrap_or(DEFAULT_LEASE),
    }))
}

/// Reads the pieces of `table`, which stand behind the first two words.
fn read_table(words: &[&str]) -> Result<Command, WordsRefusal>
    requires { (path : List ℕ) × (path ≢ [])
        × (take 2 (texts words.now) ≡ path ∷ codes "table" ∷ []) }
    ensures command { IfOk result (λ command. Says (texts words.now) command) }
    ensures refused { IfErr result (λ refusal. IsRefusedAt (texts words.now) refusal.at) }
{
    let pieces = number_at(words, 2, LEAST_PIECES, MOST_PIECES)?;
    if words.len() > 3 {
        return Err(WordsRefusal { at: 3 });
    }
    Ok(Command::MakeTable(pieces as u8))
}

/// Reads the root of `certify`, which stands behind the first two words.
fn read_certify(words: &[&str]) -> Result<Command, WordsRefusal>
    requires { (path : List ℕ) × (path ≢ [])
        × (take 2 (texts words.now) ≡ path ∷ codes "certify" ∷ []) }
    ensures command { IfOk result (λ command. Says (texts words.now) command) }
    ensures refused { IfErr result (λ refusal. IsRefusedAt (texts words.now) refusal.at) }
{
    let root = number_at(words, 2, LEAST_ROOT, MOST_ROOT)?;
    if words.len() > 3 {
        return Err(WordsRefusal { at: 3 });
    }
    Ok(Command::Certify(root))
}

/// Reads the seed and the count of `generate`, which stand behind the first two words.
fn read_generate(words: &[&str]) -> Result<Command, WordsRefusal>
    requires { (path : List ℕ) × (path ≢ [])
        × (take 2 (texts words.now) ≡ path ∷ codes "generate" ∷ []) }
    ensures command { IfOk result (λ command. Says (texts words.now) command) }
    ensures refused { IfErr result (λ refusal. IsRefusedAt (texts words.now) refusal.at) }
{
    let seed = number_at(words, 2, 0, MOST_SEED)?;
    let count = number_at(words, 3, LEAST_COUNT, MOST_COUNT)?;
    if words.len() > 4 {
        return Err(WordsRefusal { at: 4 });
    }
    Ok(Command::Generate { seed, count })
}

/// Reads a command that its name alone says, which is the second word.
fn read_plain(words: &[&str], command: Command) -> Result<Command, WordsRefusal>
    requires plain { IsPlain command }
    requires front { Says (take 2 (texts words.now)) command }
    ensures command { IfOk result (λ command. Says (texts words.now) command) }
    ensures refused { IfErr result (λ refusal. IsRefusedAt (texts words.now) refusal.at) }
{
    if words.len() > 2 {
        return Err(WordsRefusal { at: 2 });
    }
    Ok(command)
}

/// Reads the words, without the program's name: a path, which is not empty, and then one of these.
///
/// - `solve` and its options in any order, each at most once, with its number in the next word:
///   `--workers`, 1 to 64 and by default 1, `--depth`, 0 to 12 and by default 4, `--pieces`, 2 or 3
///   and by default 2, `--plies`, 0 to 200 and by default 200, `--budget`, 0 to 1,000,000 and by
///   default 1,000, and `--lease`, 1 to 1,000,000,000 and by default 1,000,000.
/// - `report`.
/// - `certify` and the number of a root, 1 to 65,536.
/// - `verify`.
/// - `learn`.
/// - `table` and the number of pieces, 2 or 3.
/// - `table-check`.
/// - `generate`, a seed, 0 to 4,294,967,295, and a count, 1 to 2,000.
///
/// Refuses words that are not in this grammar at the first that cannot stand where it stands
/// (places count from 0), or at their number where one is missing.
pub fn read_words(words: &[&str]) -> Result<Command, WordsRefusal>
    ensures command { IfOk result (λ command. Says (texts words.now) command) }
    ensures limits { IfOk result (λ command. IsWithinLimits command) }
    ensures each_command { (command : Command) → Says (texts words.now) command →
        result ≡ Ok command }
    ensures refused { IfErr result (λ refusal. IsRefusedAt (texts words.now) refusal.at) }
    ensures each_refusal { (at : ℕ) → IsRefusedAt (texts words.now) at →
        result ≡ Err (record { at = at }) }
{
    if words.is_empty() || words[0].is_empty() {
        return Err(WordsRefusal { at: 0 });
    }
    if words.len() == 1 {
        return Err(WordsRefusal { at: 1 });
    }
    match words[1] {
        "solve" => read_solve(words),
        "report" => read_plain(words, Command::Report),
        "certify" => read_certify(words),
        "verify" => read_plain(words, Command::Verify),
        "learn" => read_plain(words, Command::Learn),
        "table" => read_table(words),
        "table-check" => read_plain(words, Command::TableCheck),
        "generate" => read_generate(words),
        _ => Err(WordsRefusal { at: 1 }),
    }
}
