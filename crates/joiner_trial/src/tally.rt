//! What came of the roots of forests.
use anyhow::Result;
use draughts_board::{Position, Side};
use endgame_table::Table;
use strategy_certificate::{Answer, Certificate, Claim, Part};

/// How many roots were settled with what value, and how large the certificates are.
#[derive(Clone, Copy, Default)]
pub(crate) struct Tally {
    pub(crate) nodes: usize,
    pub(crate) roots: u32,
    black_wins: u32,
    white_wins: u32,
    draws: u32,
    /// Of the joined certificates together.
    entries: usize,
    /// How many settled roots the table of three has too.
    compared: u32,
    /// Of how many of them the table of three says another value.
    unlike: u32,
}

/// How many entries the part has.
fn part_len(part: &Part) -> usize {
    match part {
        Part::Win(part) => part.len(),
        Part::Hold(part) => part.len(),
    }
}

/// What the table's answer says of the position.
fn claim_of(p: &Position, answer: Answer) -> Claim {
    match answer {
        Answer::Win(_) => Claim::Win(p.to_move()),
        Answer::Loss(_) => Claim::Win(p.to_move().other()),
        Answer::Draw => Claim::Draw,
    }
}

impl Tally {
    /// Counts a value.
    fn add_claim(&mut self, claim: Claim) {
        let count = match claim {
            Claim::Win(Side::Black) => &mut self.black_wins,
            Claim::Win(Side::White) => &mut self.white_wins,
            Claim::Hold(_) | Claim::Draw => &mut self.draws,
        };
        *count = count.saturating_add(1);
    }

    /// Compares the claim with the answer of the table, where it has one.
    fn compare(&mut self, c: &Certificate, three: &Table) {
        let Some(answer) = three.probe(&c.position) else {
            return;
        };
        self.compared = self.compared.saturating_add(1);
        if claim_of(&c.position, answer) != c.claim {
            self.unlike = self.unlike.saturating_add(1);
        }
    }

    /// Counts a settled root by its joined certificate, which the checker accepted.
    pub(crate) fn add(&mut self, c: &Certificate, three: &Table) {
        self.add_claim(c.claim);
        self.compare(c, three);
        for part in c.parts.as_slice() {
            self.entries = self.entries.saturating_add(part_len(part));
        }
    }

    /// Prints what was counted.
    pub(crate) fn print(&self, rt: &impl Print) -> Result<()> {
        let Tally {
            nodes,
            roots,
            black_wins,
            white_wins,
            draws,
            entries,
            compared,
            unlike,
        } = *self;
        println!(rt; "{roots} roots, {nodes} nodes")?;
        println!(rt;
            "joined and checked: Black wins {black_wins}, White wins {white_wins}, draws {draws}"
        )?;
        println!(rt;
            "{entries} entries; of {compared} roots that the table of three has, {unlike} with another value"
        )?;
        Ok(())
    }
}
