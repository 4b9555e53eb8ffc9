//! Which part of the certificates of a node shows what is known of it.
ghost use Rattle.std.specs.Prelude.{◌≡◌, ℕ, List, Contains, All, MatchOption, true, false};
ghost use Rattle.strategy_certificate.specs.declared.certificates.Certificate.{Certificate};
ghost use Rattle.certificate_joiner.specs.Shelf.{certificates_of};
ghost use Rattle.certificate_joiner.specs.Steps.{IsDistinctPart};
ghost use Rattle.certificate_joiner.specs.Strategy.{part_shows, IsShowingPart, ShowsNone};

use crate::shelf::PartShelf;
use crate::steps::{Aim, Quest};
use proof_tree::NodeId;
use strategy_certificate::{Certificate, Part};

/// By the part the quest's side wins, or holds.
fn shows(one: &Part, quest: Quest) -> bool
    ensures value { result ≡ part_shows quest.aim quest.side one.now }
    ensures distinct { IsDistinctPart one.now }
{
    match one {
        Part::Win(list) => list.side() == quest.side,
        Part::Hold(list) => match quest.aim {
            Aim::Win => false,
            Aim::Hold => list.side() == quest.side,
        },
    }
}

/// The first of these parts that shows it.
fn find_in(parts: &[Part], quest: Quest) -> Option<&Part>
    ensures { MatchOption result
        (All (λ one. part_shows quest.aim quest.side one ≡ false) parts.now)
        (λ one. Contains parts.now one.now
        × ((part_shows quest.aim quest.side one.now ≡ true) × IsDistinctPart one.now)) }
{
    for i in 0..parts.len() {
        if shows(&parts[i], quest) {
            return Some(&parts[i]);
        }
    }
    None
}

/// The first part of these certificates that shows it.
fn find_among(shown: &[Certificate], quest: Quest) -> Option<&Part>
    ensures { MatchOption result
        (All (ShowsNone quest.aim quest.side) shown.now)
        (λ one. IsShowingPart quest.aim quest.side shown.now one.now) }
{
    for i in 0..shown.len() {
        let found = find_in(shown[i].parts.as_slice(), quest);
        if let Some(one) = found {
            return Some(one);
        }
    }
    None
}

/// The first part that shows it of the certificates that stand on the shelf for a node.
pub(crate) fn find_part<'a>(shelf: &'a PartShelf, n: NodeId, quest: Quest) -> Option<&'a Part>
    ensures { MatchOption result
        (All (ShowsNone quest.aim quest.side) (certificates_of n shelf.now.puts))
        (λ one. IsShowingPart quest.aim quest.side (certificates_of n shelf.now.puts) one.now) }
{
    for i in 0..shelf.batches(n) {
        let found = find_among(shelf.of(n, i), quest);
        if let Some(one) = found {
            return Some(one);
        }
    }
    None
}
