//! Marking the origins of decided indices: one step back from what the last search found.
ghost use Rattle.std.specs.Prelude.{◌≡◌, ◌≢◌, ◌<◌, ◌≤◌, ◌++◌, ◌∷◌, [], ℕ, All, OnOk, length, slice_index};
ghost use Rattle.endgame_table.specs.Origins.{AreLinks, origins_from};
ghost use Rattle.endgame_table.specs.Marking.{Marks, MarksLast, times};

use crate::origins::{Link, Origins};
use std::alloc::AllocError;

/// Gives the index this number if it is undecided, and puts it behind those found.
fn mark(
    index: u32,
    number: u32,
    numbers: &mut [u32],
    found: &mut Vec<u32>,
) -> Result<(), AllocError>
    requires { index < length numbers.old }
    ensures { OnOk result
        (Marks number (index ∷ []) numbers.old numbers.new found.old.items found.new.items) }
{
    if numbers[index as usize] != 0 {
        return Ok(());
    }
    numbers[index as usize] = number;
    found.push(index)?;
    Ok(())
}

/// Gives each undecided index of the list of origins that begins at this place the number, and puts it behind those
/// found.
pub(crate) fn mark_origins(
    links: &[Link],
    mut place: u32,
    number: u32,
    numbers: &mut [u32],
    found: &mut Vec<u32>,
) -> Result<(), AllocError>
    requires links { AreLinks links.now }
    requires place { place ≤ length links.now }
    requires inside { All (λ i. i < length numbers.old) (origins_from links.now place) }
    ensures { OnOk result
        (Marks number (origins_from links.now place)
        numbers.old numbers.new found.old.items found.new.items) }
{
    while place != 0 {
        let link = links[place as usize - 1];
        mark(link.origin, number, numbers, found)?;
        place = link.next;
    }
    Ok(())
}

/// The index waits for one target less. Gives it this number if it is undecided and this was the last one, and puts it
/// behind those found.
fn mark_last(
    index: u32,
    number: u32,
    waiting: &mut [u32],
    numbers: &mut [u32],
    found: &mut Vec<u32>,
) -> Result<(), AllocError>
    requires numbers { index < length numbers.old }
    requires waiting { index < length waiting.old }
    requires some { 1 ≤ slice_index waiting.old index }
    ensures { OnOk result
        (MarksLast number (index
        ∷ []) waiting.old waiting.new numbers.old numbers.new found.old.items found.new.items) }
{
    let left = &mut waiting[index as usize];
    *left -= 1;
    let is_last = *left == 0;
    if is_last {
        mark(index, number, numbers, found)
    } else {
        Ok(())
    }
}

/// Each index of the list of origins that begins at this place waits for one target less; each undecided one that waits
/// for none any more gets the number, and is put behind those found.
pub(crate) fn mark_last_origins(
    links: &[Link],
    mut place: u32,
    number: u32,
    waiting: &mut [u32],
    numbers: &mut [u32],
    found: &mut Vec<u32>,
) -> Result<(), AllocError>
    requires links { AreLinks links.now }
    requires place { place ≤ length links.now }
    requires inside { All (λ i. i < length numbers.old) (origins_from links.now place) }
    requires same { length waiting.old ≡ length numbers.old }
    requires enough { (i : ℕ) → times i (origins_from links.now place) ≤ slice_index waiting.old i }
    ensures { OnOk result
        (MarksLast number
        (origins_from links.now place) waiting.old waiting.new numbers.old numbers.new
        found.old.items found.new.items) }
{
    while place != 0 {
        let link = links[place as usize - 1];
        mark_last(link.origin, number, waiting, numbers, found)?;
        place = link.next;
    }
    Ok(())
}
