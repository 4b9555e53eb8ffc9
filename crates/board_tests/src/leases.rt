//! Leases of a table that lets one last for two leases given, worked by hand; and many events
//! beside a plain list.
ghost use Rattle.std.specs.Prelude.{◌≡◌};

use draughts_board::{Position, Side};
use lease_table::{Lease, LeaseId, Leases, Stale};
use std::alloc::{AllocError, Global};
use std::test::Fail;

/// The lease of this number and node for the start position.
fn lease(id: u64, node: u64) -> Lease
    ensures id { result.id ≡ id }
    ensures node { result.node ≡ node }
{
    Lease {
        id: LeaseId::new(u128::from(id)),
        node,
        position: Position::start(),
        goal: Side::Black,
        depth: 4,
        pieces: 2,
        worker: 0,
    }
}

/// Gives the lease of this number for the node, unless the number was given or the node is leased:
/// then false.
fn give(table: &mut Leases, id: u64, node: u64) -> Result<bool, AllocError> {
    let now = u128::from(id);
    if table.row(LeaseId::new(now)).is_some() || table.leased(node, now) {
        return Ok(false);
    }
    table.give(lease(id, node), now)?;
    Ok(true)
}

/// Gives the leases 1 of node 7 and 2 of node 8.
fn give_two(table: &mut Leases) -> Result<(), AllocError> {
    let _ = give(table, 1, 7)?;
    let _ = give(table, 2, 8)?;
    Ok(())
}

/// A table with those, in which a lease lasts for two leases given.
fn with_two(alloc: Global) -> Result<Leases, AllocError> {
    let mut table = Leases::new(alloc, 2);
    give_two(&mut table)?;
    Ok(table)
}

/// How many leases live at 2, at 3 and at 4, and whether node 7 is leased at 2 and at 3.
fn lives_of(table: &Leases) -> ([usize; 3], [bool; 2]) {
    (
        [table.live(2), table.live(3), table.live(4)],
        [table.leased(7, 2), table.leased(7, 3)],
    )
}

/// The lease of a number, if a row has it.
fn row(table: &Leases, id: u64) -> Option<Lease> {
    table.row(LeaseId::new(u128::from(id)))
}

#[test]
fn leases_run_out_by_number(rt: HostRuntime) -> Result<(), Fail> {
    let table = with_two(rt.alloc())?;
    assert!(rt; [row(&table, 1), row(&table, 3)] == [Some(lease(1, 7)), None]);
    // The first lives at 1 and 2, the second at 2 and 3.
    assert_eq!(rt; lives_of(&table), ([2, 1, 0], [true, false]));
    Ok(())
}

/// Whether node 7 is leased again by lease 3, whether a row has lease 1 then, and whether node 7 is
/// leased once more by lease 4.
fn leased_again(table: &mut Leases) -> Result<[bool; 3], AllocError> {
    let third = give(table, 3, 7)?;
    let first = row(table, 1).is_some();
    Ok([third, first, give(table, 4, 7)?])
}

#[test]
fn a_node_is_leased_again(rt: HostRuntime) -> Result<(), Fail> {
    let mut table = with_two(rt.alloc())?;
    // The first ran out, and its row went; then node 7 is leased.
    assert_eq!(rt; leased_again(&mut table)?, [true, false, false]);
    Ok(())
}

/// The number of the lease that is stale, if one is.
fn stale(done: Result<(), Stale>) -> Option<u128> {
    match done {
        Ok(()) => None,
        Err(Stale(id)) => Some(id.number()),
    }
}

/// Which of the two leases is stale when it is kept at 3.
fn kept(table: &mut Leases) -> [Option<u128>; 2] {
    let first = stale(table.keep(LeaseId::new(1), 3));
    let second = stale(table.keep(LeaseId::new(2), 3));
    [first, second]
}

/// How many leases live at 9, whether the second does, and how many when it was ended.
fn ended(table: &mut Leases) -> (usize, bool, Option<u128>, usize) {
    let id = LeaseId::new(2);
    table.sweep(9);
    let (count, lives) = (table.live(9), table.is_live(id, 9));
    let stale = stale(table.end(id, 9));
    (count, lives, stale, table.live(9))
}

#[test]
fn kept_leases_live_until_they_end(rt: HostRuntime) -> Result<(), Fail> {
    let mut table = with_two(rt.alloc())?;
    assert_eq!(rt; kept(&mut table), [Some(1), None]);
    assert_eq!(rt; ended(&mut table), (1, true, None, 0));
    Ok(())
}

/// Takes back the keep of a lease.
fn unkeep(table: &mut Leases, id: LeaseId) {
    if table.is_kept(id) {
        table.unkeep(id);
    }
}

/// Whether the second lease, whose keep at 2 is taken back, lives at 3 and at 4, and whether it is
/// stale when it is ended at 4.
fn taken_back(table: &mut Leases) -> (bool, bool, Option<u128>) {
    let id = LeaseId::new(2);
    let _ = table.keep(id, 2);
    unkeep(table, id);
    let (at_3, at_4) = (table.is_live(id, 3), table.is_live(id, 4));
    (at_3, at_4, stale(table.end(id, 4)))
}

#[test]
fn a_keep_is_taken_back(rt: HostRuntime) -> Result<(), Fail> {
    let mut table = with_two(rt.alloc())?;
    assert_eq!(rt; taken_back(&mut table), (true, false, Some(2)));
    Ok(())
}

#[test]
fn a_stale_lease_is_named(rt: HostRuntime) -> Result<(), Fail> {
    let text = format!(in rt.alloc(); "{}", Stale(LeaseId::new(2)))?;
    assert_eq!(rt; text.as_str(), "the lease does not live");
    Ok(())
}

/// A lease as the plain list has it: its number, and whether it is kept.
#[derive(Clone, Copy)]
struct Given {
    id: u64,
    kept: bool,
}

/// Nine nodes, and of each the last lease that was given and has not ended.
type PlainList = [Option<Given>; 9];

/// Whether it lives at this number where one lasts for five leases given.
fn lives(given: &Given, now: u64) -> bool {
    given.kept || now < given.id.saturating_add(5)
}

/// The next of a sequence of numbers: a linear congruence, its high half mixed in.
fn next(seed: u64) -> u64 {
    let mixed = seed
        .wrapping_mul(6_364_136_223_846_793_005)
        .wrapping_add(1_442_695_040_888_963_407);
    mixed ^ (mixed >> 29)
}

/// A node is to be leased, and a lease that was given up to seven leases before is kept, or ended.
#[derive(Clone, Copy)]
struct Event {
    now: u64,
    node: u64,
    id: u64,
    ends: bool,
}

/// The event of this number.
fn numbered(now: u64, seed: u64) -> Event {
    Event {
        now,
        node: seed % 9,
        id: now.saturating_sub(seed / 16 % 8),
        ends: seed % 3 == 0,
    }
}

/// Whether the node was leased before the event, whether the event's lease lived, and how many
/// leases live behind it.
type Seen = (bool, bool, usize);

/// Keeps the event's lease, or ends it. Whether it lived.
fn change(table: &mut Leases, event: Event) -> bool {
    let (id, now) = (LeaseId::new(u128::from(event.id)), u128::from(event.now));
    if event.ends {
        table.end(id, now).is_ok()
    } else {
        table.keep(id, now).is_ok()
    }
}

/// What is seen of the event in the table.
fn seen(table: &mut Leases, event: Event) -> Result<Seen, AllocError> {
    let now = u128::from(event.now);
    let leased = table.leased(event.node, now);
    let _ = give(table, event.now, event.node)?;
    let lived = change(table, event);
    table.sweep(now);
    Ok((leased, lived, table.live(now)))
}

/// What the event leaves of a lease.
fn left(slot: Option<Given>, event: Event) -> Option<Given> {
    let given = slot?;
    if !lives(&given, event.now) || (event.ends && given.id == event.id) {
        return None;
    }
    Some(Given {
        kept: given.kept || given.id == event.id,
        ..given
    })
}

/// Whether the lease of this number stands in the list and lives.
fn has_living(list: &PlainList, id: u64, now: u64) -> bool {
    for slot in list {
        if let Some(given) = slot {
            if given.id == id && lives(given, now) {
                return true;
            }
        }
    }
    false
}

/// Leases the node in the list, unless a lease of it lives. Whether one does.
fn lease_in(list: &mut PlainList, event: Event) -> bool {
    let Some(slot) = list.get_mut(event.node as usize) else {
        return false;
    };
    if let Some(given) = slot {
        if lives(given, event.now) {
            return true;
        }
    }
    *slot = Some(Given {
        id: event.now,
        kept: false,
    });
    false
}

/// What is seen of the event in the list.
fn due(list: &mut PlainList, event: Event) -> Seen {
    let leased = lease_in(list, event);
    let lived = has_living(list, event.id, event.now);
    let mut count = 0_usize;
    for slot in list.iter_mut() {
        *slot = left(*slot, event);
        if slot.is_some() {
            count = count.saturating_add(1);
        }
    }
    (leased, lived, count)
}

/// The first of 2,000 events of which something else is seen in the table than in the list.
fn first_difference(alloc: Global) -> Result<Option<u64>, AllocError> {
    let mut table = Leases::new(alloc, 5);
    let mut list: PlainList = [None; 9];
    let mut seed = 20_261_127;
    for now in 1..2_000u64 {
        seed = next(seed);
        let event = numbered(now, seed);
        if seen(&mut table, event)? != due(&mut list, event) {
            return Ok(Some(now));
        }
    }
    Ok(None)
}

#[test]
fn agrees_with_a_plain_list(rt: HostRuntime) -> Result<(), Fail> {
    assert_eq!(rt; first_difference(rt.alloc())?, None);
    Ok(())
}
