//! The table of leases.
ghost use Rattle.std.specs.Prelude.{◌≡◌, ℕ, ◌≤◌, ◌<◌, ◌+◌, ◌⊎◌, false, Some, None, IsSome, OnOk, is_some, eqb, if◌then◌else◌, count_by, filter, find, map, length, slice_get};
ghost use Rattle.std.specs.List.{IsDistinct};
ghost use Rattle.std.specs.Map.{lookup, keys_of};
ghost use Rattle.std.specs.Option.{option_flatten, option_map, option_map_or};
ghost use Rattle.indexmap.specs.IndexMap.{insert_entry, spare};
ghost use Rattle.lease_table.specs.Rows.{is_of, is_live_row, is_waiting_row};

use crate::leases::{Lease, LeaseId, Row, Stale};
use indexmap::IndexMap;
use std::alloc::{AllocError, Global};
use std::marker::Model;

impl Row {
    ghost use Rattle.lease_table.specs.Rows.{is_live_row};

    /// Whether it lives at this number, in a table of this limit.
    fn is_live(&self, limit: u32, now: u128) -> bool
        ensures { result ≡ is_live_row limit now self.now }
    {
        let id = self.lease.id.number();
        self.kept || now < id || now - id < u128::from(limit)
    }
}

/// Below this number of places none is freed of those of leases that ended.
const FEW_PLACES: usize = 64;

/// The leases that were given and have not ended, in the order in which they were given.
///
/// A contract sees the limit and the list of rows. A lease is looked up by its number, or by its node, given and ended in
/// one step, on the average over many. To count the live ones and to sweep goes over all places: at most 64, or twice as
/// many as rows once stood.
#[derive(Drop)]
pub struct Leases {
    limit: u32,
    /// The rows under their numbers, in the order in which they were given; none in the place of one that ended.
    rows: IndexMap<u128, Option<Row>>,
    /// Of each node up to the greatest that was leased, the number of its last lease.
    numbers: Vec<u128>,
    /// With this number of places, those of leases that ended are freed before the next is given.
    most_places: usize,
}

impl Model for Leases {
    ghost use Rattle.lease_table.specs.Rows.{LeaseRows};
    ghost use Rattle.lease_table.specs.Tables.{IsLeaseTable, rows_of};

    ghost Value = { LeaseRows };

    ghost view = { λ t. record { limit = t.limit; rows = rows_of t.rows.entries } };

    ghost invariant = { λ t. IsLeaseTable t.rows.entries t.numbers.items };
}

impl Leases {
    ghost use Rattle.std.specs.Prelude.{◌++◌, ◌∷◌, [], ◌↔◌, true, false, length, count_by, Some, None, IfSome, IfNone, OnSome, OnOk, OnErr, IsErr, IfErr};
    ghost use Rattle.std.specs.Option.{option_map};
    ghost use Rattle.lease_table.specs.Rows.{is_live, is_kept, is_leased, is_live_row, first_waiting, live_rows, row_with, without, without_node, marked};

    /// A table without leases, each of which is to last for `limit` leases given: 1 to
    /// 1,000,000,000.
    pub fn new(alloc: Global, limit: u32) -> Leases
        ensures { result ≡ record { limit = limit; rows = [] } }
    {
        Leases {
            limit,
            rows: IndexMap::new(alloc),
            numbers: Vec::new(alloc),
            most_places: FEW_PLACES,
        }
    }

    /// The place of this number, where each later lease was given under the next number. It may be another's place.
    fn likely_place(&self, number: u128) -> Option<usize> {
        let (last, _) = self.rows.last()?;
        let later = usize::try_from(last.checked_sub(number)?).ok()?;
        self.rows.len().checked_sub(later)?.checked_sub(1)
    }

    /// The row of this number.
    fn numbered(&self, number: u128) -> Option<Row>
        ensures { result ≡ row_with number self.now.rows }
    {
        if let Some(place) = self.likely_place(number) {
            if let Some((found, row)) = self.rows.get_index(place) {
                if *found == number {
                    return *row;
                }
            }
        }
        match self.rows.get(&number) {
            Some(row) => *row,
            None => None,
        }
    }

    /// The lease of this number; none exactly where no row has it.
    pub fn row(&self, id: LeaseId) -> Option<Lease>
        ensures { result ≡ option_map (λ row. row.lease) (row_with id self.now.rows) }
    {
        match self.numbered(id.number()) {
            Some(row) => Some(row.lease),
            None => None,
        }
    }

    /// Whether the lease lives at this number.
    pub fn is_live(&self, id: LeaseId, now: u128) -> bool
        ensures { result ≡ is_live self.now id now }
    {
        match self.numbered(id.number()) {
            Some(row) => row.is_live(self.limit, now),
            None => false,
        }
    }

    /// Whether the lease is kept.
    pub fn is_kept(&self, id: LeaseId) -> bool
        ensures { result ≡ is_kept self.now id }
    {
        match self.numbered(id.number()) {
            Some(row) => row.kept,
            None => false,
        }
    }

    /// The lease of this number, if it lives at the number `now` and is not kept. It is looked up once.
    pub fn waiting(&self, id: LeaseId, now: u128) -> Option<Lease>
        ensures lease { IfSome result (λ lease.
            option_map (λ row. row.lease) (row_with id self.now.rows) ≡ Some lease) }
        ensures waits { OnSome result
            ((is_live self.now id now ≡ true) × (is_kept self.now id ≡ false)) }
        ensures none { IfNone result
            ((is_live self.now id now ≡ false) ⊎ (is_kept self.now id ≡ true)) }
    {
        let row = self.numbered(id.number())?;
        if row.kept || !row.is_live(self.limit, now) {
            return None;
        }
        Some(row.lease)
    }

    /// Whether a lease of this node lives at this number.
    pub fn leased(&self, node: u64, now: u128) -> bool
        ensures { result ≡ is_leased self.now node now }
    {
        let Some(number) = self.numbers.get(node as usize) else {
            return false;
        };
        match self.numbered(*number) {
            Some(row) => node == row.lease.node && row.is_live(self.limit, now),
            None => false,
        }
    }

    /// How many leases live at this number. Goes over all places.
    pub fn live(&self, now: u128) -> usize
        ensures { result ≡ count_by (is_live_row self.now.limit now) self.now.rows }
    {
        count_live(&self.rows, self.limit, now)
    }

    /// The number of the first lease that lives at this number and is not kept; none where there is
    /// no such lease. Goes over all places.
    pub fn first_waiting(&self, now: u128) -> Option<LeaseId>
        ensures { result ≡ option_map (λ row. row.lease.id) (first_waiting self.now now) }
    {
        let found = find_waiting(&self.rows, self.limit, now);
        match found.copied().flatten() {
            Some(row) => Some(row.lease.id),
            None => None,
        }
    }

    /// Gives a lease. A row of its node that ran out is dropped. After want of memory the table is
    /// as it was.
    pub fn give(&mut self, lease: Lease, now: u128) -> Result<(), AllocError>
        requires number { lease.id ≡ now }
        requires new { row_with now self.old.rows ≡ None }
        requires free { is_leased self.old lease.node now ≡ false }
        ensures ok { OnOk result (self.new ≡ record self.old {
          rows = without_node lease.node self.old.rows
              ++ record { lease = lease; kept = false } ∷ [];
        }) }
        ensures err { OnErr result (self.new ≡ self.old) }
    {
        make_room(&mut self.rows, &mut self.most_places, now)?;
        let node = lease.node as usize;
        reach(&mut self.numbers, node)?;
        end_last_of(&mut self.rows, self.numbers[node], lease.node);
        self.numbers[node] = now;
        let Ok(_) = self.rows.insert(now, Some(Row { lease, kept: false })) else {
            unreachable!()
        };
        Ok(())
    }

    /// Keeps a lease: from now on it lives until it ends.
    pub fn keep(&mut self, id: LeaseId, now: u128) -> Result<(), Stale>
        ensures stale { IsErr result ↔ (is_live self.old id now ≡ false) }
        ensures which { IfErr result (λ stale. stale ≡ record { 0 = id }) }
        ensures ok { OnOk result (self.new ≡ record self.old {
          rows = marked id true self.old.rows;
        }) }
        ensures err { OnErr result (self.new ≡ self.old) }
    {
        let Some(row) = self.numbered(id.number()) else {
            return Err(Stale(id));
        };
        if !row.is_live(self.limit, now) {
            return Err(Stale(id));
        }
        put(&mut self.rows, id.number(), Some(Row { kept: true, ..row }));
        Ok(())
    }

    /// Takes a `keep` back: the row stands as one that was never kept.
    pub fn unkeep(&mut self, id: LeaseId)
        requires { is_kept self.old id ≡ true }
        ensures { self.new ≡ record self.old { rows = marked id false self.old.rows } }
    {
        let Some(row) = self.numbered(id.number()) else {
            unreachable!()
        };
        put(
            &mut self.rows,
            id.number(),
            Some(Row { kept: false, ..row }),
        );
    }

    /// Ends a lease, kept or not.
    pub fn end(&mut self, id: LeaseId, now: u128) -> Result<(), Stale>
        ensures stale { IsErr result ↔ (is_live self.old id now ≡ false) }
        ensures which { IfErr result (λ stale. stale ≡ record { 0 = id }) }
        ensures ok { OnOk result (self.new ≡ record self.old { rows = without id self.old.rows }) }
        ensures err { OnErr result (self.new ≡ self.old) }
    {
        if !self.is_live(id, now) {
            return Err(Stale(id));
        }
        put(&mut self.rows, id.number(), None);
        Ok(())
    }

    /// Drops the rows that do not live at this number.
    pub fn sweep(&mut self, now: u128)
        ensures { self.new ≡ record self.old { rows = live_rows self.old now } }
    {
        let limit = self.limit;
        self.rows.retain(|_, row| lives(row, limit, now));
    }
}

/// Whether there is a row that lives at this number, in a table of this limit.
fn lives(row: &Option<Row>, limit: u32, now: u128) -> bool
    ensures { result ≡ option_map_or (is_live_row limit now) row.now false }
{
    match row {
        Some(row) => row.is_live(limit, now),
        None => false,
    }
}

/// Whether there is a row that lives at this number and is not kept.
fn waits(row: &Option<Row>, limit: u32, now: u128) -> bool
    ensures { result ≡ option_map_or (is_waiting_row limit now) row.now false }
{
    match row {
        Some(row) => row.is_live(limit, now) && !row.kept,
        None => false,
    }
}

/// How many of the rows live at this number, in a table of this limit.
fn count_live(rows: &IndexMap<u128, Option<Row>>, limit: u32, now: u128) -> usize
    ensures { result ≡ count_by (λ row. option_map_or (is_live_row limit now) row false)
        (map (λ e. e.1) rows.now.entries) }
{
    rows.values().filter(|row| lives(row, limit, now)).count()
}

/// The first row that lives at this number and is not kept.
fn find_waiting(rows: &IndexMap<u128, Option<Row>>, limit: u32, now: u128) -> Option<&Option<Row>>
    ensures { option_map (λ row. row.now) result
        ≡ find (λ row. option_map_or (is_waiting_row limit now) row false)
        (map (λ e. e.1) rows.now.entries) }
{
    rows.values().find(|row| waits(row, limit, now))
}

/// Puts a row, or none, in the place of a number that has one.
fn put(rows: &mut IndexMap<u128, Option<Row>>, number: u128, row: Option<Row>)
    requires { IsSome (lookup (eqb number) rows.old.entries) }
    ensures entries { rows.new.entries ≡ insert_entry eqb rows.old.entries number row }
    ensures unique { IsDistinct eqb (keys_of rows.new.entries) }
    ensures room { spare rows.old ≤ spare rows.new + 1 }
{
    let Some(place) = rows.get_index_of(&number) else {
        unreachable!()
    };
    let Some(slot) = rows.get_index_mut(place) else {
        unreachable!()
    };
    *slot = row;
}

/// Makes room for two more, of which the first is under a number that no row has. Places of leases that ended may be freed
/// for it.
fn make_room(
    rows: &mut IndexMap<u128, Option<Row>>,
    most: &mut usize,
    number: u128,
) -> Result<(), AllocError>
    requires unique { IsDistinct eqb (keys_of rows.old.entries) }
    requires none { option_flatten (lookup (eqb number) rows.old.entries) ≡ None }
    ensures entries { (rows.new.entries ≡ rows.old.entries)
        ⊎ (rows.new.entries ≡ filter (λ e. is_some e.1) rows.old.entries) }
    ensures unique { IsDistinct eqb (keys_of rows.new.entries) }
    ensures absent { lookup (eqb number) rows.new.entries ≡ None }
    ensures room { OnOk result (1 < spare rows.new) }
{
    if rows.len() < *most && !rows.contains_key(&number) {
        return rows.reserve(2);
    }
    rows.retain(|_, row| row.is_some());
    *most = rows.len().saturating_mul(2).max(FEW_PLACES);
    rows.reserve(2)
}

/// Makes the list reach to a place.
fn reach(numbers: &mut Vec<u128>, place: usize) -> Result<(), AllocError>
    ensures there { OnOk result (place < length numbers.new.items) }
    ensures kept { (k n : ℕ) → slice_get numbers.old.items k ≡ Some n
        → slice_get numbers.new.items k ≡ Some n }
{
    if place < numbers.len() {
        return Ok(());
    }
    let Some(len) = place.checked_add(1) else {
        return Err(AllocError);
    };
    numbers.resize(len, 0)
}

/// Ends the lease of a number where it is of this node.
fn end_last_of(rows: &mut IndexMap<u128, Option<Row>>, number: u128, node: u64)
    ensures entries { rows.new.entries
        ≡ (if option_map_or (is_of node)
        (option_flatten (lookup (eqb number) rows.old.entries)) false
        then insert_entry eqb rows.old.entries number None
        else rows.old.entries) }
    ensures room { spare rows.old ≤ spare rows.new + 1 }
{
    let Some(Some(row)) = rows.get(&number) else {
        return;
    };
    if node == row.lease.node {
        put(rows, number, None);
    }
}
