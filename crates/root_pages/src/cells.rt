//! The cells of a page's table.
ghost use Rattle.std.specs.Prelude.{◌≡◌, IfOk, length};
ghost use Rattle.root_pages.specs.Cells.{all_cells, cells_of};

use journal_pages::RootRow;
use page_text::RootCells;
use std::alloc::{AllocError, Global};

/// What the table says of a root on which this much work was spent.
fn cells_of(row: &RootRow, work: u64) -> RootCells
    ensures { result ≡ cells_of row.now work }
{
    RootCells {
        position: row.position,
        value: row.value,
        black: row.black,
        white: row.white,
        nodes: row.census.nodes as u64,
        leaves: row.census.open_leaves as u64,
        work,
    }
}

/// What the table says of each root, by what is known of it and by the work that was spent in its tree.
pub fn page_cells(
    alloc: Global,
    rows: &[RootRow],
    work: &[u64],
) -> Result<Vec<RootCells>, AllocError>
    requires { length work.now ≡ length rows.now }
    ensures { IfOk result (λ cells. cells.items ≡ all_cells rows.now work.now) }
{
    let mut cells = Vec::new(alloc);
    for i in 0..rows.len() {
        cells.push(cells_of(&rows[i], work[i]))?;
    }
    Ok(cells)
}
