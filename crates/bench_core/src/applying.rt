//! Applying what is staged.
ghost use Rattle.std.specs.Prelude.{◌≡◌, true};
ghost use Rattle.lease_table.specs.Rows.{is_live, marked, without};
ghost use Rattle.bench_core.specs.Applying.{CanApply, HasApplied, leases_after};

use crate::grown::GrownTree;
use crate::staged::Staged;
use lease_table::{LeaseId, Leases};

/// Applies one staged record, and ends the lease that was kept for it.
pub(crate) fn apply(grown: &mut GrownTree, leases: &mut Leases, given: u128, item: Staged)
    requires { CanApply grown.old leases.old given item }
    ensures grown { HasApplied item grown.old grown.new }
    ensures leases { leases.new ≡ leases_after item leases.old }
{
    match item {
        Staged::Begin(root) => grown.begin(root),
        Staged::Solve {
            lease,
            node,
            position,
            facts,
            shown,
        } => {
            grown.solve(node, position, &facts, shown);
            end(leases, given, lease);
        }
        Staged::Expand {
            lease,
            node,
            children,
        } => {
            grown.expand(node, children.as_slice());
            end(leases, given, lease);
        }
    }
}

/// Ends a lease that lives.
pub(crate) fn end(leases: &mut Leases, given: u128, id: LeaseId)
    requires { is_live leases.old id given ≡ true }
    ensures { leases.new ≡ record leases.old { rows = without id leases.old.rows } }
{
    let Ok(()) = leases.end(id, given) else {
        unreachable!()
    };
}

/// Keeps a lease that lives.
pub(crate) fn keep(leases: &mut Leases, given: u128, id: LeaseId)
    requires { is_live leases.old id given ≡ true }
    ensures { leases.new ≡ record leases.old { rows = marked id true leases.old.rows } }
{
    let Ok(()) = leases.keep(id, given) else {
        unreachable!()
    };
}
