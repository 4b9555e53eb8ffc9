//! What a session stores of its line.
ghost use Rattle.std.specs.Prelude.{◌≡◌, ◌<◌, ◌+◌, ◌^◌, ◌++◌, map, length};
ghost use Rattle.tree_manager.specs.declared.marks.Mark.TheVariants.{Put};

use crate::entries::Attachment;
use draughts_board::Position;
use ghost_list::CountedTrace;
use lease_table::{Lease, LeaseId};

/// An entry of the line, but for a record, which the bench has.
#[derive(Clone, Copy)]
pub(crate) enum Mark {
    Put,
    Attached(Attachment),
    Leased(Lease),
    Released(LeaseId),
    Acked(u64),
    Broken(u64),
}

/// Notes the Puts of these roots, for which there is room.
pub(crate) fn push_puts(marks: &mut CountedTrace<Mark>, added: &[Position])
    requires { length marks.old + length added.now < 2 ^ 64 }
    ensures { marks.new ≡ marks.old ++ map (λ _. Put) added.now }
{
    for _ in added {
        marks.push(&Mark::Put);
    }
}
