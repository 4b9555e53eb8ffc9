//! One certificate for each settled root of a proof tree, joined from what leaves were searched
//! for.
//!
//! What is known of a node is seen at sight, or a certificate that stands on a shelf for the node
//! shows it (`specs/Certified.antt`). Certificates stand on the shelf under their node, batch by
//! batch, and none is dropped or changed.
//!
//! Proved: let every fact of a tree be seen at sight, or shown by a certificate on the shelf for
//! its node. Then `join` gives of each settled root one certificate that claims its value and is
//! good by each sound table, or fails for want of memory. `laws`: such a root's value is that of
//! its position. Facts stay certified as the tree grows: by roots and children with their facts at
//! sight, and by facts that a batch put on the shelf shows. Such facts never contradict those of
//! the node, and nothing stands on the shelf for nodes that are not there.
//!
//! Tests: proof_tests/src/joining.rt, joiner_trial/src/tests.rt
#![tactic(auto)]

mod certificates;
mod collecting;
mod joining;
pub mod laws;
mod shelf;
mod shown;
mod stepping;
mod steps;

pub use certificates::join;
pub use shelf::PartShelf;
