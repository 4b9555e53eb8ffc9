//! What is kept of the warnings that were found.
ghost use Rattle.std.specs.Prelude.{◌≡◌, ◌+◌, ◌<◌, ◌^◌, ◌++◌, List, [], OnOk, option_to_list};
ghost use Rattle.source_warnings.specs.Warnings.{IsKept};

use crate::causes::Warning;
use std::alloc::{AllocError, Global};

/// How many warnings are kept, and told in words, at most.
pub const MOST_TOLD: usize = 10;

/// The first warnings, [`MOST_TOLD`] of them or all, and how many more there are.
#[derive(Debug, Drop)]
pub struct Found {
    /// The first ones, in their order.
    pub told: Vec<Warning>,
    /// How many stand behind them.
    pub more: usize,
}

impl Found {
    /// No warning yet.
    pub(crate) fn new(alloc: Global) -> Found
        ensures { IsKept result [] }
    {
        Found {
            told: Vec::new(alloc),
            more: 0,
        }
    }

    /// Takes a warning, if it is one, behind those that it has of them all.
    pub(crate) fn keep(&mut self, warning: Option<Warning>) -> Result<(), AllocError>
        requires { self.old.more + 1 < 2 ^ 64 }
        ensures { OnOk result ((all : List Warning) → IsKept self.old all
            → IsKept self.new (all ++ option_to_list warning)) }
    {
        let Some(warning) = warning else {
            return Ok(());
        };
        if self.told.len() < MOST_TOLD {
            self.told.push(warning)?;
        } else {
            self.more += 1;
        }
        Ok(())
    }
}
