//! The list of the positions that the records of a bench name.
use bench_records::{BenchRecord, Named, Sheet};
use std::alloc::{AllocError, Global};
use std::marker::Model;

/// The positions that the records of a bench name, those applied and those staged, each once in the order of first
/// naming.
///
/// A contract sees the list, and what it was before each staged record.
#[derive(Drop)]
pub(crate) struct Naming {
    named: Named,
    /// How many positions there were before each staged record.
    before: Vec<u32>,
}

impl Model for Naming {
    ghost use Rattle.std.specs.Prelude.{map, take, length};
    ghost use Rattle.bench_core.specs.Naming.{NamingState, AreRising};

    ghost Value = { NamingState };

    ghost view = { λ n. record {
      now = n.named;
      before = map (λ count. take count n.named) n.before.items;
    } };

    ghost invariant = { λ n. AreRising 0 n.before.items (length n.named) };
}

impl Naming {
    ghost use Rattle.std.specs.Prelude.{◌≡◌, ◌≢◌, ◌<◌, ◌^◌, ◌++◌, ◌∷◌, [], length, IfOk, OnOk, OnErr};
    ghost use Rattle.bench_records.specs.Names.{short_sheet, named_by};
    ghost use Rattle.bench_records.specs.Texts.{record_sheet};

    /// No positions, and no staged record.
    pub(crate) fn new(alloc: Global) -> Naming
        ensures { result ≡ record { now = []; before = [] } }
    {
        Naming {
            named: Named::new(alloc),
            before: Vec::new(alloc),
        }
    }

    /// The list.
    pub(crate) fn named(&self) -> &Named
        ensures { result.now ≡ self.now.now }
    {
        &self.named
    }

    /// The text of version 2 of a record of this kind and with this sheet, which is staged from then on. After want of
    /// memory the list is as it was.
    pub(crate) fn stage(
        &mut self,
        alloc: Global,
        kind: u8,
        sheet: &Sheet,
    ) -> Result<Vec<u8>, AllocError>
        ensures text { IfOk result (λ text. text.items
            ≡ kind ∷ short_sheet self.old.now sheet.now) }
        ensures few { OnOk result (length self.new.now < 2 ^ 32) }
        ensures names { OnOk result (self.new ≡ record {
          now = named_by self.old.now sheet.now;
          before = self.old.before ++ self.old.now ∷ [];
        }) }
        ensures err { OnErr result (self.new ≡ self.old) }
    {
        let count = self.named.len();
        self.before.reserve(1)?;
        let text = sheet.write(alloc, kind, &mut self.named)?;
        self.before.push_reserved(count);
        Ok(text)
    }

    /// A record that is read back is as one that is staged. After want of memory the list is as it was.
    pub(crate) fn add(&mut self, r: &BenchRecord) -> Result<(), AllocError>
        ensures names { OnOk result (self.new ≡ record {
          now = named_by self.old.now (record_sheet r.now);
          before = self.old.before ++ self.old.now ∷ [];
        }) }
        ensures err { OnErr result (self.new ≡ self.old) }
    {
        let count = self.named.len();
        self.before.reserve(1)?;
        self.named.add(r)?;
        self.before.push_reserved(count);
        Ok(())
    }

    /// The last staged record is staged no more: the list is what it was before.
    pub(crate) fn forget(&mut self)
        requires { self.old.before ≢ [] }
        ensures { self.old.before ≡ self.new.before ++ self.new.now ∷ [] }
    {
        let Some(count) = self.before.pop() else {
            unreachable!()
        };
        self.named.cut(count);
    }

    /// The staged records are applied.
    pub(crate) fn apply_all(&mut self)
        ensures { self.new ≡ record { now = self.old.now; before = [] } }
    {
        self.before.clear();
    }
}
