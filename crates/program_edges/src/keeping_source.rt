//! A source that keeps what it is handed back.
ghost use Rattle.std.specs.Prelude.{◌≡◌, [], None, Some};
ghost use Rattle.std.specs.Option.{option_map_or};

use bench_edges::{Source, SourceFault};

/// A source that keeps the bytes that it is handed back, so that more can be told of them than a
/// run writes.
#[derive(Drop)]
pub struct KeepingSource<S: Source> {
    source: S,
    kept: Option<Vec<u8>>,
}

impl<S: Source> KeepingSource<S> {
    /// The source, which keeps nothing so far.
    pub fn new(source: S) -> KeepingSource<S>
        ensures source { result.source ≡ source }
        ensures kept { result.kept ≡ None }
    {
        KeepingSource { source, kept: None }
    }

    /// The bytes that it was handed back last; none where it was handed none.
    pub fn kept(&self) -> &[u8]
        ensures { result.now ≡ option_map_or (λ bytes. bytes.items) self.now.kept [] }
    {
        self.kept.as_deref().unwrap_or(&[])
    }
}

impl<S: Source> Source for KeepingSource<S> {
    ghost left = { λ s. S.left s.source };

    ghost faults = { λ s. S.faults s.source };

    fn read(&mut self, into: &mut [u8]) -> Result<usize, SourceFault> {
        self.source.read(into)
    }

    fn take_back(&mut self, bytes: Vec<u8>)
        ensures left { S.left self.new.source ≡ S.left self.old.source }
        ensures faults { S.faults self.new.source ≡ S.faults self.old.source }
        ensures kept { self.new.kept ≡ Some bytes }
    {
        self.kept = Some(bytes);
    }
}
