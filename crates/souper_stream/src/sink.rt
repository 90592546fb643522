//! A sink for the items of a stream.
ghost use Rattle.std.specs.Prelude.{[], List};
ghost use Rattle.souper_stream.specs.Prelude.{Item};

use souper_ir::parse::{Sink, WholeItem};

/// A sink that can take back the items that it took: those of a chunk that spells no items, and is then parsed segment by segment.
pub trait ChunkSink<T: WholeItem>: Sink<T> {
    /// Takes back all items, so that the sink holds none, compared with each sink that it held some compared with.
    fn rollback(&mut self)
        ensures { (first : Self) (items : List Item) → Self.holds first self.old items → Self.holds first self.new [] };
}
