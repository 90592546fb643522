//! Counting the items of a stream, which is not held in memory.
ghost use Rattle.std.specs.Prelude.{IfOk};
ghost use Rattle.parser_vectors.specs.Counts.{CountsItems};

use crate::sinks::Count;
use souper_ir::ast::LeftHandSide;
use souper_ir::parse::ParseError;
use souper_stream::read_into;
use std::alloc::Global;
use std::io::BufRead;

/// The number of left-hand sides that the stream has.
pub fn count_left_hand_sides<R: BufRead>(alloc: Global, reader: &mut R) -> Result<u64, ParseError>
    ensures { IfOk result (CountsItems (R.remaining reader.old) (R.remaining reader.new)) }
{
    let mut count = Count { items: 0 };
    read_into::<LeftHandSide, R, Count>(alloc, reader, None, &mut count)?;
    Ok(count.items)
}

#[cfg(test)]
mod tests {
    use super::*;
    use std::io::BufReader;

    #[test]
    fn items_are_counted(rt: HostRuntime) {
        let text = b"%x = var\ninfer %x\n; two\n%x = var infer %x %y = var\ninfer %y\n";
        let mut reader = BufReader::new(rt.alloc(), text.as_slice()).expect(&rt, "memory");
        let count = count_left_hand_sides(rt.alloc(), &mut reader);
        assert_eq!(rt; count.ok(), Some(3));
    }
}
