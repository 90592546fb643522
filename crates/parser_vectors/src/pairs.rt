//! Two constants in sequence: a type of a user of the parser, with a grammar of its own.

ghost use Rattle.std.specs.Prelude.{refl};
ghost use Rattle.souper_ir.specs.NodeReadings.{is_int};
ghost use Rattle.parser_vectors.specs.Pairs.{constants_spell, pair_continues, pair_alone, pair_first};

use souper_ir::ast::Constant;
use souper_ir::parse::{Parse, Parser, Peek, Result};

/// Two constants in sequence.
#[derive(Clone, Copy, Debug, PartialEq, Eq)]
pub struct Pair {
    pub first: Constant,
    pub second: Constant,
}

impl Parse for Pair {
    ghost Plain = { Self };

    ghost view = { λ p. p };

    ghost spells = { constants_spell };

    ghost continues = { pair_continues };

    ghost alone = { pair_alone };

    fn parse<'a>(parser: &mut Parser<'a>) -> Result<Self> {
        let first = Constant::parse(parser)?;
        let second = Constant::parse(parser)?;
        Ok(Pair { first, second })
    }
}

impl Peek for Pair {
    ghost starts = { is_int };

    ghost first = { pair_first };

    ghost stays = { λ s. refl };

    fn peek<'a>(parser: &mut Parser<'a>) -> Result<bool> {
        Constant::peek(parser)
    }
}

#[cfg(test)]
mod tests {
    use super::*;
    use crate::checks::{equal, refuses_next, refuses_to_peek};
    use souper_ir::ast::Type;

    fn plain(value: i128) -> Constant {
        Constant { value, ty: None }
    }

    #[test]
    fn pairs_follow_one_another(rt: HostRuntime) {
        let mut parser = Parser::new(rt.alloc(), "1:i8 2 3 4");
        let pairs = <Vec<Pair>>::parse(&mut parser).expect(&rt, "pairs");
        let ty = Some(Type { width: 8 });
        let first = Pair {
            first: Constant { value: 1, ty },
            second: plain(2),
        };
        let second = Pair {
            first: plain(3),
            second: plain(4),
        };
        equal(&rt, pairs.as_slice(), [first, second].as_slice());
        equal(&rt, Pair::peek(&mut parser).ok(), Some(false));
        equal(&rt, <Option<Pair>>::parse(&mut parser).ok(), Some(None));
    }

    #[test]
    fn half_a_pair_is_refused(rt: HostRuntime) {
        let mut parser = Parser::new(rt.alloc(), "1 2 3");
        refuses_next::<Vec<Pair>>(&rt, rt.alloc(), &mut parser, 4, "unexpected EOF");
        let failed = "the parser has already failed";
        refuses_to_peek::<Pair>(&rt, rt.alloc(), &mut parser, 4, failed);
    }
}
