//! Parsing parts of a text.
ghost use Rattle.std.specs.Prelude.{IfOk};
ghost use Rattle.examples_using.specs.Terms.{BeginsWithTerm};

use souper_ir::ast::{Constant, Instruction};
use souper_ir::parse::{Parse, Parser, Peek, Result};
use std::alloc::Global;

/// A number, or an instruction over numbers.
#[derive(Debug, PartialEq, Eq, Drop)]
pub enum Term {
    Number(Constant),
    Operation(Instruction),
}

/// The term that the text begins with, and the numbers that follow it.
pub fn read_term(alloc: Global, source: &str) -> Result<(Term, Vec<Constant>)>
    ensures { IfOk result (λ read. BeginsWithTerm source.now read.0 read.1.items) }
{
    let mut parser = Parser::new(alloc, source);
    let term = if Instruction::peek(&mut parser)? {
        Term::Operation(Instruction::parse(&mut parser)?)
    } else {
        Term::Number(Constant::parse(&mut parser)?)
    };
    let numbers = <Vec<Constant>>::parse(&mut parser)?;
    Ok((term, numbers))
}

#[cfg(test)]
mod tests {
    use super::*;
    use std::test::Fail;

    fn number(value: i128) -> Constant {
        Constant { value, ty: None }
    }

    #[test]
    fn terms_are_read(rt: HostRuntime) -> std::result::Result<(), Fail> {
        let (term, numbers) = read_term(rt.alloc(), "add 1, 2 3 -4 )")?;
        let sum = Instruction::Add {
            a: number(1).into(),
            b: number(2).into(),
        };
        assert_eq!(rt; term, Term::Operation(sum));
        assert_eq!(rt; numbers.as_slice(), [number(3), number(-4)].as_slice());
        let (term, numbers) = read_term(rt.alloc(), "5 infer")?;
        assert_eq!(rt; term, Term::Number(number(5)));
        assert!(rt; numbers.is_empty());
        Ok(())
    }
}
