//! Texts of items that are made at random.
ghost use Rattle.std.specs.Prelude.{◌≡◌};

use crate::random::Random;
use crate::words::{
    ATTRIBUTES, CONSTANTS, LEAVES, Names, ONE, REFUSED, ROOT_ATTRIBUTES, SPACES, THREE, TWO, TYPES,
};
use souper_format::command::Kind;
use std::alloc::{AllocError, Global};

/// What items are like.
#[derive(Clone, Copy)]
pub(crate) struct Shape {
    pub(crate) kind: Kind,

    /// How many statements an item has.
    pub(crate) statements: usize,

    /// A use names one of so many values before it.
    pub(crate) reach: usize,

    /// How many of 64 statements are path conditions, blocks and phis.
    pub(crate) conditions: u64,
    pub(crate) blocks: u64,
    pub(crate) phis: u64,

    /// The greatest number of a block's predecessors.
    pub(crate) ways: u64,

    /// Whether the white space between tokens is of all kinds.
    pub(crate) spaced: bool,

    /// How many of 1,024 items are refused.
    pub(crate) refused: u64,
}

impl Shape {
    /// Items as most harvests have them.
    pub(crate) fn small(kind: Kind, statements: usize) -> Shape {
        Shape {
            kind,
            statements,
            reach: 12,
            conditions: 6,
            blocks: 2,
            phis: 3,
            ways: 3,
            spaced: false,
            refused: 0,
        }
    }
}

/// A text that grows item by item.
#[derive(Drop)]
pub(crate) struct Texts {
    pub(crate) random: Random,
    pub(crate) text: String,
    values: Vec<usize>,
    blocks: Vec<(usize, u64)>,
}

impl Texts {
    pub(crate) fn new(alloc: Global, random: Random) -> Texts {
        Texts {
            random,
            text: String::new(alloc),
            values: Vec::new(alloc),
            blocks: Vec::new(alloc),
        }
    }

    // White space between two tokens of a line.
    fn space(&mut self, shape: &Shape) -> Result<(), AllocError> {
        if shape.spaced {
            let bits = self.random.next();
            return self.text.push_str(SPACES[(bits % 4) as usize]);
        }
        self.text.push_str(" ")
    }

    fn constant(&mut self, bits: u64) -> Result<(), AllocError> {
        self.text.push_str(CONSTANTS[(bits % 16) as usize])?;
        if bits >> 4 & 1 == 0 {
            self.text.push_str(TYPES[(bits >> 5 & 7) as usize])?;
        }
        Ok(())
    }

    // A use of an earlier value, or a constant.
    fn operand(&mut self, shape: &Shape, names: &Names) -> Result<(), AllocError> {
        let bits = self.random.next();
        let count = self.values.len();
        if bits & 3 == 0 || count == 0 {
            return self.constant(bits >> 2);
        }
        let back = (bits >> 2) as usize % shape.reach.max(1);
        let value = self.values[count - 1 - back % count];
        self.text.push_str(names.get(value))
    }

    fn operands(&mut self, count: u64, shape: &Shape, names: &Names) -> Result<(), AllocError> {
        for index in 0..count {
            let comma = if index > 0 { ", " } else { " " };
            self.text.push_str(comma)?;
            if shape.spaced {
                self.space(shape)?;
            }
            self.operand(shape, names)?;
        }
        Ok(())
    }

    fn instruction(&mut self, bits: u64, shape: &Shape, names: &Names) -> Result<(), AllocError> {
        let pick = (bits >> 4) as usize;
        match bits % 16 {
            0 | 1 | 2 => {
                self.text.push_str(ONE[pick % 9])?;
                self.operands(1, shape, names)
            }
            3 => {
                self.text.push_str(THREE[pick % 3])?;
                self.operands(3, shape, names)
            }
            _ => {
                self.text.push_str(TWO[pick % 46])?;
                self.operands(2, shape, names)
            }
        }
    }

    fn attribute(&mut self, bits: u64) -> Result<(), AllocError> {
        if bits % 8 == 0 {
            self.text.push_str(ATTRIBUTES[(bits >> 3 & 15) as usize])?;
        }
        Ok(())
    }

    // The name of the number, maybe with a type, and the mark of a definition.
    fn heading(
        &mut self,
        number: usize,
        bits: u64,
        shape: &Shape,
        names: &Names,
    ) -> Result<(), AllocError> {
        self.text.push_str(names.get(number))?;
        if bits % 3 != 0 {
            self.text.push_str(TYPES[(bits >> 3 & 7) as usize])?;
        }
        if !shape.spaced {
            return self.text.push_str(" = ");
        }
        self.space(shape)?;
        self.text.push_str("=")?;
        self.space(shape)
    }

    fn block(
        &mut self,
        number: usize,
        bits: u64,
        shape: &Shape,
        names: &Names,
    ) -> Result<(), AllocError> {
        let ways = 1 + bits % shape.ways.max(1) % 1024;
        self.heading(number, 0, shape, names)?;
        write!(self.text, "block {ways}")?;
        self.blocks.push((number, ways))?;
        Ok(())
    }

    fn phi(
        &mut self,
        number: usize,
        block: (usize, u64),
        shape: &Shape,
        names: &Names,
    ) -> Result<(), AllocError> {
        let bits = self.random.next();
        self.heading(number, bits, shape, names)?;
        self.text.push_str("phi ")?;
        self.text.push_str(names.get(block.0))?;
        self.text.push_str(",")?;
        self.operands(block.1, shape, names)?;
        self.attribute(bits >> 8)?;
        self.values.push(number)?;
        Ok(())
    }

    // A path condition: on a predecessor of the block, if there is one.
    fn condition(
        &mut self,
        block: Option<(usize, u64)>,
        shape: &Shape,
        names: &Names,
    ) -> Result<(), AllocError> {
        match block {
            Some((number, ways)) => {
                let way = ways - ways.min(1);
                self.text.push_str("blockpc ")?;
                self.text.push_str(names.get(number))?;
                write!(self.text, " {way}")?;
            }
            None => self.text.push_str("pc")?,
        }
        self.space(shape)?;
        self.operand(shape, names)?;
        self.space(shape)?;
        self.operand(shape, names)
    }

    fn any_block(&self, bits: u64) -> Option<(usize, u64)> {
        let count = self.blocks.len();
        if count == 0 {
            return None;
        }
        self.blocks.get(bits as usize % count).copied()
    }

    // A statement, whose name is that of the number if it has one.
    fn statement(&mut self, number: usize, shape: &Shape, names: &Names) -> Result<(), AllocError> {
        let bits = self.random.next();
        let block = self.any_block(bits >> 32);
        let pick = bits % 64;
        let bits = bits >> 6;
        let conditions = shape.conditions.min(64);
        let blocks = conditions + shape.blocks.min(64);
        let phis = blocks + shape.phis.min(64);
        if number > 0 && pick < conditions {
            let block = if bits % 4 == 0 { block } else { None };
            self.condition(block, shape, names)?;
        } else if number > 0 && pick < blocks {
            self.block(number, bits, shape, names)?;
        } else if let Some(block) = block
            && pick < phis
        {
            self.phi(number, block, shape, names)?;
        } else {
            self.heading(number, bits, shape, names)?;
            if number == 0 || pick > 57 {
                self.text.push_str(LEAVES[(bits >> 8) as usize % 8])?;
            } else {
                self.instruction(bits >> 8, shape, names)?;
            }
            self.attribute(bits >> 20)?;
            self.values.push(number)?;
        }
        self.text.push_str("\n")
    }

    // The last lines of an item.
    fn ending(&mut self, shape: &Shape, names: &Names) -> Result<(), AllocError> {
        let bits = self.random.next();
        let value = match self.values.last() {
            Some(value) => *value,
            None => 0,
        };
        let root = ROOT_ATTRIBUTES[(bits % 4) as usize];
        match shape.kind {
            Kind::Rhs => self.text.push_str("result")?,
            Kind::Rep if bits & 4 == 0 => {
                self.text.push_str("cand ")?;
                self.text.push_str(names.get(value))?;
            }
            _ => {
                self.text.push_str("infer ")?;
                self.text.push_str(names.get(value))?;
            }
        }
        if let Kind::Lhs = shape.kind {
            self.text.push_str(root)?;
            return self.text.push_str("\n\n");
        }
        if let Kind::Rep = shape.kind
            && bits & 4 != 0
        {
            self.text.push_str(root)?;
            self.text.push_str("\n%r = add")?;
            self.operands(2, shape, names)?;
            return self.text.push_str("\nresult %r\n\n");
        }
        self.space(shape)?;
        self.operand(shape, names)?;
        if let Kind::Rep = shape.kind {
            self.text.push_str(root)?;
        }
        self.text.push_str("\n\n")
    }

    /// Appends an item, and an empty line. Its names are those of the numbers of its statements.
    pub(crate) fn item(&mut self, shape: &Shape, names: &Names) -> Result<(), AllocError> {
        self.values.clear();
        self.blocks.clear();
        let bits = self.random.next();
        let refused = if bits % 1024 < shape.refused {
            (bits >> 10) as usize % shape.statements.max(1)
        } else {
            shape.statements
        };
        for number in 0..shape.statements {
            self.statement(number, shape, names)?;
            if number == refused {
                self.text.push_str(REFUSED[(bits >> 40) as usize % 4])?;
            }
        }
        self.ending(shape, names)
    }

    /// How many statements an item of a harvest has: from 5 to 40, mostly few.
    pub(crate) fn statements(&mut self) -> usize {
        let bits = self.random.next();
        let most = if bits & 3 == 0 { 36 } else { 12 };
        5 + (bits >> 2) as usize % most
    }
}
