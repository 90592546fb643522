//! Items that are made at random.
ghost use Rattle.std.specs.Prelude.{◌<◌};

use rand::RngExt;
use rand::rngs::SmallRng;
use rand_core::SeedableRng;
use souper_format::command::Kind;
use souper_ir::ast::{
    Arena, Assignment, AssignmentRhs, Attribute, Block, BlockId, BlockPc, Cand, Constant, Id,
    Infer, Instruction, LeftHandSide, Operand, Pc, Phi, Replacement, RightHandSide, RootAttribute,
    Statement, Type, ValueId,
};
use souper_stream::StreamItem;
use std::alloc::{AllocError, Global};

/// An item that can be made at random.
pub(crate) trait Generated: StreamItem + Drop {
    const KIND: Kind;

    fn generate(generator: &mut Generator) -> Result<Self, AllocError>;
}

/// A source of items. Half of the items are tame: their statements are as a text's are. In the others anything may be wrong.
#[derive(Drop)]
pub(crate) struct Generator {
    alloc: Global,
    rng: SmallRng,
    // Ids that an arena may lack.
    ids: Vec<Id<Statement>>,
    wild: bool,
}

// The statements of an item, with the values and the blocks among them.
#[derive(Drop)]
struct Draft {
    statements: Arena<Statement>,
    values: Vec<ValueId>,
    blocks: Vec<(BlockId, u32)>,
}

// How many statements an item has at most.
const STATEMENTS: usize = 12;

impl Generator {
    pub(crate) fn new(alloc: Global, seed: u64) -> Result<Generator, AllocError> {
        let mut statements = Arena::new(alloc);
        let mut ids = Vec::new(alloc);
        for _ in 0..STATEMENTS + 4 {
            let x = Operand::default();
            let y = Operand::default();
            let id = statements.alloc(Statement::from(Pc { x, y }))?;
            ids.push(id)?;
        }
        Ok(Generator {
            alloc,
            rng: SmallRng::seed_from_u64(seed),
            ids,
            wild: false,
        })
    }

    /// A number below `n`.
    pub(crate) fn below(&mut self, n: usize) -> usize
        requires { 0 < n }
        ensures { result < n }
    {
        self.rng.random_range(0..n)
    }

    fn one_in(&mut self, n: usize) -> bool
        requires { 0 < n }
    {
        self.below(n) == 0
    }

    // Whether the next choice is a wrong one.
    fn errs(&mut self) -> bool {
        self.wild && self.one_in(12)
    }

    fn any_id(&mut self) -> Option<Id<Statement>> {
        let count = self.ids.len();
        if count == 0 {
            return None;
        }
        let index = self.below(count);
        self.ids.get(index).copied()
    }

    fn width(&mut self) -> u16 {
        if self.errs() {
            return 0;
        }
        match self.below(8) {
            0 => 1,
            1 => 8,
            2 => 16,
            3 => 32,
            4 => 64,
            5 => 128,
            6 => 7,
            _ => 65535,
        }
    }

    fn optional_type(&mut self) -> Option<Type> {
        if self.one_in(2) {
            let width = self.width();
            Some(Type { width })
        } else {
            None
        }
    }

    fn constant(&mut self) -> Constant {
        let value = match self.below(8) {
            0 => 0,
            1 => 1,
            2 => -1,
            3 => i128::MAX,
            4 => i128::MIN,
            _ => self.below(300) as i128,
        };
        let ty = self.optional_type();
        Constant { value, ty }
    }

    fn operand(&mut self, draft: &Draft) -> Operand {
        if self.errs() {
            if let Some(id) = self.any_id() {
                return ValueId::from(id).into();
            }
        }
        match self.value(draft) {
            Some(value) if !self.one_in(4) => value.into(),
            _ => self.constant().into(),
        }
    }

    // A value that is defined already.
    fn value(&mut self, draft: &Draft) -> Option<ValueId> {
        let count = draft.values.len();
        if count == 0 {
            return None;
        }
        let index = self.below(count);
        draft.values.get(index).copied()
    }

    fn block(&mut self, draft: &Draft) -> Option<(BlockId, u32)> {
        let count = draft.blocks.len();
        if count == 0 {
            return None;
        }
        let index = self.below(count);
        let (block, predecessors) = *draft.blocks.get(index)?;
        if self.errs() {
            let id = self.any_id()?;
            return Some((BlockId::from(id), predecessors));
        }
        Some((block, predecessors))
    }

    fn instruction(&mut self, draft: &Draft) -> Instruction {
        let a = self.operand(draft);
        let b = self.operand(draft);
        let c = self.operand(draft);
        match self.below(12) {
            0 => Instruction::Hole,
            1 => Instruction::Freeze { a },
            2 => Instruction::Trunc { a },
            3 => Instruction::Add { a, b },
            4 => Instruction::SubNsw { a, b },
            5 => Instruction::Slt { a, b },
            6 => Instruction::SaddWithOverflow { a, b },
            7 => Instruction::ExtractValue { a, b },
            8 => Instruction::Udiv { a, b },
            9 => Instruction::Select { a, b, c },
            10 => Instruction::Fshl { a, b, c },
            _ => Instruction::Eq { a, b },
        }
    }

    fn phi(&mut self, draft: &Draft) -> Result<Option<Phi>, AllocError> {
        let Some((block, predecessors)) = self.block(draft) else {
            return Ok(None);
        };
        let count = if self.errs() {
            self.below(4) as u32
        } else {
            predecessors
        };
        let mut values = Vec::new(self.alloc);
        for _ in 0..count {
            let value = self.operand(draft);
            values.push(value)?;
        }
        Ok(Some(Phi { block, values }))
    }

    fn rhs(&mut self, draft: &Draft) -> Result<AssignmentRhs, AllocError> {
        match self.below(10) {
            0 => Ok(AssignmentRhs::Var),
            1 => Ok(AssignmentRhs::ReservedInst),
            2 => Ok(AssignmentRhs::ReservedConst),
            3 => {
                let predecessors = self.below(4) as u32;
                Ok(AssignmentRhs::Block(Block { predecessors }))
            }
            4 => match self.phi(draft)? {
                Some(phi) => Ok(AssignmentRhs::Phi(phi)),
                None => Ok(AssignmentRhs::Var),
            },
            _ => Ok(AssignmentRhs::Instruction(self.instruction(draft))),
        }
    }

    fn bits(&mut self) -> Result<Vec<bool>, AllocError> {
        let count = if self.errs() { 0 } else { 1 + self.below(9) };
        let mut bits = Vec::new(self.alloc);
        for _ in 0..count {
            let bit = self.one_in(2);
            bits.push(bit)?;
        }
        Ok(bits)
    }

    fn known_bits(&mut self) -> Result<Vec<Option<bool>>, AllocError> {
        let mut bits = Vec::new(self.alloc);
        for bit in self.bits()? {
            let known = if self.one_in(3) { None } else { Some(bit) };
            bits.push(known)?;
        }
        Ok(bits)
    }

    fn attribute(&mut self) -> Result<Attribute, AllocError> {
        match self.below(8) {
            0 => Ok(Attribute::KnownBits(self.known_bits()?)),
            1 => Ok(Attribute::PowerOfTwo),
            2 => Ok(Attribute::Negative),
            3 => Ok(Attribute::NonNegative),
            4 => Ok(Attribute::NonZero),
            5 => Ok(Attribute::HasExternalUses),
            6 => Ok(Attribute::SignBits(self.below(256) as u8)),
            _ => {
                let low = self.constant().value;
                let high = self.constant().value;
                Ok(Attribute::Range(low, high))
            }
        }
    }

    fn attributes(&mut self) -> Result<Vec<Attribute>, AllocError> {
        let mut attributes = Vec::new(self.alloc);
        let count = self.below(6).saturating_sub(3);
        for _ in 0..count {
            let attribute = self.attribute()?;
            attributes.push(attribute)?;
        }
        Ok(attributes)
    }

    fn root_attributes(&mut self) -> Result<Vec<RootAttribute>, AllocError> {
        let mut attributes = Vec::new(self.alloc);
        let count = self.below(5).saturating_sub(2);
        for _ in 0..count {
            let attribute = if self.one_in(2) {
                RootAttribute::HarvestedFromUse
            } else {
                RootAttribute::DemandedBits(self.bits()?)
            };
            attributes.push(attribute)?;
        }
        Ok(attributes)
    }

    // The name of the statement at the position.
    fn name(&mut self, position: usize) -> Result<String, AllocError> {
        if self.errs() {
            let other = self.below(position.max(1));
            return if self.one_in(2) {
                format!(in self.alloc; "%{other}")
            } else {
                format!(in self.alloc; "% {other}")
            };
        }
        if self.one_in(3) {
            format!(in self.alloc; "%v{position}.x_{position}")
        } else {
            format!(in self.alloc; "%{position}")
        }
    }

    fn add_assignment(&mut self, draft: &mut Draft) -> Result<ValueId, AllocError> {
        let name = self.name(draft.statements.len())?;
        let ty = self.optional_type();
        let value = self.rhs(draft)?;
        let attributes = self.attributes()?;
        let predecessors = match &value {
            AssignmentRhs::Block(block) => Some(block.predecessors),
            _ => None,
        };
        let assignment = Assignment {
            name,
            ty,
            value,
            attributes,
        };
        let id = draft.statements.alloc(assignment.into())?;
        if let Some(predecessors) = predecessors {
            draft.blocks.push((BlockId::from(id), predecessors))?;
        }
        let value = ValueId::from(id);
        draft.values.push(value)?;
        Ok(value)
    }

    // The index of a predecessor of a block that has some.
    fn predecessor(&mut self, predecessors: u32) -> u32 {
        if self.errs() {
            return predecessors;
        }
        match predecessors {
            0 => 0,
            count => self.below(count as usize) as u32,
        }
    }

    // A path condition: on a predecessor of the block, if there is one.
    fn condition(&mut self, draft: &Draft, block: Option<(BlockId, u32)>) -> Statement {
        let x = self.operand(draft);
        let y = self.operand(draft);
        match block {
            Some((block, predecessors)) => {
                let predecessor = self.predecessor(predecessors);
                Statement::from(BlockPc {
                    block,
                    predecessor,
                    x,
                    y,
                })
            }
            None => Statement::from(Pc { x, y }),
        }
    }

    fn add_condition(&mut self, draft: &mut Draft) -> Result<(), AllocError> {
        let block = if self.one_in(2) {
            self.block(draft).filter(|block| block.1 > 0)
        } else {
            None
        };
        let condition = self.condition(draft, block);
        draft.statements.alloc(condition)?;
        Ok(())
    }

    // Statements, of which the first defines the value.
    fn draft(&mut self) -> Result<(Draft, ValueId), AllocError> {
        self.wild = self.one_in(2);
        let mut draft = Draft {
            statements: Arena::new(self.alloc),
            values: Vec::new(self.alloc),
            blocks: Vec::new(self.alloc),
        };
        let first = self.add_assignment(&mut draft)?;
        for _ in 0..self.below(STATEMENTS) {
            if self.one_in(6) {
                self.add_condition(&mut draft)?;
            } else {
                self.add_assignment(&mut draft)?;
            }
        }
        Ok((draft, first))
    }

    fn infer(&mut self, draft: &Draft, first: ValueId) -> Result<Infer, AllocError> {
        let value = match self.operand(draft) {
            Operand::Value(value) => value,
            Operand::Constant(_) => first,
        };
        let attributes = self.root_attributes()?;
        Ok(Infer { value, attributes })
    }
}

impl Generated for LeftHandSide {
    const KIND: Kind = Kind::Lhs;

    fn generate(generator: &mut Generator) -> Result<Self, AllocError> {
        let (draft, first) = generator.draft()?;
        let infer = generator.infer(&draft, first)?;
        let Draft {
            statements,
            values: _,
            blocks: _,
        } = draft;
        Ok(LeftHandSide { statements, infer })
    }
}

impl Generated for RightHandSide {
    const KIND: Kind = Kind::Rhs;

    fn generate(generator: &mut Generator) -> Result<Self, AllocError> {
        let (draft, _first) = generator.draft()?;
        let result = generator.operand(&draft);
        let Draft {
            statements,
            values: _,
            blocks: _,
        } = draft;
        Ok(RightHandSide { statements, result })
    }
}

impl Generated for Replacement {
    const KIND: Kind = Kind::Rep;

    fn generate(generator: &mut Generator) -> Result<Self, AllocError> {
        let (draft, first) = generator.draft()?;
        let lhs = generator.infer(&draft, first)?;
        let rhs = generator.operand(&draft);
        let of_pair = generator.one_in(2);
        let Draft {
            statements,
            values: _,
            blocks: _,
        } = draft;
        if of_pair {
            let cand = Cand {
                lhs: lhs.value.into(),
                rhs,
                attributes: lhs.attributes,
            };
            Ok(Replacement::Cand { statements, cand })
        } else {
            Ok(Replacement::LhsRhs {
                statements,
                lhs,
                rhs,
            })
        }
    }
}
