//! Copies of the nodes that own memory.

ghost use Rattle.std.specs.Prelude.{◌≡◌, map, IfOk};
ghost use Rattle.souper_graph.specs.View.{view_attribute, view_root_attribute, view_phi, view_rhs, view_assignment, view_statement, view_infer, view_cand, view_left_hand_side, view_right_hand_side, view_replacement};

use crate::ast::arenas::Arena;
use crate::ast::attributes::{Attribute, RootAttribute};
use crate::ast::items::{Cand, Infer, LeftHandSide, Replacement, RightHandSide};
use crate::ast::statements::{Assignment, AssignmentRhs, Phi, Statement, Var};
use std::alloc::AllocError;

impl Attribute {
    /// A copy. The error is out of memory.
    pub fn clone(&self) -> Result<Self, AllocError>
        ensures { IfOk result (λ copy. view_attribute copy ≡ view_attribute self.now) }
    {
        Ok(match self {
            Attribute::KnownBits(bits) => Attribute::KnownBits(bits.clone()?),
            Attribute::PowerOfTwo => Attribute::PowerOfTwo,
            Attribute::Negative => Attribute::Negative,
            Attribute::NonNegative => Attribute::NonNegative,
            Attribute::NonZero => Attribute::NonZero,
            Attribute::HasExternalUses => Attribute::HasExternalUses,
            Attribute::SignBits(count) => Attribute::SignBits(*count),
            Attribute::Range(low, high) => Attribute::Range(*low, *high),
        })
    }
}

impl RootAttribute {
    /// A copy. The error is out of memory.
    pub fn clone(&self) -> Result<Self, AllocError>
        ensures { IfOk result (λ copy. view_root_attribute copy ≡ view_root_attribute self.now) }
    {
        Ok(match self {
            RootAttribute::DemandedBits(bits) => RootAttribute::DemandedBits(bits.clone()?),
            RootAttribute::HarvestedFromUse => RootAttribute::HarvestedFromUse,
        })
    }
}

fn clone_attributes(attributes: &Vec<Attribute>) -> Result<Vec<Attribute>, AllocError>
    ensures { IfOk result
        (λ copies. map view_attribute copies.items ≡ map view_attribute attributes.now.items) }
{
    let mut copies = Vec::new(*attributes.allocator());
    for attribute in attributes {
        copies.push(attribute.clone()?)?;
    }
    Ok(copies)
}

fn clone_root_attributes(attributes: &Vec<RootAttribute>) -> Result<Vec<RootAttribute>, AllocError>
    ensures { IfOk result
        (λ copies. map view_root_attribute copies.items ≡ map view_root_attribute attributes.now.items) }
{
    let mut copies = Vec::new(*attributes.allocator());
    for root_attribute in attributes {
        copies.push(root_attribute.clone()?)?;
    }
    Ok(copies)
}

impl Var {
    /// A copy. The error is out of memory.
    pub fn clone(&self) -> Result<Self, AllocError>
        ensures { IfOk result
            (λ copy. map view_attribute copy.attributes.items ≡ map view_attribute self.now.attributes.items) }
    {
        Ok(Var {
            attributes: clone_attributes(&self.attributes)?,
        })
    }
}

impl Phi {
    /// A copy. The error is out of memory.
    pub fn clone(&self) -> Result<Self, AllocError>
        ensures { IfOk result (λ copy. view_phi copy ≡ view_phi self.now) }
    {
        Ok(Phi {
            block: self.block,
            values: self.values.clone()?,
        })
    }
}

impl AssignmentRhs {
    /// A copy. The error is out of memory.
    pub fn clone(&self) -> Result<Self, AllocError>
        ensures { IfOk result (λ copy. view_rhs copy ≡ view_rhs self.now) }
    {
        Ok(match self {
            AssignmentRhs::Var => AssignmentRhs::Var,
            AssignmentRhs::Block(block) => AssignmentRhs::Block(*block),
            AssignmentRhs::Phi(phi) => AssignmentRhs::Phi(phi.clone()?),
            AssignmentRhs::ReservedInst => AssignmentRhs::ReservedInst,
            AssignmentRhs::ReservedConst => AssignmentRhs::ReservedConst,
            AssignmentRhs::Instruction(instruction) => AssignmentRhs::Instruction(*instruction),
        })
    }
}

impl Assignment {
    /// A copy. The error is out of memory.
    pub fn clone(&self) -> Result<Self, AllocError>
        ensures { IfOk result (λ copy. view_assignment copy ≡ view_assignment self.now) }
    {
        Ok(Assignment {
            name: self.name.clone()?,
            ty: self.ty,
            value: self.value.clone()?,
            attributes: clone_attributes(&self.attributes)?,
        })
    }
}

impl Statement {
    /// A copy. The error is out of memory.
    pub fn clone(&self) -> Result<Self, AllocError>
        ensures { IfOk result (λ copy. view_statement copy ≡ view_statement self.now) }
    {
        Ok(match self {
            Statement::Assignment(assignment) => Statement::Assignment(assignment.clone()?),
            Statement::Pc(pc) => Statement::Pc(*pc),
            Statement::BlockPc(block_pc) => Statement::BlockPc(*block_pc),
        })
    }
}

impl Arena<Statement> {
    /// A copy of all statements, each at its position. The error is out of memory.
    pub fn clone(&self) -> Result<Self, AllocError>
        ensures { IfOk result (λ copy. map view_statement copy ≡ map view_statement self.now) }
    {
        let mut copy = Arena::new(self.allocator());
        for statement in self.as_slice() {
            copy.alloc(statement.clone()?)?;
        }
        Ok(copy)
    }
}

impl Infer {
    /// A copy. The error is out of memory.
    pub fn clone(&self) -> Result<Self, AllocError>
        ensures { IfOk result (λ copy. view_infer copy ≡ view_infer self.now) }
    {
        Ok(Infer {
            value: self.value,
            attributes: clone_root_attributes(&self.attributes)?,
        })
    }
}

impl Cand {
    /// A copy. The error is out of memory.
    pub fn clone(&self) -> Result<Self, AllocError>
        ensures { IfOk result (λ copy. view_cand copy ≡ view_cand self.now) }
    {
        Ok(Cand {
            lhs: self.lhs,
            rhs: self.rhs,
            attributes: clone_root_attributes(&self.attributes)?,
        })
    }
}

impl LeftHandSide {
    /// A copy with all statements, also those that the item does not need. The error is out of memory.
    pub fn clone(&self) -> Result<Self, AllocError>
        ensures { IfOk result (λ copy. view_left_hand_side copy ≡ view_left_hand_side self.now) }
    {
        Ok(LeftHandSide {
            statements: self.statements.clone()?,
            infer: self.infer.clone()?,
        })
    }
}

impl RightHandSide {
    /// A copy with all statements, also those that the item does not need. The error is out of memory.
    pub fn clone(&self) -> Result<Self, AllocError>
        ensures { IfOk result (λ copy. view_right_hand_side copy ≡ view_right_hand_side self.now) }
    {
        Ok(RightHandSide {
            statements: self.statements.clone()?,
            result: self.result,
        })
    }
}

impl Replacement {
    /// A copy with all statements, also those that the item does not need. The error is out of memory.
    pub fn clone(&self) -> Result<Self, AllocError>
        ensures { IfOk result (λ copy. view_replacement copy ≡ view_replacement self.now) }
    {
        Ok(match self {
            Replacement::LhsRhs {
                statements,
                lhs,
                rhs,
            } => Replacement::LhsRhs {
                statements: statements.clone()?,
                lhs: lhs.clone()?,
                rhs: *rhs,
            },
            Replacement::Cand { statements, cand } => Replacement::Cand {
                statements: statements.clone()?,
                cand: cand.clone()?,
            },
        })
    }
}
