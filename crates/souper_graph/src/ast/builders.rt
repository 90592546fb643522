//! Builders of items, statement by statement.

ghost use Rattle.std.specs.Prelude.{◌≡◌, ◌<◌, ◌++◌, ◌∷◌, [], Some, None, map, length, slice_get, IfOk, OnOk, OnErr};
ghost use Rattle.std.specs.String.{string_bytes};
ghost use Rattle.souper_graph.specs.declared.ast.items.Replacement.TheVariants.{LhsRhs, Cand as cand_variant};
ghost use Rattle.souper_graph.specs.declared.ast.statements.Statement.TheVariants.{Assignment as assignment_variant};
ghost use Rattle.souper_graph.specs.declared.ast.taken_names.TakenNames.{TakenNames as Taken};
ghost use Rattle.souper_graph.specs.Values.{block, condition, block_condition};
ghost use Rattle.souper_graph.specs.View.{view_attribute, view_rhs, view_statement};
ghost use Rattle.souper_graph.specs.WellFormed.{predecessors_at, IsAssigned, IsBlock};
ghost use Rattle.souper_graph.specs.Building.{BeginsWithPercent, IsFirstFree, chosen_name, added_assignment, Appends, statements_of};
ghost use Rattle.souper_graph.specs.TakenNames.{Knows};

use crate::ast::arenas::Arena;
use crate::ast::attributes::{Attribute, RootAttribute};
use crate::ast::ids::{BlockId, Id, ValueId};
use crate::ast::items::{Cand, Infer, LeftHandSide, Replacement, RightHandSide};
use crate::ast::lookup::known_assignment;
use crate::ast::operands::{Operand, Type};
use crate::ast::statements::{Assignment, AssignmentRhs, Block, BlockPc, Pc, Statement};
use crate::ast::taken_names::TakenNames;
use std::alloc::{AllocError, Global};
use std::marker::{Model, PhantomData};

/// A builder of a `K`: its arena, which grows statement by statement.
#[derive(Drop)]
#[derive_where(Debug)]
pub struct Builder<K> {
    statements: Arena<Statement>,
    taken: TakenNames,
    of: PhantomData<K>,
}

/// A builder of a [`Replacement`].
pub type ReplacementBuilder = Builder<Replacement>;

/// A builder of a [`LeftHandSide`].
pub type LeftHandSideBuilder = Builder<LeftHandSide>;

/// A builder of a [`RightHandSide`].
pub type RightHandSideBuilder = Builder<RightHandSide>;

impl<K> Model for Builder<K> {
    ghost use Rattle.std.specs.Prelude.{List, map};
    ghost use Rattle.souper_graph.specs.declared.ast.statements.Statement.{Statement};
    ghost use Rattle.souper_graph.specs.View.{view_statement};
    ghost use Rattle.souper_graph.specs.TakenNames.{Knows};

    ghost Value = { List Statement };

    ghost view = { λ builder. builder.statements };

    ghost invariant = { λ builder. Knows (map view_statement builder.statements) builder.taken };
}

// The name that is given, or `%` and the count.
fn name_or_count(alloc: Global, name: Option<String>, count: usize) -> Result<String, AllocError>
    ensures { IfOk result (λ chosen. string_bytes chosen ≡ chosen_name name count) }
{
    match name {
        Some(name) => Ok(name),
        None => format!(in alloc; "%{count}"),
    }
}

// Appends the statement. What is known of the names stays true.
fn append(
    statements: &mut Arena<Statement>,
    statement: Statement,
) -> Result<Id<Statement>, AllocError>
    ensures position { IfOk result (λ id. id ≡ length statements.old) }
    ensures grows { OnOk result (statements.new ≡ statements.old ++ statement ∷ []) }
    ensures err { OnErr result (statements.new ≡ statements.old) }
    ensures known { (taken : Taken) → Knows (map view_statement statements.old) taken → Knows (map view_statement statements.new) taken }
{
    statements.alloc(statement)
}

impl<K> Builder<K> {
    /// An empty builder. It does not allocate.
    pub fn new(alloc: Global) -> Self
        ensures { result ≡ [] }
    {
        Arena::new(alloc).into()
    }

    /// A name that no statement has: `%` and the first number, from the number of statements on, that names none of them.
    ///
    /// It stays free until a statement has it. The calls for the statements of a builder take time in proportion to their number. If
    /// memory runs out, the statements are unchanged.
    pub fn free_name(&mut self) -> Result<String, AllocError>
        ensures free { IfOk result (λ name. IsFirstFree (map view_statement self.old) (string_bytes name)) }
        ensures same { self.new ≡ self.old }
    {
        self.taken.make(&self.statements)
    }

    /// Appends an assignment and returns the id of its value.
    ///
    /// A given name has to begin with `%`. Without one, the name is `%` and the number of statements before it, whether or not it is
    /// taken: among statements with names of other numbers, or after an item, give it a [`free_name`](Self::free_name). If memory runs
    /// out, the builder is unchanged.
    pub fn assignment(
        &mut self,
        name: Option<String>,
        ty: Option<Type>,
        value: AssignmentRhs,
        attributes: Vec<Attribute>,
    ) -> Result<ValueId, AllocError>
        requires { BeginsWithPercent name }
        ensures position { IfOk result (λ id. id ≡ length self.old) }
        ensures grows { OnOk result (Appends self.old self.new (added_assignment name (length self.old) ty (view_rhs value) (map view_attribute attributes.items))) }
        ensures err { OnErr result (self.new ≡ self.old) }
    {
        let name = name_or_count(self.statements.allocator(), name, self.statements.len())?;
        let assignment = Assignment {
            name,
            ty,
            value,
            attributes,
        };
        let id = append(&mut self.statements, assignment.into())?;
        Ok(id.into())
    }

    /// Appends the assignment of a block and returns the block's id.
    ///
    /// `predecessors` is the block's number of predecessors. A given name has to begin with `%`. Without one, the name is `%` and the
    /// number of statements before it, as [`assignment`](Self::assignment) says. If memory runs out, the builder is unchanged.
    pub fn block(&mut self, name: Option<String>, predecessors: u32) -> Result<BlockId, AllocError>
        requires { BeginsWithPercent name }
        ensures position { IfOk result (λ id. id ≡ length self.old) }
        ensures grows { OnOk result (Appends self.old self.new (added_assignment name (length self.old) None (block (record { predecessors = predecessors })) [])) }
        ensures err { OnErr result (self.new ≡ self.old) }
    {
        let value = Block { predecessors }.into();
        let attributes = Vec::new(self.statements.allocator());
        let id: Id<Statement> = self.assignment(name, None, value, attributes)?.into();
        Ok(id.into())
    }

    /// Appends the path condition that `x` equals `y`.
    ///
    /// If memory runs out, the builder is unchanged.
    pub fn pc(&mut self, x: Operand, y: Operand) -> Result<(), AllocError>
        ensures grows { OnOk result (Appends self.old self.new (condition (record { x = x; y = y }))) }
        ensures err { OnErr result (self.new ≡ self.old) }
    {
        append(&mut self.statements, Pc { x, y }.into())?;
        Ok(())
    }

    /// Appends the path condition that `x` equals `y` if control comes from one predecessor of the block.
    ///
    /// The id must name a block's assignment in this arena, and `predecessor`, which counts from 0, must be less than
    /// the block's number of predecessors. If memory runs out, the builder is unchanged.
    pub fn block_pc(
        &mut self,
        block: BlockId,
        predecessor: u32,
        x: Operand,
        y: Operand,
    ) -> Result<(), AllocError>
        requires is_block { IsBlock (slice_get (map view_statement self.old) block) }
        requires is_way { predecessor < predecessors_at (map view_statement self.old) block }
        ensures grows { OnOk result (Appends self.old self.new (block_condition (record { block = block; predecessor = predecessor; x = x; y = y }))) }
        ensures err { OnErr result (self.new ≡ self.old) }
    {
        let block_pc = BlockPc {
            block,
            predecessor,
            x,
            y,
        };
        append(&mut self.statements, block_pc.into())?;
        Ok(())
    }

    /// A copy with all statements. The error is out of memory.
    pub fn clone(&self) -> Result<Self, AllocError>
        ensures { IfOk result (λ copy. map view_statement copy ≡ map view_statement self.now) }
    {
        Ok(self.statements.clone()?.into())
    }
}

impl ReplacementBuilder {
    /// The replacement of the value `lhs` by `rhs`, over all the statements.
    ///
    /// The attributes are the known facts about the value `lhs`.
    pub fn finish(self, lhs: ValueId, rhs: Operand, attributes: Vec<RootAttribute>) -> Replacement
        ensures { result ≡ LhsRhs self (record { value = lhs; attributes = attributes }) rhs }
    {
        let ReplacementBuilder { statements, .. } = self;
        let lhs = Infer {
            value: lhs,
            attributes,
        };
        Replacement::LhsRhs {
            statements,
            lhs,
            rhs,
        }
    }

    /// The `cand` line that `lhs` may be replaced by `rhs`, over all the statements.
    ///
    /// The attributes are the known facts about the operand `lhs`.
    pub fn finish_cand(
        self,
        lhs: Operand,
        rhs: Operand,
        attributes: Vec<RootAttribute>,
    ) -> Replacement
        ensures { result ≡ cand_variant self (record { lhs = lhs; rhs = rhs; attributes = attributes }) }
    {
        let Self { statements, .. } = self;
        let cand = Cand {
            lhs,
            rhs,
            attributes,
        };
        Replacement::Cand { statements, cand }
    }
}

impl LeftHandSideBuilder {
    /// The left-hand side whose root is the value `lhs`, with all the statements.
    ///
    /// The attributes are the known facts about that value.
    pub fn finish(self, lhs: ValueId, attributes: Vec<RootAttribute>) -> LeftHandSide
        ensures { result ≡ record { statements = self; infer = record { value = lhs; attributes = attributes } } }
    {
        let LeftHandSideBuilder { statements, .. } = self;
        let infer = Infer {
            value: lhs,
            attributes,
        };
        LeftHandSide { statements, infer }
    }

    /// The assignment that defines the value.
    ///
    /// The id must name an assignment in this arena.
    pub fn get_value(&self, id: ValueId) -> &Assignment
        requires { IsAssigned (slice_get (map view_statement self.now) id) }
        ensures { slice_get self.now id ≡ Some (assignment_variant result.now) }
    {
        known_assignment(&self.statements, id)
    }
}

impl RightHandSideBuilder {
    /// The right-hand side whose root is the operand `root`, with all the statements.
    pub fn finish(self, root: Operand) -> RightHandSide
        ensures { result ≡ record { statements = self; result = root } }
    {
        let RightHandSideBuilder { statements, .. } = self;
        RightHandSide {
            statements,
            result: root,
        }
    }
}

/// A builder that continues after the statements. Each keeps its id.
impl<K> From<Arena<Statement>> for Builder<K> {
    ghost from_gives = { λ statements builder. builder ≡ statements };

    fn from(statements: Arena<Statement>) -> Self {
        let taken = TakenNames::new(statements.allocator());
        Builder {
            statements,
            taken,
            of: PhantomData,
        }
    }
}

/// A builder that continues after the statements of the item. Each keeps its id; the last line is dropped.
impl From<LeftHandSide> for ReplacementBuilder {
    ghost from_gives = { λ item builder. builder ≡ item.statements };

    fn from(item: LeftHandSide) -> Self {
        item.statements.into()
    }
}

/// A builder that continues after the statements of the item. Each keeps its id; the last line is dropped.
impl From<LeftHandSide> for LeftHandSideBuilder {
    ghost from_gives = { λ item builder. builder ≡ item.statements };

    fn from(item: LeftHandSide) -> Self {
        item.statements.into()
    }
}

/// A builder that continues after the statements of the item. Each keeps its id; the last line is dropped.
impl From<RightHandSide> for RightHandSideBuilder {
    ghost from_gives = { λ item builder. builder ≡ item.statements };

    fn from(item: RightHandSide) -> Self {
        item.statements.into()
    }
}

/// A builder that continues after the statements of the item. Each keeps its id; the last lines are dropped.
impl From<Replacement> for ReplacementBuilder {
    ghost from_gives = { λ item builder. builder ≡ statements_of item };

    fn from(item: Replacement) -> Self {
        match item {
            Replacement::LhsRhs { statements, .. } => statements.into(),
            Replacement::Cand { statements, .. } => statements.into(),
        }
    }
}
