//! What tests share: arenas that grow statement by statement, and the checks of an item.
use souper_graph::ast::{
    Arena, Assignment, AssignmentRhs, Attribute, Block, BlockId, BlockPc, Cand, Constant, Id,
    Infer, Instruction, Item, LeftHandSide, Operand, Pc, Phi, Replacement, RightHandSide,
    Statement, Type, ValueId,
};
use souper_graph::stringify::Order;
use std::alloc::{AllocError, Global};
use std::fmt::{self, Debug, Display, Formatter};
use std::process::Abort;

// An arena that grows statement by statement.
#[derive(Drop)]
pub struct Graph {
    pub statements: Arena<Statement>,
    alloc: Global,
}

impl Graph {
    // An arena without statements.
    pub fn new(alloc: Global) -> Self {
        Graph {
            statements: Arena::new(alloc),
            alloc,
        }
    }

    // Appends an assignment of any right side, and returns its id. The other calls that return an id append one of these too.
    pub fn assign(
        &mut self,
        rt: &impl Abort,
        name: &str,
        ty: Option<Type>,
        value: AssignmentRhs,
        attributes: Vec<Attribute>,
    ) -> ValueId {
        let name = String::from_str(self.alloc, name).expect(rt, "memory");
        let assignment = Assignment {
            name,
            ty,
            value,
            attributes,
        };
        let id = self
            .statements
            .alloc(assignment.into())
            .expect(rt, "memory");
        id.into()
    }

    // An assignment without a type and without attributes.
    pub fn rhs(&mut self, rt: &impl Abort, name: &str, value: AssignmentRhs) -> ValueId {
        let attributes = Vec::new(self.alloc);
        self.assign(rt, name, None, value, attributes)
    }

    // A variable without a type.
    pub fn var(&mut self, rt: &impl Abort, name: &str) -> ValueId {
        self.rhs(rt, name, AssignmentRhs::Var)
    }

    // A variable of a width in bits.
    pub fn typed_var(&mut self, rt: &impl Abort, name: &str, width: u16) -> ValueId {
        let attributes = Vec::new(self.alloc);
        self.assign(
            rt,
            name,
            Some(Type { width }),
            AssignmentRhs::Var,
            attributes,
        )
    }

    // A block with this number of predecessors.
    pub fn block(&mut self, rt: &impl Abort, name: &str, predecessors: u32) -> BlockId {
        let id = self.rhs(rt, name, Block { predecessors }.into());
        Id::from(id).into()
    }

    // A phi over the block, with these values in order.
    pub fn phi(
        &mut self,
        rt: &impl Abort,
        name: &str,
        block: BlockId,
        values: &[Operand],
    ) -> ValueId {
        let values = Vec::from_slice(self.alloc, values).expect(rt, "memory");
        self.rhs(rt, name, Phi { block, values }.into())
    }

    // The sum of the operands.
    pub fn add(&mut self, rt: &impl Abort, name: &str, a: Operand, b: Operand) -> ValueId {
        self.rhs(rt, name, Instruction::Add { a, b }.into())
    }

    // Appends a path condition.
    pub fn pc(&mut self, rt: &impl Abort, x: Operand, y: Operand) {
        self.statements
            .alloc(Pc { x, y }.into())
            .expect(rt, "memory");
    }

    // Appends a path condition on a predecessor of the block, counted from 0.
    pub fn block_pc(
        &mut self,
        rt: &impl Abort,
        block: BlockId,
        predecessor: u32,
        x: Operand,
        y: Operand,
    ) {
        let block_pc = BlockPc {
            block,
            predecessor,
            x,
            y,
        };
        self.statements.alloc(block_pc.into()).expect(rt, "memory");
    }

    // The left-hand side of the statements, with this root.
    pub fn infer(self, value: ValueId) -> LeftHandSide {
        let attributes = Vec::new(self.alloc);
        LeftHandSide {
            statements: self.statements,
            infer: Infer { value, attributes },
        }
    }

    // The right-hand side of the statements, with this root.
    pub fn result(self, root: Operand) -> RightHandSide {
        RightHandSide {
            statements: self.statements,
            result: root,
        }
    }

    // The replacement of the value by the operand, with an infer line and a result line.
    pub fn replaced(self, value: ValueId, rhs: Operand) -> Replacement {
        let attributes = Vec::new(self.alloc);
        Replacement::LhsRhs {
            statements: self.statements,
            lhs: Infer { value, attributes },
            rhs,
        }
    }

    // The replacement of the first operand by the second, with a cand line.
    pub fn cand(self, lhs: Operand, rhs: Operand) -> Replacement {
        let attributes = Vec::new(self.alloc);
        Replacement::Cand {
            statements: self.statements,
            cand: Cand {
                lhs,
                rhs,
                attributes,
            },
        }
    }
}

// A constant without a type.
pub fn number(value: i128) -> Operand {
    Constant { value, ty: None }.into()
}

// A constant of a type.
pub fn typed(value: i128, width: u16) -> Operand {
    let ty = Some(Type { width });
    Constant { value, ty }.into()
}

// The id of the position, from an arena that is dropped.
pub fn foreign_id(rt: &impl Abort, alloc: Global, index: usize) -> ValueId {
    let mut other = Graph::new(alloc);
    let mut id = other.var(rt, "%0");
    for _ in 0..index {
        id = other.var(rt, "%0");
    }
    id
}

pub fn equal<T: Copy + PartialEq + Debug>(rt: &impl Abort, found: T, want: T) {
    assert_eq!(rt; found, want);
}

pub fn is_text(rt: &impl Abort, text: String, want: &str) {
    equal(rt, text.as_str(), want);
}

// The text of the item, appended to a line.
fn appended<I: Item>(rt: &impl Abort, alloc: Global, item: &I) -> String {
    let mut text = String::from_str(alloc, "before\n").expect(rt, "memory");
    item.append_text(&mut text).expect(rt, "memory");
    text
}

// An item that has a copy.
pub trait Copied: Item {
    // The text of the copy.
    fn text_of_copy(&self, rt: &impl Abort) -> String;
}

impl Copied for LeftHandSide {
    fn text_of_copy(&self, rt: &impl Abort) -> String {
        self.clone()
            .expect(rt, "memory")
            .to_text()
            .expect(rt, "memory")
    }
}

impl Copied for RightHandSide {
    fn text_of_copy(&self, rt: &impl Abort) -> String {
        self.clone()
            .expect(rt, "memory")
            .to_text()
            .expect(rt, "memory")
    }
}

impl Copied for Replacement {
    fn text_of_copy(&self, rt: &impl Abort) -> String {
        self.clone()
            .expect(rt, "memory")
            .to_text()
            .expect(rt, "memory")
    }
}

// The item has this text, by each call that writes it.
fn is_written<I: Copied + Display>(rt: &impl Abort, alloc: Global, item: &I, want: &str) {
    is_text(rt, item.to_text().expect(rt, "memory"), want);
    is_text(rt, item.to_string(alloc).expect(rt, "memory"), want);
    is_text(rt, item.text_of_copy(rt), want);
    let whole = format!(in alloc; "before\n{want}").expect(rt, "memory");
    is_text(rt, appended(rt, alloc, item), whole.as_str());
}

// To display the item fails, and writes nothing.
pub fn is_not_displayed<I: Display>(rt: &impl Abort, alloc: Global, item: &I) {
    let mut f = Formatter::new(String::new(alloc));
    equal(rt, item.fmt(&mut f), Err(fmt::Error));
    is_text(rt, f.into_inner(), "");
}

// The item has this text, and is well formed or not.
pub fn item_is<I: Copied + Display + Drop>(
    rt: &impl Abort,
    alloc: Global,
    item: I,
    want: &str,
    well_formed: bool,
) {
    equal(rt, item.is_well_formed().expect(rt, "memory"), well_formed);
    is_written(rt, alloc, &item, want);
}

// The number of statements in printed order, those before an infer line, and the turns.
type Counts = (usize, usize, u128);

pub fn has_counts(rt: &impl Abort, order: Order, want: Counts) {
    equal(rt, (order.ids.len(), order.lead, order.turns), want);
}
