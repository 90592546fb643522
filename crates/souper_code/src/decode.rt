//! The items whose code is given.

mod attributes;
mod instructions;
mod leaves;
mod statements;

ghost use Rattle.std.specs.Prelude.{◌≡◌, ◌++◌, ◌↔◌, ◌⊎◌, ℕ, List, [], length, map, IfOk, IfErr, IsTrue};
ghost use Rattle.std.specs.List.{AllByRecursion};
ghost use Rattle.souper_graph.specs.Values.{Item as PlainItem, PlainInfer, PlainCand};
ghost use Rattle.souper_graph.specs.View.{view_infer, view_cand};
ghost use Rattle.souper_code.specs.declared.decode.DecodeError.TheVariants.{OutOfMemory};
ghost use Rattle.souper_code.specs.Codes.{code_of_infer, code_of_cand, code_of, code_of_items};
ghost use Rattle.souper_code.specs.Codable.{CodableInfer, CodableCand, CodableItem};
ghost use Rattle.souper_code.specs.Reading.{Decodes};
ghost use Rattle.souper_code.specs.Writing.{IsCodeOfOnly, IsNoCode};

use souper_graph::ast::{
    Cand, Id, Infer, Item, LeftHandSide, Replacement, RightHandSide, Statement,
};
use std::alloc::{AllocError, AllocFailed, Global};

/// Why the front of a code gives no item.
#[derive(Clone, Copy, Debug, PartialEq, Eq, Drop)]
pub enum DecodeError {
    /// No item of the type has a code that the bytes begin with.
    NoCode,

    /// An allocation failed.
    OutOfMemory,
}

impl From<AllocError> for DecodeError {
    ghost from_gives = { λ _ error. error ≡ OutOfMemory };

    fn from(_: AllocError) -> Self {
        DecodeError::OutOfMemory
    }
}

impl<T: Drop> From<AllocFailed<T>> for DecodeError {
    ghost from_gives = { λ _ error. error ≡ OutOfMemory };

    fn from(_refused: AllocFailed<T>) -> Self {
        DecodeError::OutOfMemory
    }
}

/// The bytes of a code that are left to be read.
#[derive(Drop)]
pub struct Reader<'a> {
    rest: &'a [u8],
}

impl<'a> Reader<'a> {
    /// A reader of the whole of a code.
    pub fn new(code: &'a [u8]) -> Self
        ensures { result.rest.now ≡ code.now }
    {
        Reader { rest: code }
    }

    /// Whether no byte is left.
    pub fn is_empty(&self) -> bool
        ensures { IsTrue result ↔ (self.now.rest.now ≡ []) }
    {
        self.rest.is_empty()
    }

    /// The number of bytes that are left.
    pub fn len(&self) -> usize
        ensures { result ≡ length self.now.rest.now }
    {
        self.rest.len()
    }

    fn infer(&mut self, alloc: Global) -> Result<Infer, DecodeError>
        ensures read { IfOk result (λ i. CodableInfer (view_infer i) × (self.old.rest.now ≡ code_of_infer (view_infer i) ++ self.new.rest.now)) }
        ensures only { (x : PlainInfer) (rest : List ℕ) → CodableInfer x → self.old.rest.now ≡ code_of_infer x ++ rest → Decodes result (λ i. view_infer i ≡ x) self.new.rest.now rest }
    {
        let value: Id<Statement> = Id::at(self.size()?);
        let attributes = self.root_attributes(alloc)?;
        Ok(Infer {
            value: value.into(),
            attributes,
        })
    }

    fn cand(&mut self, alloc: Global) -> Result<Cand, DecodeError>
        ensures read { IfOk result (λ c. CodableCand (view_cand c) × (self.old.rest.now ≡ code_of_cand (view_cand c) ++ self.new.rest.now)) }
        ensures only { (x : PlainCand) (rest : List ℕ) → CodableCand x → self.old.rest.now ≡ code_of_cand x ++ rest → Decodes result (λ c. view_cand c ≡ x) self.new.rest.now rest }
    {
        let lhs = self.operand()?;
        let rhs = self.operand()?;
        let attributes = self.root_attributes(alloc)?;
        Ok(Cand {
            lhs,
            rhs,
            attributes,
        })
    }
}

/// An item that can be read from a code: a left-hand side, a right-hand side or a replacement.
pub trait Decode: Item {
    /// The item whose code the bytes of the reader begin with. The reader has the bytes after it then.
    ///
    /// A code belongs to one item, and no code begins another. After an error the reader is not specified.
    fn decode(reader: &mut Reader<'_>, alloc: Global) -> Result<Self, DecodeError>
        ensures read { IfOk result (λ item. CodableItem Self.item_type (Self.view item) × (reader.old.rest.now ≡ code_of (Self.view item) ++ reader.new.rest.now)) }
        ensures only { (x : PlainItem) (rest : List ℕ) → CodableItem Self.item_type x → reader.old.rest.now ≡ code_of x ++ rest → Decodes result (λ item. Self.view item ≡ x) reader.new.rest.now rest };
}

impl Decode for LeftHandSide {
    fn decode(reader: &mut Reader<'_>, alloc: Global) -> Result<Self, DecodeError> {
        let statements = reader.statements(alloc)?;
        match reader.byte()? {
            0 => {
                let infer = reader.infer(alloc)?;
                Ok(LeftHandSide { statements, infer })
            }
            _ => Err(DecodeError::NoCode),
        }
    }
}

impl Decode for RightHandSide {
    fn decode(reader: &mut Reader<'_>, alloc: Global) -> Result<Self, DecodeError> {
        let statements = reader.statements(alloc)?;
        match reader.byte()? {
            1 => {
                let result = reader.operand()?;
                Ok(RightHandSide { statements, result })
            }
            _ => Err(DecodeError::NoCode),
        }
    }
}

impl Decode for Replacement {
    fn decode(reader: &mut Reader<'_>, alloc: Global) -> Result<Self, DecodeError> {
        let statements = reader.statements(alloc)?;
        match reader.byte()? {
            2 => {
                let lhs = reader.infer(alloc)?;
                let rhs = reader.operand()?;
                Ok(Replacement::LhsRhs {
                    statements,
                    lhs,
                    rhs,
                })
            }
            3 => {
                let cand = reader.cand(alloc)?;
                Ok(Replacement::Cand { statements, cand })
            }
            _ => Err(DecodeError::NoCode),
        }
    }
}

/// The items whose code the bytes are, in their order.
///
/// A code belongs to one list of items. The error is `NoCode` if and only if the bytes are the code of no list of items of the
/// type; a length in the code that is larger than the code costs neither time nor memory.
pub fn decode_items<T: Decode + Drop>(alloc: Global, code: &[u8]) -> Result<Vec<T>, DecodeError>
    ensures decoded { IfOk result (λ items. IsCodeOfOnly T.item_type code.now (map T.view items.items)) }
    ensures no_code { IfErr result (λ e. IsNoCode T.item_type code.now ⊎ (e ≡ OutOfMemory)) }
{
    let mut reader = Reader::new(code);
    let mut items = Vec::new(alloc);
    while !reader.is_empty() {
        let item = T::decode(&mut reader, alloc)?;
        items.push(item)?;
    }
    Ok(items)
}
