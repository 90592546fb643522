//! Numbers, types, operands and lists of bits.

ghost use Rattle.std.specs.Prelude.{◌≡◌, ◌≢◌, ◌/◌, ◌%◌, ◌^◌, ◌<◌, ◌≤◌, ◌++◌, ◌∷◌, ℕ, ℤ, List, Bool, Option, [], length, IfOk, IfErr};
ghost use Rattle.std.specs.Int.{w16, w32, w64, from_le_bytes, to_le_bytes};
ghost use Rattle.souper_graph.specs.declared.ast.operands.«Type».{«Type» as Ty};
ghost use Rattle.souper_graph.specs.declared.ast.operands.Constant.{Constant as ConstantNode};
ghost use Rattle.souper_graph.specs.declared.ast.operands.Operand.{Operand as OperandNode};
ghost use Rattle.souper_code.specs.declared.decode.DecodeError.TheVariants.{NoCode};
ghost use Rattle.souper_code.specs.Codes.{code_of_u16, code_of_u32, code_of_size, code_of_list, code_of_wide, code_of_number, code_of_type, code_of_constant, code_of_operand, code_of_bit, code_of_known_bit};
ghost use Rattle.souper_code.specs.Codable.{CodableSize, CodableNumber, CodableType, CodableConstant, CodableOperand, CodableBit, CodableKnownBit, CodableList};
ghost use Rattle.souper_code.specs.Reading.{Decodes};

use crate::decode::{DecodeError, Reader};
use arrayvec::ArrayVec;
use souper_graph::ast::{Constant, Id, Operand, Statement, Type};
use std::alloc::Global;

fn u16_of(bytes: [u8; 2]) -> u16
    ensures code { code_of_u16 result ≡ bytes }
    ensures value { result ≡ from_le_bytes w16 bytes }
{
    u16::from_le_bytes(bytes)
}

fn u32_of(bytes: [u8; 4]) -> u32
    ensures code { code_of_u32 result ≡ bytes }
    ensures value { result ≡ from_le_bytes w32 bytes }
{
    u32::from_le_bytes(bytes)
}

fn size_of(bytes: [u8; 8]) -> usize
    ensures code { code_of_size result ≡ bytes }
    ensures value { result ≡ from_le_bytes w64 bytes }
{
    usize::from_le_bytes(bytes)
}

fn wide_of(low: usize, high: usize) -> u128
    ensures low { result % 2 ^ 64 ≡ low }
    ensures high { result / 2 ^ 64 ≡ high }
{
    high as u128 * 0x1_0000_0000_0000_0000 + low as u128
}

impl Reader<'_> {
    pub(crate) fn byte(&mut self) -> Result<u8, DecodeError>
        ensures read { IfOk result (λ n. (n < 2 ^ 8) × (self.old.rest.now ≡ n ∷ self.new.rest.now)) }
        ensures end { IfErr result (λ e. (e ≡ NoCode) × (self.old.rest.now ≡ [])) }
    {
        match self.rest.split_first() {
            None => Err(DecodeError::NoCode),
            Some((byte, rest)) => {
                self.rest = rest;
                Ok(*byte)
            }
        }
    }

    fn u16(&mut self) -> Result<u16, DecodeError>
        ensures read { IfOk result (λ n. (n < 2 ^ 16) × (self.old.rest.now ≡ code_of_u16 n ++ self.new.rest.now)) }
        ensures only { (n : ℕ) (rest : List ℕ) → n < 2 ^ 16 → self.old.rest.now ≡ code_of_u16 n ++ rest → Decodes result (λ v. v ≡ n) self.new.rest.now rest }
    {
        match self.rest.split_first_chunk::<2>() {
            None => Err(DecodeError::NoCode),
            Some((bytes, rest)) => {
                self.rest = rest;
                Ok(u16_of(*bytes))
            }
        }
    }

    pub(crate) fn u32(&mut self) -> Result<u32, DecodeError>
        ensures read { IfOk result (λ n. (n < 2 ^ 32) × (self.old.rest.now ≡ code_of_u32 n ++ self.new.rest.now)) }
        ensures only { (n : ℕ) (rest : List ℕ) → n < 2 ^ 32 → self.old.rest.now ≡ code_of_u32 n ++ rest → Decodes result (λ v. v ≡ n) self.new.rest.now rest }
    {
        match self.rest.split_first_chunk::<4>() {
            None => Err(DecodeError::NoCode),
            Some((bytes, rest)) => {
                self.rest = rest;
                Ok(u32_of(*bytes))
            }
        }
    }

    pub(crate) fn size(&mut self) -> Result<usize, DecodeError>
        ensures read { IfOk result (λ n. CodableSize n × (self.old.rest.now ≡ code_of_size n ++ self.new.rest.now)) }
        ensures only { (n : ℕ) (rest : List ℕ) → CodableSize n → self.old.rest.now ≡ code_of_size n ++ rest → Decodes result (λ v. v ≡ n) self.new.rest.now rest }
    {
        match self.rest.split_first_chunk::<8>() {
            None => Err(DecodeError::NoCode),
            Some((bytes, rest)) => {
                self.rest = rest;
                Ok(size_of(*bytes))
            }
        }
    }

    fn wide(&mut self) -> Result<u128, DecodeError>
        ensures read { IfOk result (λ n. (n < 2 ^ 128) × (self.old.rest.now ≡ code_of_wide n ++ self.new.rest.now)) }
        ensures only { (n : ℕ) (rest : List ℕ) → n < 2 ^ 128 → self.old.rest.now ≡ code_of_wide n ++ rest → Decodes result (λ v. v ≡ n) self.new.rest.now rest }
    {
        let low = self.size()?;
        let high = self.size()?;
        Ok(wide_of(low, high))
    }

    pub(crate) fn number(&mut self) -> Result<i128, DecodeError>
        ensures read { IfOk result (λ n. CodableNumber n × (self.old.rest.now ≡ code_of_number n ++ self.new.rest.now)) }
        ensures only { (n : ℤ) (rest : List ℕ) → CodableNumber n → self.old.rest.now ≡ code_of_number n ++ rest → Decodes result (λ v. v ≡ n) self.new.rest.now rest }
    {
        Ok(self.wide()?.cast_signed())
    }

    pub(crate) fn ty(&mut self) -> Result<Option<Type>, DecodeError>
        ensures read { IfOk result (λ ty. CodableType ty × (self.old.rest.now ≡ code_of_type ty ++ self.new.rest.now)) }
        ensures only { (ty : Option Ty) (rest : List ℕ) → CodableType ty → self.old.rest.now ≡ code_of_type ty ++ rest → Decodes result (λ v. v ≡ ty) self.new.rest.now rest }
    {
        match self.byte()? {
            0 => Ok(None),
            1 => Ok(Some(Type { width: self.u16()? })),
            _ => Err(DecodeError::NoCode),
        }
    }

    fn constant(&mut self) -> Result<Constant, DecodeError>
        ensures read { IfOk result (λ c. CodableConstant c × (self.old.rest.now ≡ code_of_constant c ++ self.new.rest.now)) }
        ensures only { (c : ConstantNode) (rest : List ℕ) → CodableConstant c → self.old.rest.now ≡ code_of_constant c ++ rest → Decodes result (λ v. v ≡ c) self.new.rest.now rest }
    {
        let value = self.number()?;
        let ty = self.ty()?;
        Ok(Constant { value, ty })
    }

    pub(crate) fn operand(&mut self) -> Result<Operand, DecodeError>
        ensures read { IfOk result (λ o. CodableOperand o × (self.old.rest.now ≡ code_of_operand o ++ self.new.rest.now)) }
        ensures only { (o : OperandNode) (rest : List ℕ) → CodableOperand o → self.old.rest.now ≡ code_of_operand o ++ rest → Decodes result (λ v. v ≡ o) self.new.rest.now rest }
    {
        match self.byte()? {
            0 => {
                let id: Id<Statement> = Id::at(self.size()?);
                Ok(Operand::Value(id.into()))
            }
            1 => Ok(Operand::Constant(self.constant()?)),
            _ => Err(DecodeError::NoCode),
        }
    }

    fn bit(&mut self) -> Result<bool, DecodeError>
        ensures read { IfOk result (λ bit. CodableBit bit × (self.old.rest.now ≡ code_of_bit bit ++ self.new.rest.now)) }
        ensures only { (bit : Bool) (rest : List ℕ) → CodableBit bit → self.old.rest.now ≡ code_of_bit bit ++ rest → Decodes result (λ v. v ≡ bit) self.new.rest.now rest }
    {
        match self.byte()? {
            0 => Ok(false),
            1 => Ok(true),
            _ => Err(DecodeError::NoCode),
        }
    }

    fn known_bit(&mut self) -> Result<Option<bool>, DecodeError>
        ensures read { IfOk result (λ bit. CodableKnownBit bit × (self.old.rest.now ≡ code_of_known_bit bit ++ self.new.rest.now)) }
        ensures only { (bit : Option Bool) (rest : List ℕ) → CodableKnownBit bit → self.old.rest.now ≡ code_of_known_bit bit ++ rest → Decodes result (λ v. v ≡ bit) self.new.rest.now rest }
    {
        match self.byte()? {
            0 => Ok(Some(false)),
            1 => Ok(Some(true)),
            2 => Ok(None),
            _ => Err(DecodeError::NoCode),
        }
    }

    pub(crate) fn operands(&mut self, alloc: Global) -> Result<Vec<Operand>, DecodeError>
        ensures read { IfOk result (λ v. CodableList CodableOperand v.items × (self.old.rest.now ≡ code_of_list code_of_operand v.items ++ self.new.rest.now)) }
        ensures only { (xs : List OperandNode) (rest : List ℕ) → CodableList CodableOperand xs → self.old.rest.now ≡ code_of_list code_of_operand xs ++ rest → Decodes result (λ v. v.items ≡ xs) self.new.rest.now rest }
    {
        let count = self.size()?;
        let mut operands = Vec::new(alloc);
        for _ in 0..count {
            let operand = self.operand()?;
            operands.push(operand)?;
        }
        Ok(operands)
    }

    /// The operands of an instruction, which has at most three.
    pub(crate) fn few_operands(&mut self) -> Result<ArrayVec<Operand, 3>, DecodeError>
        ensures read { IfOk result (λ v. CodableList CodableOperand v.items × (self.old.rest.now ≡ code_of_list code_of_operand v.items ++ self.new.rest.now)) }
        ensures only { (xs : List OperandNode) (rest : List ℕ) → length xs ≤ 3 → CodableList CodableOperand xs → self.old.rest.now ≡ code_of_list code_of_operand xs ++ rest → Decodes result (λ v. v.items ≡ xs) self.new.rest.now rest }
    {
        let count = self.size()?;
        if count > 3 {
            return Err(DecodeError::NoCode);
        }
        let mut operands = ArrayVec::new();
        for _ in 0..count {
            let operand = self.operand()?;
            operands.push(operand);
        }
        Ok(operands)
    }

    pub(crate) fn bits(&mut self, alloc: Global) -> Result<Vec<bool>, DecodeError>
        ensures read { IfOk result (λ v. CodableList CodableBit v.items × (self.old.rest.now ≡ code_of_list code_of_bit v.items ++ self.new.rest.now)) }
        ensures only { (xs : List Bool) (rest : List ℕ) → CodableList CodableBit xs → self.old.rest.now ≡ code_of_list code_of_bit xs ++ rest → Decodes result (λ v. v.items ≡ xs) self.new.rest.now rest }
    {
        let count = self.size()?;
        let mut bits = Vec::new(alloc);
        for _ in 0..count {
            let bit = self.bit()?;
            bits.push(bit)?;
        }
        Ok(bits)
    }

    pub(crate) fn known_bits(&mut self, alloc: Global) -> Result<Vec<Option<bool>>, DecodeError>
        ensures read { IfOk result (λ v. CodableList CodableKnownBit v.items × (self.old.rest.now ≡ code_of_list code_of_known_bit v.items ++ self.new.rest.now)) }
        ensures only { (xs : List (Option Bool)) (rest : List ℕ) → CodableList CodableKnownBit xs → self.old.rest.now ≡ code_of_list code_of_known_bit xs ++ rest → Decodes result (λ v. v.items ≡ xs) self.new.rest.now rest }
    {
        let count = self.size()?;
        let mut known_bits = Vec::new(alloc);
        for _ in 0..count {
            let known_bit = self.known_bit()?;
            known_bits.push(known_bit)?;
        }
        Ok(known_bits)
    }
}
