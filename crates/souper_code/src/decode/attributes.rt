//! Attributes.

ghost use Rattle.std.specs.Prelude.{◌≡◌, ◌++◌, ℕ, List, map, IfOk};
ghost use Rattle.souper_graph.specs.Values.{PlainAttribute, PlainRootAttribute};
ghost use Rattle.souper_graph.specs.View.{view_attribute, view_root_attribute};
ghost use Rattle.souper_code.specs.Codes.{code_of_list, code_of_attribute, code_of_root_attribute};
ghost use Rattle.souper_code.specs.Codable.{CodableAttribute, CodableRootAttribute, CodableList};
ghost use Rattle.souper_code.specs.Reading.{Decodes};

use crate::decode::{DecodeError, Reader};
use souper_graph::ast::{Attribute, RootAttribute};
use std::alloc::Global;

impl Reader<'_> {
    fn attribute(&mut self, alloc: Global) -> Result<Attribute, DecodeError>
        ensures read { IfOk result (λ a. CodableAttribute (view_attribute a) × (self.old.rest.now ≡ code_of_attribute (view_attribute a) ++ self.new.rest.now)) }
        ensures only { (x : PlainAttribute) (rest : List ℕ) → CodableAttribute x → self.old.rest.now ≡ code_of_attribute x ++ rest → Decodes result (λ a. view_attribute a ≡ x) self.new.rest.now rest }
    {
        match self.byte()? {
            0 => Ok(Attribute::KnownBits(self.known_bits(alloc)?)),
            1 => Ok(Attribute::PowerOfTwo),
            2 => Ok(Attribute::Negative),
            3 => Ok(Attribute::NonNegative),
            4 => Ok(Attribute::NonZero),
            5 => Ok(Attribute::HasExternalUses),
            6 => Ok(Attribute::SignBits(self.byte()?)),
            7 => {
                let low = self.number()?;
                let high = self.number()?;
                Ok(Attribute::Range(low, high))
            }
            _ => Err(DecodeError::NoCode),
        }
    }

    fn root_attribute(&mut self, alloc: Global) -> Result<RootAttribute, DecodeError>
        ensures read { IfOk result (λ a. CodableRootAttribute (view_root_attribute a) × (self.old.rest.now ≡ code_of_root_attribute (view_root_attribute a) ++ self.new.rest.now)) }
        ensures only { (x : PlainRootAttribute) (rest : List ℕ) → CodableRootAttribute x → self.old.rest.now ≡ code_of_root_attribute x ++ rest → Decodes result (λ a. view_root_attribute a ≡ x) self.new.rest.now rest }
    {
        match self.byte()? {
            0 => Ok(RootAttribute::DemandedBits(self.bits(alloc)?)),
            1 => Ok(RootAttribute::HarvestedFromUse),
            _ => Err(DecodeError::NoCode),
        }
    }

    pub(crate) fn attributes(&mut self, alloc: Global) -> Result<Vec<Attribute>, DecodeError>
        ensures read { IfOk result (λ v. CodableList CodableAttribute (map view_attribute v.items) × (self.old.rest.now ≡ code_of_list code_of_attribute (map view_attribute v.items) ++ self.new.rest.now)) }
        ensures only { (xs : List PlainAttribute) (rest : List ℕ) → CodableList CodableAttribute xs → self.old.rest.now ≡ code_of_list code_of_attribute xs ++ rest → Decodes result (λ v. map view_attribute v.items ≡ xs) self.new.rest.now rest }
    {
        let count = self.size()?;
        let mut attributes = Vec::new(alloc);
        for _ in 0..count {
            let attribute = self.attribute(alloc)?;
            attributes.push(attribute)?;
        }
        Ok(attributes)
    }

    pub(crate) fn root_attributes(
        &mut self,
        alloc: Global,
    ) -> Result<Vec<RootAttribute>, DecodeError>
        ensures read { IfOk result (λ v. CodableList CodableRootAttribute (map view_root_attribute v.items) × (self.old.rest.now ≡ code_of_list code_of_root_attribute (map view_root_attribute v.items) ++ self.new.rest.now)) }
        ensures only { (xs : List PlainRootAttribute) (rest : List ℕ) → CodableList CodableRootAttribute xs → self.old.rest.now ≡ code_of_list code_of_root_attribute xs ++ rest → Decodes result (λ v. map view_root_attribute v.items ≡ xs) self.new.rest.now rest }
    {
        let count = self.size()?;
        let mut root_attributes = Vec::new(alloc);
        for _ in 0..count {
            let root_attribute = self.root_attribute(alloc)?;
            root_attributes.push(root_attribute)?;
        }
        Ok(root_attributes)
    }
}
