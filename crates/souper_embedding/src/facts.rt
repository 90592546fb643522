//! What is known of values and of roots: whether a query says at least what a stored replacement says.

ghost use Rattle.std.specs.Prelude.{◌≡◌, ◌↔◌, ℕ, false, [], ◌∷◌, map, Some, slice_get, IsTrue};
ghost use Rattle.souper_graph.specs.Values.{has_external_uses};
ghost use Rattle.souper_graph.specs.Uses.{Has};
ghost use Rattle.souper_graph.specs.View.{view_attribute, view_root_attribute};
ghost use Rattle.souper_embedding.specs.Embedding.{HasFacts, IsUnwanted, WantsWithin};

use souper_graph::ast::{Attribute, RootAttribute};

fn same_attribute(x: &Attribute, y: &Attribute) -> bool
    ensures { IsTrue result ↔ (view_attribute x.now ≡ view_attribute y.now) }
{
    match x {
        Attribute::KnownBits(bits) => match y {
            Attribute::KnownBits(other) => bits == other,
            _ => false,
        },
        Attribute::PowerOfTwo => matches!(y, Attribute::PowerOfTwo),
        Attribute::Negative => matches!(y, Attribute::Negative),
        Attribute::NonNegative => matches!(y, Attribute::NonNegative),
        Attribute::NonZero => matches!(y, Attribute::NonZero),
        Attribute::HasExternalUses => matches!(y, Attribute::HasExternalUses),
        Attribute::SignBits(n) => match y {
            Attribute::SignBits(other) => n == other,
            _ => false,
        },
        Attribute::Range(low, high) => match y {
            Attribute::Range(other_low, other_high) => low == other_low && high == other_high,
            _ => false,
        },
    }
}

fn has_fact(given: &[Attribute], fact: &Attribute) -> bool
    ensures { IsTrue result ↔ Has (map view_attribute given.now) (view_attribute fact.now) }
{
    for other in given {
        if same_attribute(other, fact) {
            return true;
        }
    }
    false
}

fn is_no_fact(attribute: &Attribute) -> bool
    ensures { IsTrue result ↔ (view_attribute attribute.now ≡ has_external_uses) }
{
    matches!(attribute, Attribute::HasExternalUses)
}

// Each fact of the first list is in the second. That a value has external uses is no fact.
pub(crate) fn has_facts(wanted: &[Attribute], given: &[Attribute]) -> bool
    ensures { IsTrue result ↔ HasFacts (map view_attribute wanted.now) (map view_attribute given.now) }
{
    for fact in wanted {
        if !is_no_fact(fact) && !has_fact(given, fact) {
            return false;
        }
    }
    true
}

fn is_unwanted_by(attribute: &RootAttribute, index: usize) -> bool
    ensures { IsTrue result ↔ IsUnwanted (view_root_attribute attribute.now ∷ []) index }
{
    match attribute {
        RootAttribute::DemandedBits(bits) => index < bits.len() && !bits[index],
        RootAttribute::HarvestedFromUse => false,
    }
}

fn is_unwanted(attributes: &[RootAttribute], index: usize) -> bool
    ensures { IsTrue result ↔ IsUnwanted (map view_root_attribute attributes.now) index }
{
    for attribute in attributes {
        if is_unwanted_by(attribute, index) {
            return true;
        }
    }
    false
}

fn wants_bits_within(bits: &[bool], query: &[RootAttribute]) -> bool
    ensures { IsTrue result ↔ ((k : ℕ) → slice_get bits.now k ≡ Some false → IsUnwanted (map view_root_attribute query.now) k) }
{
    for index in 0..bits.len() {
        if !bits[index] && !is_unwanted(query, index) {
            return false;
        }
    }
    true
}

fn wants_attribute_within(attribute: &RootAttribute, query: &[RootAttribute]) -> bool
    ensures { IsTrue result ↔ WantsWithin (view_root_attribute attribute.now ∷ []) (map view_root_attribute query.now) }
{
    match attribute {
        RootAttribute::DemandedBits(bits) => wants_bits_within(bits, query),
        RootAttribute::HarvestedFromUse => true,
    }
}

// The bits that the query demands are among those that the stored root demands.
pub(crate) fn wants_within(stored: &[RootAttribute], query: &[RootAttribute]) -> bool
    ensures { IsTrue result ↔ WantsWithin (map view_root_attribute stored.now) (map view_root_attribute query.now) }
{
    for attribute in stored {
        if !wants_attribute_within(attribute, query) {
            return false;
        }
    }
    true
}
