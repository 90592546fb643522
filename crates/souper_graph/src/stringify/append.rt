//! Nodes that name no other, appended to a text. On an error a part of them may be left there.

ghost use Rattle.std.specs.Prelude.{◌≡◌, ◌++◌, map, Some, OnOk, IfErr, IfSome};
ghost use Rattle.std.specs.String.{string_bytes};
ghost use Rattle.souper_graph.specs.Leaves.{text_of_optional_type, text_of_constant, text_of_attributes, text_of_root_attributes};
ghost use Rattle.souper_graph.specs.View.{view_attribute, view_root_attribute};
ghost use Rattle.souper_graph.specs.declared.stringify.errors.TextError.TheVariants.{OutOfMemory};

use crate::ast::{Attribute, Constant, RootAttribute, Type};
use crate::stringify::errors::TextError;

// `:` and the type, for the widths that most values have.
fn usual_type(ty: Type) -> Option<&'static str>
    ensures { IfSome result (λ text. text.now ≡ text_of_optional_type (Some ty)) }
{
    match ty.width {
        1 => Some(":i1"),
        8 => Some(":i8"),
        16 => Some(":i16"),
        32 => Some(":i32"),
        64 => Some(":i64"),
        128 => Some(":i128"),
        _ => None,
    }
}

// `:` and the type, if there is one.
pub(crate) fn append_optional_type(ty: Option<Type>, out: &mut String) -> Result<(), TextError>
    ensures ok { OnOk result (string_bytes out.new ≡ string_bytes out.old ++ text_of_optional_type ty) }
    ensures memory { IfErr result (λ error. error ≡ OutOfMemory) }
{
    let Some(ty) = ty else {
        return Ok(());
    };
    if let Some(text) = usual_type(ty) {
        return Ok(out.push_str(text)?);
    }
    write!(out, ":{ty}")?;
    Ok(())
}

pub(crate) fn append_constant(constant: &Constant, out: &mut String) -> Result<(), TextError>
    ensures ok { OnOk result (string_bytes out.new ≡ string_bytes out.old ++ text_of_constant constant.now) }
    ensures memory { IfErr result (λ error. error ≡ OutOfMemory) }
{
    let value = constant.value;
    write!(out, "{value}")?;
    append_optional_type(constant.ty, out)
}

// Each attribute with a space before it.
pub(crate) fn append_attributes(attributes: &[Attribute], out: &mut String) -> Result<(), TextError>
    ensures ok { OnOk result (string_bytes out.new ≡ string_bytes out.old ++ text_of_attributes (map view_attribute attributes.now)) }
    ensures memory { IfErr result (λ error. error ≡ OutOfMemory) }
{
    for attribute in attributes {
        write!(out, " {attribute}")?;
    }
    Ok(())
}

// Each attribute with a space before it.
pub(crate) fn append_root_attributes(
    attributes: &[RootAttribute],
    out: &mut String,
) -> Result<(), TextError>
    ensures ok { OnOk result (string_bytes out.new ≡ string_bytes out.old ++ text_of_root_attributes (map view_root_attribute attributes.now)) }
    ensures memory { IfErr result (λ error. error ≡ OutOfMemory) }
{
    for root_attribute in attributes {
        write!(out, " {root_attribute}")?;
    }
    Ok(())
}
