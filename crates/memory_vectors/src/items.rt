//! Items that were read: their texts, orders and copies, and whether they are the same.
use crate::cases::Cases;
use crate::met::{Met, completed, completed_if, equal};
use crate::texts::{
    ATTRIBUTES, ATTRIBUTES_TEXT, TWO_ITEMS, TWO_TEXTS, are_two_items, is_attributes,
};
use anyhow::{Context, Result, bail};
use souper_format::command::Kind;
use souper_format::items::read_items;
use souper_format::same::same;
use souper_ir::ast::{Arena, Id, Item, LeftHandSide, Replacement, Statement};
use souper_ir::parse::{parse_left_hand_sides_str, parse_replacements_str};
use souper_ir::stringify::{DisplayWithContext, Order, TextError};
use std::alloc::{AllocError, Global};
use std::io;

// The printed orders of the two items.
const ORDERS: [[usize; 4]; 2] = [[0, 3, 1, 2], [0, 2, 1, 3]];

fn statements_of(item: &Replacement) -> &Arena<Statement> {
    match item {
        Replacement::LhsRhs { statements, .. } => statements,
        Replacement::Cand { statements, .. } => statements,
    }
}

// The text is this one, or there was no memory for it. Whether it is the text.
fn is_written(found: Result<String, TextError>, want: &str) -> Result<bool> {
    match found {
        Ok(text) => {
            equal(text.as_str(), want)?;
            Ok(true)
        }
        Err(error) => {
            equal(error, TextError::OutOfMemory)?;
            Ok(false)
        }
    }
}

// The answer is yes, or there was no memory for it. Whether it is yes.
fn is_yes(found: Result<bool, AllocError>) -> Result<bool> {
    match found {
        Ok(answer) => {
            equal(answer, true)?;
            Ok(true)
        }
        Err(_) => Ok(false),
    }
}

// Writes the texts of the items.
fn texts(alloc: Global) -> Result<Met> {
    match parse_replacements_str(alloc, TWO_ITEMS, None) {
        Ok(items) => write_texts(alloc, items.as_slice()),
        Err(_) => Ok(Met::Unreached),
    }
}

fn write_texts(alloc: Global, items: &[Replacement]) -> Result<Met> {
    let [first, second] = items else {
        bail!("not two items");
    };
    let are_written = is_written(first.to_text(), TWO_TEXTS[0])?
        && is_written(second.to_text(), TWO_TEXTS[1])?;
    Ok(completed_if(alloc, are_written))
}

// Appends the text of an item to another text.
fn appended(alloc: Global) -> Result<Met> {
    match parse_replacements_str(alloc, TWO_ITEMS, None) {
        Ok(items) => append_to_text(alloc, items.first()),
        Err(_) => Ok(Met::Unreached),
    }
}

fn append_to_text(alloc: Global, item: Option<&Replacement>) -> Result<Met> {
    let item = item.context("no item")?;
    let Ok(mut out) = String::from_str(alloc, "before\n") else {
        return Ok(Met::Unreached);
    };
    let appended = item.append_text(&mut out);
    Ok(completed_if(alloc, is_appended(appended, out.as_str())?))
}

// The text was appended, or there was no memory for it. Whether it was.
fn is_appended(appended: Result<(), TextError>, out: &str) -> Result<bool> {
    let text = out.strip_prefix("before\n");
    match appended {
        Ok(()) => {
            equal(text, Some(TWO_TEXTS[0]))?;
            Ok(true)
        }
        Err(error) => {
            equal(error, TextError::OutOfMemory)?;
            equal(text, Some(""))?;
            Ok(false)
        }
    }
}

// Orders the statements of the items.
fn orders(alloc: Global) -> Result<Met> {
    match parse_replacements_str(alloc, TWO_ITEMS, None) {
        Ok(items) => order_items(alloc, items.as_slice()),
        Err(_) => Ok(Met::Unreached),
    }
}

fn order_items(alloc: Global, items: &[Replacement]) -> Result<Met> {
    let [first, second] = items else {
        bail!("not two items");
    };
    let are_ordered = is_ordered(first.print_order(), ORDERS[0])?
        && is_ordered(second.print_order(), ORDERS[1])?;
    Ok(completed_if(alloc, are_ordered))
}

// The order is this one, or there was no memory for it. Whether it is the order.
fn is_ordered(found: Result<Order, TextError>, want: [usize; 4]) -> Result<bool> {
    match found {
        Ok(order) => {
            equal(indices(order.ids.as_slice()), Some(want))?;
            equal((order.lead, order.turns), (4, 9))?;
            Ok(true)
        }
        Err(error) => {
            equal(error, TextError::OutOfMemory)?;
            Ok(false)
        }
    }
}

// The positions of four statements. `None` if there are not four.
fn indices(ids: &[Id<Statement>]) -> Option<[usize; 4]> {
    match ids {
        [a, b, c, d] => Some([a.index(), b.index(), c.index(), d.index()]),
        _ => None,
    }
}

// Checks whether the items are well formed.
fn judgements(alloc: Global) -> Result<Met> {
    match parse_replacements_str(alloc, TWO_ITEMS, None) {
        Ok(items) => judge_items(alloc, items.as_slice()),
        Err(_) => Ok(Met::Unreached),
    }
}

fn judge_items(alloc: Global, items: &[Replacement]) -> Result<Met> {
    let [first, second] = items else {
        bail!("not two items");
    };
    let are_well_formed = is_yes(first.is_well_formed())? && is_yes(second.is_well_formed())?;
    Ok(completed_if(alloc, are_well_formed))
}

// Copies the items.
fn copies(alloc: Global) -> Result<Met> {
    match parse_replacements_str(alloc, TWO_ITEMS, None) {
        Ok(items) => copy_items(alloc, items.as_slice()),
        Err(_) => Ok(Met::Unreached),
    }
}

fn copy_items(alloc: Global, items: &[Replacement]) -> Result<Met> {
    let [first, second] = items else {
        bail!("not two items");
    };
    match (first.clone(), second.clone()) {
        (Ok(first), Ok(second)) => are_two_items(alloc, &[first, second]),
        _ => Ok(Met::Refused),
    }
}

// Writes the text of the item with attributes.
fn attributes_text(alloc: Global) -> Result<Met> {
    match parse_left_hand_sides_str(alloc, ATTRIBUTES, None) {
        Ok(items) => write_attributes(alloc, items.first()),
        Err(_) => Ok(Met::Unreached),
    }
}

fn write_attributes(alloc: Global, item: Option<&LeftHandSide>) -> Result<Met> {
    let text = item.context("no item")?.to_text();
    Ok(completed_if(alloc, is_written(text, ATTRIBUTES_TEXT)?))
}

// Copies the item with attributes.
fn attributes_copy(alloc: Global) -> Result<Met> {
    match parse_left_hand_sides_str(alloc, ATTRIBUTES, None) {
        Ok(items) => copy_attributes(alloc, items.first()),
        Err(_) => Ok(Met::Unreached),
    }
}

fn copy_attributes(alloc: Global, item: Option<&LeftHandSide>) -> Result<Met> {
    match item.context("no item")?.clone() {
        Ok(copy) => is_attributes(alloc, &copy),
        Err(_) => Ok(Met::Refused),
    }
}

// Writes the lines of the statements of one item, each after a text that is there.
fn lines(alloc: Global, index: usize, wants: &[&str; 4]) -> Result<Met> {
    match parse_replacements_str(alloc, TWO_ITEMS, None) {
        Ok(items) => write_lines(alloc, items.get(index), wants),
        Err(_) => Ok(Met::Unreached),
    }
}

fn write_lines(alloc: Global, item: Option<&Replacement>, wants: &[&str; 4]) -> Result<Met> {
    let statements = statements_of(item.context("no such item")?);
    equal(statements.len(), 4)?;
    for (id, statement) in statements.iter() {
        let want = wants.get(id.index()).context("no such line")?;
        match write_line(alloc, statements, statement, want)? {
            Met::Completed => {}
            other => return Ok(other),
        }
    }
    Ok(completed(alloc))
}

// What became of writing one line, after a text that is there.
fn write_line(
    alloc: Global,
    statements: &Arena<Statement>,
    statement: &Statement,
    want: &str,
) -> Result<Met> {
    let Ok(mut out) = String::from_str(alloc, "kept ") else {
        return Ok(Met::Unreached);
    };
    let displayed = statement.display(statements, &mut out);
    is_line(displayed, out.as_str(), want)
}

// The line was written after the text that was there, or there was no memory for it and the text is as it was.
fn is_line(displayed: Result<(), TextError>, out: &str, want: &str) -> Result<Met> {
    match displayed {
        Ok(()) => {
            equal(out.strip_prefix("kept "), Some(want))?;
            Ok(Met::Completed)
        }
        Err(error) => {
            equal(error, TextError::OutOfMemory)?;
            equal(out, "kept ")?;
            Ok(Met::Refused)
        }
    }
}

// The first item, which has a type, an instruction and a condition.
fn first_lines(alloc: Global) -> Result<Met> {
    let wants = [
        "%x:i32 = var\n",
        "%2lx = slt 2, %x\n",
        "pc %2lx 1\n",
        "%1lx = slt 1, %x\n",
    ];
    lines(alloc, 0, &wants)
}

// The second item, which has a block and phis.
fn second_lines(alloc: Global) -> Result<Met> {
    let wants = [
        "%bb = block 3\n",
        "%phi1 = phi %bb, 1:i32, 2, 3\n",
        "%phi2 = phi %bb, 2:i32, 4, 6\n",
        "%phi1x2 = mul %phi1, 2\n",
    ];
    lines(alloc, 1, &wants)
}

// Compares two texts that differ in the order of their definitions.
fn comparison(alloc: Global) -> Result<Met> {
    let a = "%b = var\n%a = var\n%c = add %a, %b\ninfer %c";
    let b = "%a = var\n%b = var\n%c = add %a, %b\ninfer %c";
    let Ok(a) = read_items(alloc, Kind::Lhs, a, None) else {
        return Ok(Met::Unreached);
    };
    let Ok(b) = read_items(alloc, Kind::Lhs, b, None) else {
        return Ok(Met::Unreached);
    };
    let answer = same(alloc, &a, &b);
    Ok(completed_if(alloc, is_yes(answer)?))
}

/// The cases of this file.
pub fn all(cases: &mut Cases<'_>) -> io::Result<()> {
    cases.run("writing_texts", texts)?;
    cases.run("appending_a_text", appended)?;
    cases.run("ordering", orders)?;
    cases.run("judging", judgements)?;
    cases.run("copying", copies)?;
    cases.run("writing_attributes", attributes_text)?;
    cases.run("copying_attributes", attributes_copy)?;
    cases.run("writing_lines", first_lines)?;
    cases.run("writing_lines_of_phis", second_lines)?;
    cases.run("comparing", comparison)?;
    Ok(())
}
