//! Reads cases: a text of one item, and lines with a world and what the item gives in it.
use souper_graph::ast::{Id, Item};
use souper_ir::parse::{
    parse_left_hand_sides_str, parse_replacements_str, parse_right_hand_sides_str,
};
use souper_meaning::{EvalError, Evaluation, PlanError, World, eval};
use souper_words::Outcome;
use std::alloc::Global;
use std::fmt::Write;
use std::process::Abort;

fn outcome(rt: &impl Abort, word: &str) -> Outcome {
    if word == "poison" {
        return Outcome::Poison;
    }
    if word == "undefined" {
        return Outcome::Undefined;
    }
    Outcome::Number(word.parse().expect(rt, word))
}

fn outcomes(rt: &impl Abort, alloc: Global, words: &str) -> Vec<Outcome> {
    let mut found = Vec::new(alloc);
    for word in words.split_whitespace() {
        found.push(outcome(rt, word)).expect(rt, "memory");
    }
    found
}

fn predecessors(rt: &impl Abort, alloc: Global, words: &str) -> Vec<u32> {
    let mut found = Vec::new(alloc);
    for word in words.split_whitespace() {
        let number = word.parse().expect(rt, word);
        found.push(number).expect(rt, "memory");
    }
    found
}

fn choices(rt: &impl Abort, alloc: Global, words: &str) -> Vec<u128> {
    let mut found = Vec::new(alloc);
    for word in words.split_whitespace() {
        let number = word.parse().expect(rt, word);
        found.push(number).expect(rt, "memory");
    }
    found
}

// A world by its values, predecessors and choices, each by position.
fn world(rt: &impl Abort, alloc: Global, text: &str) -> World {
    let (values, rest) = text.split_once(';').expect(rt, text);
    let (reached, chosen) = rest.split_once(';').expect(rt, text);
    World {
        values: outcomes(rt, alloc, values),
        predecessors: predecessors(rt, alloc, reached),
        choices: choices(rt, alloc, chosen),
    }
}

fn push_evaluation(rt: &impl Abort, text: &mut String, found: Evaluation) {
    let left = found.left;
    let right = found.right;
    let is_met = found.is_met;
    write!(text, "{left:?} {right:?} {is_met}").expect(rt, "memory");
}

// The error, in an item with this many statements.
fn push_error(rt: &impl Abort, text: &mut String, error: EvalError, count: usize) {
    for index in 0..count {
        if error == EvalError::NotAWorld(Id::at(index)) {
            write!(text, "not a world at {index}").expect(rt, "memory");
        }
        if error == EvalError::NoPlan(PlanError::Hole(Id::at(index))) {
            write!(text, "hole at {index}").expect(rt, "memory");
        }
        if error == EvalError::NoPlan(PlanError::TooWide(Id::at(index))) {
            write!(text, "too wide at {index}").expect(rt, "memory");
        }
    }
    if error == EvalError::NoPlan(PlanError::RootTooWide) {
        text.push_str("too wide roots").expect(rt, "memory");
    }
    if text.is_empty() {
        text.push_str("no widths").expect(rt, "memory");
    }
}

// What the first item gives in a world.
fn said<T: Item + Drop>(rt: &impl Abort, alloc: Global, items: &[T], world: &World) -> String {
    let item = items.first().expect(rt, "an item");
    let mut text = String::new(alloc);
    match eval(item, world) {
        Ok(found) => push_evaluation(rt, &mut text, found),
        Err(error) => push_error(rt, &mut text, error, item.statements().len()),
    }
    text
}

fn said_of(rt: &impl Abort, alloc: Global, kind: &str, source: &str, world: &World) -> String {
    if kind == "lhs" {
        let items = parse_left_hand_sides_str(alloc, source, None).expect(rt, source);
        return said(rt, alloc, &items, world);
    }
    if kind == "rhs" {
        let items = parse_right_hand_sides_str(alloc, source, None).expect(rt, source);
        return said(rt, alloc, &items, world);
    }
    let items = parse_replacements_str(alloc, source, None).expect(rt, source);
    said(rt, alloc, &items, world)
}

// One line of a case: what the item gives in a world.
fn judge_run(rt: &impl Abort, alloc: Global, kind: &str, source: &str, run: &str) {
    let (given, want) = run.split_once(" => ").expect(rt, run);
    let world = world(rt, alloc, given);
    let found = said_of(rt, alloc, kind, source, &world);
    assert_eq!(rt; found.as_str(), want, "in {source} {run}");
}

/// Each case is a line with `===`, a kind and a name, the text of an item, a line with `---`, and lines with a world and,
/// after `=>`, what the item gives in it.
pub fn judge_cases(rt: &impl Abort, alloc: Global, file: &str) {
    let rest = file.strip_prefix("\n=== ").expect(rt, "no case");
    let rest = rest.strip_suffix("\n").expect(rt, "no newline at the end");
    for lines in rest.split("\n\n=== ") {
        let (head, parts) = lines.split_once('\n').expect(rt, lines);
        let (kind, _name) = head.split_once(' ').expect(rt, lines);
        let (source, runs) = parts.split_once("\n---\n").expect(rt, lines);
        for run in runs.lines() {
            judge_run(rt, alloc, kind, source, run);
        }
    }
}
