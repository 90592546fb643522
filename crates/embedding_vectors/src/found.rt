//! The embeddings that are found, up to a limit.
use souper_embedding::embed::{Embedding, embeddings, first_embedding};
use souper_graph::ast::{LeftHandSide, Replacement};
use souper_ir::parse::{parse_left_hand_sides_str, parse_replacements_str};
use std::alloc::Global;
use std::fmt::Write;
use std::process::Abort;

// The images of the positions, then those of the path conditions.
fn push_embedding(rt: &impl Abort, text: &mut String, embedding: &Embedding) {
    for image in &embedding.map {
        match image {
            Some(position) => write!(text, "{position} ").expect(rt, "memory"),
            None => write!(text, "- ").expect(rt, "memory"),
        }
    }
    write!(text, "|").expect(rt, "memory");
    for position in &embedding.images {
        write!(text, " {position}").expect(rt, "memory");
    }
    writeln!(text, "").expect(rt, "memory");
}

fn first_line(
    rt: &impl Abort,
    alloc: Global,
    stored: &Replacement,
    query: &LeftHandSide,
) -> String {
    let mut text = String::new(alloc);
    match first_embedding(alloc, stored, query).expect(rt, "memory") {
        Some(embedding) => push_embedding(rt, &mut text, &embedding),
        None => writeln!(text, "none").expect(rt, "memory"),
    }
    text
}

fn all_lines(
    rt: &impl Abort,
    alloc: Global,
    stored: &Replacement,
    query: &LeftHandSide,
    limit: usize,
) -> String {
    let mut text = String::new(alloc);
    let all = embeddings(alloc, stored, query, limit).expect(rt, "memory");
    for embedding in &all.found {
        push_embedding(rt, &mut text, embedding);
    }
    writeln!(text, "{}", all.are_all).expect(rt, "memory");
    text
}

fn judge(rt: &impl Abort, alloc: Global, stored: &str, query: &str, limit: usize, wanted: &str) {
    let replacements = parse_replacements_str(alloc, stored, None).expect(rt, stored);
    let queries = parse_left_hand_sides_str(alloc, query, None).expect(rt, query);
    let replacement = replacements.first().expect(rt, stored);
    let query = queries.first().expect(rt, query);
    let first = first_line(rt, alloc, replacement, query);
    let all = all_lines(rt, alloc, replacement, query, limit);
    let mut lines = first;
    lines.push_str(&all).expect(rt, "memory");
    assert_eq!(rt; lines.as_str(), wanted);
}

const STORED: &str =
    "%0:i8 = var %1 = ult %0, 4 pc %1 1 %3:i8 = var %4 = sub %3, 3 infer %4 %5 = shl %0, 1 result %5";

#[test]
fn a_condition_has_two_images(rt: HostRuntime) {
    let query =
        "%0:i8 = var %1 = ult %0, 4 pc %1 1 %3:i8 = var %4 = sub %3, 3 %a:i8 = var %b = ult %a, 4 pc %b 1 infer %4";
    judge(
        &rt,
        rt.alloc(),
        STORED,
        query,
        2,
        "0 1 - 3 4 - | 2\n0 1 - 3 4 - | 2\n5 6 - 3 4 - | 7\ntrue\n",
    );
    judge(
        &rt,
        rt.alloc(),
        STORED,
        query,
        1,
        "0 1 - 3 4 - | 2\n0 1 - 3 4 - | 2\nfalse\n",
    );
    judge(
        &rt,
        rt.alloc(),
        STORED,
        query,
        0,
        "0 1 - 3 4 - | 2\nfalse\n",
    );
}

#[test]
fn a_condition_has_no_image(rt: HostRuntime) {
    judge(
        &rt,
        rt.alloc(),
        STORED,
        "%3:i8 = var %4 = sub %3, 3 %5 = ult %3, 5 pc %5 1 infer %4",
        0,
        "none\ntrue\n",
    );
}

#[test]
fn two_inputs_have_one_image(rt: HostRuntime) {
    let query = "%3:i8 = var %4 = sub %3, 3 %5 = ult %3, 4 pc %5 1 pc %5 1 infer %4";
    judge(
        &rt,
        rt.alloc(),
        STORED,
        query,
        3,
        "0 2 - 0 1 - | 3\n0 2 - 0 1 - | 3\ntrue\n",
    );
}

#[test]
fn two_conditions_have_two_images_each(rt: HostRuntime) {
    let stored =
        "%0:i8 = var %1:i8 = var %2 = ult %0, 4 %3 = ult %1, 4 pc %2 1 pc %3 1 %6:i8 = var %7 = add %6, 1 infer %7 result 0";
    let query =
        "%0:i8 = var %1:i8 = var %2 = ult %0, 4 %3 = ult %1, 4 pc %2 1 pc %3 1 %6:i8 = var %7 = add %6, 1 infer %7";
    let wanted =
        "0 0 2 2 - - 6 7 | 4 4\n0 0 2 2 - - 6 7 | 4 4\n0 1 2 3 - - 6 7 | 4 5\n1 0 3 2 - - 6 7 | 5 4\nfalse\n";
    judge(&rt, rt.alloc(), stored, query, 3, wanted);
}
