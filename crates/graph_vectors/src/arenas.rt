//! Arenas, ids and the errors of a text, by calls.
use crate::fixtures::{Graph, equal, is_not_displayed, is_text, number};
use souper_graph::ast::{
    Arena, Assignment, AssignmentRhs, BlockId, Id, Infer, LeftHandSide, Statement, ValueId,
};
use souper_graph::stringify::{DisplayWithContext, TextError};
use std::alloc::{AllocError, AllocFailed, Global};
use std::hash::{DefaultHasher, Hash, Hasher};
use std::process::Abort;

// An arena of variables with these names.
fn variables(rt: &impl Abort, alloc: Global, names: &[&str]) -> Arena<Statement> {
    let mut statements = Arena::new(alloc);
    for name in names {
        let assignment = Assignment {
            name: String::from_str(alloc, name).expect(rt, "memory"),
            ty: None,
            value: AssignmentRhs::Var,
            attributes: Vec::new(alloc),
        };
        statements.alloc(assignment.into()).expect(rt, "memory");
    }
    statements
}

// The id has this position, and the item is there.
fn has_item(rt: &impl Abort, arena: &Arena<u8>, id: Id<u8>, position: usize, item: u8) {
    equal(rt, id.index(), position);
    equal(rt, arena.get(id).copied(), Some(item));
}

// Three items are put into the empty arena.
fn keeps_positions(rt: &impl Abort, arena: &mut Arena<u8>) {
    equal(rt, arena.len(), 0);
    equal(rt, arena.iter().next().is_none(), true);
    let first = arena.alloc(10).expect(rt, "memory");
    let second = arena.alloc(20).expect(rt, "memory");
    let third = arena.alloc(30).expect(rt, "memory");
    equal(rt, arena.len(), 3);
    has_item(rt, arena, first, 0, 10);
    has_item(rt, arena, second, 1, 20);
    has_item(rt, arena, third, 2, 30);
}

#[test]
fn items_keep_their_positions(rt: HostRuntime) {
    keeps_positions(&rt, &mut Arena::new(rt.alloc()));
}

#[test]
fn items_come_in_order(rt: HostRuntime) {
    let mut arena = Arena::new(rt.alloc());
    for item in [7u8, 5, 7] {
        arena.alloc(item).expect(&rt, "memory");
    }
    let mut seen = Vec::new(rt.alloc());
    for (id, item) in arena.iter() {
        seen.push((id.index(), *item)).expect(&rt, "memory");
    }
    equal(&rt, seen.as_slice(), &[(0, 7), (1, 5), (2, 7)]);
}

// Two items are put into the empty arena, and the second is written.
fn changes_one(rt: &impl Abort, arena: &mut Arena<u8>) {
    let first = arena.alloc(1).expect(rt, "memory");
    let second = arena.alloc(2).expect(rt, "memory");
    *arena.get_mut(second).expect(rt, "no item") = 9;
    equal(rt, arena.len(), 2);
    has_item(rt, arena, first, 0, 1);
    has_item(rt, arena, second, 1, 9);
}

#[test]
fn writes_change_one_item(rt: HostRuntime) {
    changes_one(&rt, &mut Arena::new(rt.alloc()));
}

// The ids of two items, from an arena that is dropped.
fn foreign_ids(rt: &impl Abort, alloc: Global) -> (Id<u8>, Id<u8>) {
    let mut other = Arena::new(alloc);
    (
        other.alloc(1u8).expect(rt, "memory"),
        other.alloc(2).expect(rt, "memory"),
    )
}

// One item is put into the empty arena.
fn has_the_first(rt: &impl Abort, arena: &mut Arena<u8>, first: Id<u8>, second: Id<u8>) {
    let own = arena.alloc(3).expect(rt, "memory");
    equal(rt, (first == own, second == own), (true, false));
    has_item(rt, arena, first, 0, 3);
    equal(rt, arena.get(second).is_none(), true);
    equal(rt, arena.get_mut(second).is_none(), true);
}

#[test]
fn foreign_ids_are_positions(rt: HostRuntime) {
    let (first, second) = foreign_ids(&rt, rt.alloc());
    has_the_first(&rt, &mut Arena::new(rt.alloc()), first, second);
}

// The id of the position in an arena of three variables.
fn id_at(rt: &impl Abort, alloc: Global, index: usize) -> Id<Statement> {
    let statements = variables(rt, alloc, &["%0", "%1", "%2"]);
    for (id, _) in statements.iter() {
        if id.index() == index {
            return id;
        }
    }
    rt.abort()
}

#[test]
fn ids_convert_by_position(rt: HostRuntime) {
    let first = id_at(&rt, rt.alloc(), 0);
    let second = id_at(&rt, rt.alloc(), 1);
    let value = ValueId::from(second);
    equal(&rt, (Id::from(value), Id::from(value).index()), (second, 1));
    equal(
        &rt,
        (value == second.into(), value == first.into()),
        (true, false),
    );
}

// Two variables with the root at the id.
fn rooted(rt: &impl Abort, alloc: Global, id: Id<Statement>) -> LeftHandSide {
    let statements = variables(rt, alloc, &["%a", "%b"]);
    let infer = Infer {
        value: id.into(),
        attributes: Vec::new(alloc),
    };
    LeftHandSide { statements, infer }
}

#[test]
fn foreign_root_in_range_has_a_text(rt: HostRuntime) {
    let item = rooted(&rt, rt.alloc(), id_at(&rt, rt.alloc(), 1));
    is_text(
        &rt,
        item.to_text().expect(&rt, "memory"),
        "%b = var\ninfer %b\n",
    );
}

#[test]
fn foreign_root_out_of_range_has_no_text(rt: HostRuntime) {
    let id = id_at(&rt, rt.alloc(), 2);
    let item = rooted(&rt, rt.alloc(), id);
    equal(&rt, item.to_text().err(), Some(TextError::OutOfRange(id)));
    is_not_displayed(&rt, rt.alloc(), &item);
    let shown = TextError::OutOfRange(id)
        .to_string(rt.alloc())
        .expect(&rt, "memory");
    is_text(&rt, shown, "statement id 2 is out of range");
}

#[test]
fn text_errors_are_shown(rt: HostRuntime) {
    let alloc = rt.alloc();
    let id = id_at(&rt, alloc, 1);
    let error = TextError::OutOfRange(id);
    is_text(
        &rt,
        error.to_string(alloc).expect(&rt, "memory"),
        "statement id 1 is out of range",
    );
    let error = TextError::NotAnAssignment(id);
    is_text(
        &rt,
        error.to_string(alloc).expect(&rt, "memory"),
        "statement id 1 is not an assignment",
    );
    let error = TextError::NotABlock(id);
    is_text(
        &rt,
        error.to_string(alloc).expect(&rt, "memory"),
        "statement id 1 is not a block",
    );
    is_text(
        &rt,
        TextError::OutOfMemory
            .to_string(alloc)
            .expect(&rt, "memory"),
        "out of memory",
    );
    equal(&rt, TextError::from(AllocError), TextError::OutOfMemory);
    equal(
        &rt,
        TextError::from(AllocFailed { value: id }),
        TextError::OutOfMemory,
    );
}

// The statements are two variables, `%a` and `%b`.
fn are_a_and_b(rt: &impl Abort, alloc: Global, statements: &Arena<Statement>) {
    let mut lines = String::new(alloc);
    for (_, statement) in statements.iter() {
        statement
            .clone()
            .expect(rt, "memory")
            .display(statements, &mut lines)
            .expect(rt, "memory");
    }
    is_text(rt, lines, "%a = var\n%b = var\n");
    equal(rt, statements.len(), 2);
}

#[test]
fn grown_shrunk_and_copied_arenas_keep_their_statements(rt: HostRuntime) {
    let mut statements = variables(&rt, rt.alloc(), &["%a", "%b"]);
    statements.reserve(16).expect(&rt, "memory");
    are_a_and_b(&rt, rt.alloc(), &statements);
    statements.shrink_to_fit();
    are_a_and_b(&rt, rt.alloc(), &statements);
    are_a_and_b(&rt, rt.alloc(), &statements.clone().expect(&rt, "memory"));
}

fn hash_of<T: Hash>(value: &T) -> u64 {
    let mut hasher = DefaultHasher::new();
    value.hash(&mut hasher);
    hasher.finish()
}

// The first have one hash, and the other has another.
fn hashes_differ<T: Hash>(rt: &impl Abort, first: &T, again: &T, other: &T) {
    let hash = hash_of(first);
    equal(
        rt,
        (hash == hash_of(again), hash == hash_of(other)),
        (true, false),
    );
}

#[test]
fn ids_are_hashed_by_position(rt: HostRuntime) {
    let first = id_at(&rt, rt.alloc(), 0);
    let again = id_at(&rt, rt.alloc(), 0);
    let other = id_at(&rt, rt.alloc(), 1);
    hashes_differ(&rt, &first, &again, &other);
    hashes_differ::<ValueId>(&rt, &first.into(), &again.into(), &other.into());
    hashes_differ::<BlockId>(&rt, &first.into(), &again.into(), &other.into());
}

// A variable `%x`, a block with three predecessors, and a path condition.
fn three_statements(rt: &impl Abort, alloc: Global) -> Arena<Statement> {
    let mut graph = Graph::new(alloc);
    let value = graph.var(rt, "%x");
    graph.block(rt, "%bb", 3);
    graph.pc(rt, value.into(), number(1));
    graph.statements
}

// The name of the assignment and the predecessors of the block at the id.
fn found(statements: &Arena<Statement>, id: Id<Statement>) -> (Option<&str>, Option<u32>) {
    let name = statements
        .assignment(id.into())
        .map(|assignment| assignment.name.as_str());
    let predecessors = statements.block(id.into()).map(|block| block.predecessors);
    (name, predecessors)
}

#[test]
fn ids_look_up_what_they_name(rt: HostRuntime) {
    let statements = three_statements(&rt, rt.alloc());
    equal(
        &rt,
        found(&statements, id_at(&rt, rt.alloc(), 0)),
        (Some("%x"), None),
    );
    equal(
        &rt,
        found(&statements, id_at(&rt, rt.alloc(), 1)),
        (Some("%bb"), Some(3)),
    );
    let third = id_at(&rt, rt.alloc(), 2);
    equal(&rt, found(&statements, third), (None, None));
    let empty: Arena<Statement> = Arena::new(rt.alloc());
    equal(&rt, found(&empty, third), (None, None));
}
