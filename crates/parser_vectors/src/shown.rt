//! What a parser shows of itself: its names are in a table or, if too many of them have one slot, all in a map.
use crate::checks::is_text;
use souper_ir::ast::LeftHandSide;
use souper_ir::parse::{Parse, Parser};
use std::alloc::Global;
use std::process::Abort;

// Three names, which are in the table of names.
const FEW: &str = "%a = var %b = block 2 %c = phi %b, %a, 1 infer 1";

const FEW_SHOWN: &str = "\
true Parser { alloc: Global, lexer: Lexer { offset: 48, rest: \"\" }, ahead: None, offset: 47, statements: Arena { items: \
[Assignment(Assignment { name: \"%a\", ty: None, value: Var, attributes: [] }), Assignment(Assignment { name: \"%b\", ty: None, \
value: Block(Block { predecessors: 2 }), attributes: [] }), Assignment(Assignment { name: \"%c\", ty: None, value: Phi(Phi { \
block: BlockId { index: 1 }, values: [Value(ValueId { index: 0 }), Constant(Constant { value: 1, ty: None })] }), attributes: [] \
})] }, names: Names { table: {\"%a\": (0, None), \"%b\": (1, Some(2)), \"%c\": (2, None)}, entries: {}, last: None }, recent: \
Recent { values: [None, None, None, None, None, None, None, None, None, None, None, None, None, None, None, None, None, None, \
None, Some(ValueId { index: 0 }), Some(ValueId { index: 1 }), Some(ValueId { index: 2 }), None, None, None, None, None, None, \
None, None, None, None, None, None, None, None, None, None, None, None, None, None, None, None, None, None, None, None, None, \
None, None, None, None, None, None, None, None, None, None, None, None, None, None, None] }, failed: Some(Refused(47)) }";

// Nine names that have one slot of the table, so that they are in the map.
const OF_ONE_SLOT: &str = "\
%a_name_that_starts_as_a_and_that_ends_as_all_the_others=var \
%a_name_that_starts_as_b_and_that_ends_as_all_the_others=var \
%a_name_that_starts_as_c_and_that_ends_as_all_the_others=block 2 \
%a_name_that_starts_as_d_and_that_ends_as_all_the_others=var \
%a_name_that_starts_as_e_and_that_ends_as_all_the_others=var \
%a_name_that_starts_as_f_and_that_ends_as_all_the_others=var \
%a_name_that_starts_as_g_and_that_ends_as_all_the_others=var \
%a_name_that_starts_as_h_and_that_ends_as_all_the_others=var \
%a_name_that_starts_as_i_and_that_ends_as_all_the_others=var infer 1";

const OF_ONE_SLOT_SHOWN: &str = "\
true Parser { alloc: Global, lexer: Lexer { offset: 560, rest: \"\" }, ahead: None, offset: 559, statements: Arena { items: \
[Assignment(Assignment { name: \"%a_name_that_starts_as_a_and_that_ends_as_all_the_others\", ty: None, value: Var, attributes: [] \
}), Assignment(Assignment { name: \"%a_name_that_starts_as_b_and_that_ends_as_all_the_others\", ty: None, value: Var, attributes: \
[] }), Assignment(Assignment { name: \"%a_name_that_starts_as_c_and_that_ends_as_all_the_others\", ty: None, value: Block(Block { \
predecessors: 2 }), attributes: [] }), Assignment(Assignment { name: \
\"%a_name_that_starts_as_d_and_that_ends_as_all_the_others\", ty: None, value: Var, attributes: [] }), Assignment(Assignment { \
name: \"%a_name_that_starts_as_e_and_that_ends_as_all_the_others\", ty: None, value: Var, attributes: [] }), \
Assignment(Assignment { name: \"%a_name_that_starts_as_f_and_that_ends_as_all_the_others\", ty: None, value: Var, attributes: [] \
}), Assignment(Assignment { name: \"%a_name_that_starts_as_g_and_that_ends_as_all_the_others\", ty: None, value: Var, attributes: \
[] }), Assignment(Assignment { name: \"%a_name_that_starts_as_h_and_that_ends_as_all_the_others\", ty: None, value: Var, \
attributes: [] }), Assignment(Assignment { name: \"%a_name_that_starts_as_i_and_that_ends_as_all_the_others\", ty: None, value: \
Var, attributes: [] })] }, names: Names { table: {}, entries: {\"%a_name_that_starts_as_a_and_that_ends_as_all_the_others\": (0, \
None), \"%a_name_that_starts_as_b_and_that_ends_as_all_the_others\": (1, None), \
\"%a_name_that_starts_as_c_and_that_ends_as_all_the_others\": (2, Some(2)), \
\"%a_name_that_starts_as_d_and_that_ends_as_all_the_others\": (3, None), \
\"%a_name_that_starts_as_e_and_that_ends_as_all_the_others\": (4, None), \
\"%a_name_that_starts_as_f_and_that_ends_as_all_the_others\": (5, None), \
\"%a_name_that_starts_as_g_and_that_ends_as_all_the_others\": (6, None), \
\"%a_name_that_starts_as_h_and_that_ends_as_all_the_others\": (7, None), \
\"%a_name_that_starts_as_i_and_that_ends_as_all_the_others\": (8, None)}, last: \
Some((\"%a_name_that_starts_as_i_and_that_ends_as_all_the_others\", 8, None)) }, recent: Recent { values: [None, None, None, \
None, None, None, None, None, None, None, None, None, None, None, None, None, None, None, None, None, None, None, None, None, \
None, None, None, None, None, None, None, None, None, None, None, None, None, None, None, Some(ValueId { index: 8 }), None, None, \
None, None, None, None, None, None, None, None, None, None, None, None, None, None, None, None, None, None, None, None, None, \
None] }, failed: Some(Refused(559)) }";

// The parser of the text, whose last line is rejected, shows this.
fn shows(rt: &impl Abort, alloc: Global, source: &str, want: &str) {
    let mut parser = Parser::new(alloc, source);
    let refused = LeftHandSide::parse(&mut parser).is_err();
    let shown = format!(in alloc; "{refused} {parser:?}").expect(rt, source);
    is_text(rt, shown, want);
}

#[test]
fn names_are_shown_where_they_are(rt: HostRuntime) {
    shows(&rt, rt.alloc(), FEW, FEW_SHOWN);
    shows(&rt, rt.alloc(), OF_ONE_SLOT, OF_ONE_SLOT_SHOWN);
}
