//! Items whose names make the parser's table of names grow, or leave it.
use crate::cases::Cases;
use crate::met::{Met, completed_if, equal};
use crate::parsers::stays_failed;
use crate::texts::is_out_of_memory;
use anyhow::Result;
use souper_ir::ast::LeftHandSide;
use souper_ir::parse::{Parse, Parser};
use std::alloc::Global;
use std::io;

// 66 names: the table grows with the 65th.
const MANY: &str = "\
%0=var %1=var %2=var %3=var %4=var %5=var %6=var %7=var %8=var %9=var %10=var %11=var %12=var %13=var %14=var \
%15=var %16=var %17=var %18=var %19=var %20=var %21=var %22=var %23=var %24=var %25=var %26=var %27=var %28=var \
%29=var %30=var %31=var %32=var %33=var %34=var %35=var %36=var %37=var %38=var %39=var %40=var %41=var %42=var \
%43=var %44=var %45=var %46=var %47=var %48=var %49=var %50=var %51=var %52=var %53=var %54=var %55=var %56=var \
%57=var %58=var %59=var %60=var %61=var %62=var %63=var %64=var %65=var infer %65";

// 17 names that have one slot: all leave the table with the fifth.
const OF_ONE_SLOT: &str = "\
%a_name_that_starts_as_a_and_that_ends_as_all_the_others=var \
%a_name_that_starts_as_b_and_that_ends_as_all_the_others=var \
%a_name_that_starts_as_c_and_that_ends_as_all_the_others=var \
%a_name_that_starts_as_d_and_that_ends_as_all_the_others=var \
%a_name_that_starts_as_e_and_that_ends_as_all_the_others=var \
%a_name_that_starts_as_f_and_that_ends_as_all_the_others=var \
%a_name_that_starts_as_g_and_that_ends_as_all_the_others=var \
%a_name_that_starts_as_h_and_that_ends_as_all_the_others=var \
%a_name_that_starts_as_i_and_that_ends_as_all_the_others=var \
%a_name_that_starts_as_j_and_that_ends_as_all_the_others=var \
%a_name_that_starts_as_k_and_that_ends_as_all_the_others=var \
%a_name_that_starts_as_l_and_that_ends_as_all_the_others=var \
%a_name_that_starts_as_m_and_that_ends_as_all_the_others=var \
%a_name_that_starts_as_n_and_that_ends_as_all_the_others=var \
%a_name_that_starts_as_o_and_that_ends_as_all_the_others=var \
%a_name_that_starts_as_p_and_that_ends_as_all_the_others=var \
%a_name_that_starts_as_q_and_that_ends_as_all_the_others=var \
infer %a_name_that_starts_as_q_and_that_ends_as_all_the_others";

// Takes the item, which has this number of statements.
fn item(alloc: Global, text: &str, statements: usize) -> Result<Met> {
    let mut parser = Parser::new(alloc, text);
    let found = LeftHandSide::parse(&mut parser);
    let met = completed_if(alloc, found.is_ok());
    match found {
        Ok(item) => equal(item.statements.len(), statements)?,
        Err(error) => {
            is_out_of_memory(alloc, &error)?;
            stays_failed(alloc, &mut parser)?;
        }
    }
    Ok(met)
}

/// The cases of this file.
pub fn all(cases: &mut Cases<'_>) -> io::Result<()> {
    cases.run("taking_many_names", |alloc| item(alloc, MANY, 66))?;
    cases.run(
        "taking_names_of_one_slot",
        |alloc| item(alloc, OF_ONE_SLOT, 17),
    )?;
    Ok(())
}
