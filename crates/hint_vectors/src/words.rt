//! The words of instructions, each with as many operands as it takes, with one more and with one less.

use crate::hints::{is_hinted, parse_error};
use souper_hint::Kind;
use std::alloc::Global;
use std::process::Abort;

// The words of the grammar, each after its number of operands.
const WORDS: &str = "0 hole
0 var
0 reservedinst
0 reservedconst
1 zext
1 sext
1 trunc
1 ctpop
1 bswap
1 bitreverse
1 cttz
1 ctlz
1 freeze
2 add
2 addnsw
2 addnuw
2 addnw
2 sub
2 subnsw
2 subnuw
2 subnw
2 mul
2 mulnsw
2 mulnuw
2 mulnw
2 udiv
2 sdiv
2 udivexact
2 sdivexact
2 urem
2 srem
2 and
2 or
2 xor
2 shl
2 shlnsw
2 shlnuw
2 shlnw
2 lshr
2 lshrexact
2 ashr
2 ashrexact
2 eq
2 ne
2 ult
2 slt
2 ule
2 sle
2 sadd.with.overflow
2 uadd.with.overflow
2 ssub.with.overflow
2 usub.with.overflow
2 smul.with.overflow
2 umul.with.overflow
2 sadd.sat
2 uadd.sat
2 ssub.sat
2 usub.sat
2 extractvalue
3 select
3 fshl
3 fshr";

// A left-hand side of the word with so many operands.
fn applied(rt: &impl Abort, alloc: Global, word: &str, count: usize) -> String {
    let mut text = format!(in alloc; "%x = {word}").expect(rt, word);
    for index in 0..count {
        let before = if index == 0 { " " } else { ", " };
        text.push_str(before).expect(rt, word);
        text.push('1').expect(rt, word);
    }
    text.push_str("\ninfer %x\n").expect(rt, word);
    text
}

// What the hint says.
fn takes(rt: &impl Abort, alloc: Global, word: &str, count: usize) -> String {
    let shown = match count {
        0 => format!(in alloc; "'{word}' takes no operands"),
        1 => format!(in alloc; "'{word}' takes 1 operand"),
        _ => format!(in alloc; "'{word}' takes {count} operands"),
    };
    shown.expect(rt, word)
}

fn word_takes(rt: &impl Abort, alloc: Global, row: &str) {
    let (digits, word) = row.split_once(' ').expect(rt, row);
    let count = digits.parse::<usize>().ok().expect(rt, row);
    let want = takes(rt, alloc, word, count);
    let text = applied(rt, alloc, word, count);
    assert!(rt;
        parse_error(alloc, Kind::Lhs, text.as_str()).is_none(),
        "{row}"
    );
    let text = applied(rt, alloc, word, count.saturating_add(1));
    is_hinted(rt, alloc, Kind::Lhs, text.as_str(), want.as_str());
    if count > 0 {
        let text = applied(rt, alloc, word, count - 1);
        is_hinted(rt, alloc, Kind::Lhs, text.as_str(), want.as_str());
    }
}

#[test]
fn each_word_takes_its_operands(rt: HostRuntime) {
    for row in WORDS.lines() {
        word_takes(&rt, rt.alloc(), row);
    }
}

// Instructions of LLVM and of other languages that are near ones of the grammar, and have another meaning.
const OTHERS: &str = "nor nand xnor orn andn eqv eqz eor rol ror rotl rotr \
    fadd fsub fmul fdiv frem fneg fptrunc fcmp call load store ret br set mov swap \
    addc adc sbc subc addw subw mulw mulh sltu divu remu lsh ash asl abs bic min max \
    smul.sat umul.sat sshl.sat ushl.sat insertvalue extractelement addsub";

#[test]
fn no_other_instruction_is_suggested(rt: HostRuntime) {
    let alloc = rt.alloc();
    for word in OTHERS.split(' ') {
        let text = applied(&rt, alloc, word, 2);
        is_hinted(&rt, alloc, Kind::Lhs, text.as_str(), "");
    }
}

// A left-hand side of the word with a letter after it.
fn misspelt_word_is_found(rt: &impl Abort, alloc: Global, row: &str) {
    let (_digits, word) = row.split_once(' ').expect(rt, row);
    let text = format!(in alloc; "%x = {word}_ 1, 1\ninfer %x\n").expect(rt, row);
    let want = format!(in alloc; "did you mean '{word}'?").expect(rt, row);
    is_hinted(rt, alloc, Kind::Lhs, text.as_str(), want.as_str());
}

#[test]
fn each_misspelt_word_is_found(rt: HostRuntime) {
    for row in WORDS.lines() {
        misspelt_word_is_found(&rt, rt.alloc(), row);
    }
}
