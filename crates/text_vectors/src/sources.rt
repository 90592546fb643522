//! The words of the instructions, and makers of texts.
use std::alloc::Global;
use std::process::Abort;

/// The words of the instructions, each with its number of operands on a line.
pub const WORDS: &str = "\
add 2
addnsw 2
addnuw 2
addnw 2
sub 2
subnsw 2
subnuw 2
subnw 2
mul 2
mulnsw 2
mulnuw 2
mulnw 2
udiv 2
sdiv 2
udivexact 2
sdivexact 2
urem 2
srem 2
and 2
or 2
xor 2
shl 2
shlnsw 2
shlnuw 2
shlnw 2
lshr 2
lshrexact 2
ashr 2
ashrexact 2
select 3
zext 1
sext 1
trunc 1
eq 2
ne 2
ult 2
slt 2
ule 2
sle 2
ctpop 1
bswap 1
bitreverse 1
cttz 1
ctlz 1
fshl 3
fshr 3
sadd.with.overflow 2
uadd.with.overflow 2
ssub.with.overflow 2
usub.with.overflow 2
smul.with.overflow 2
umul.with.overflow 2
sadd.sat 2
uadd.sat 2
ssub.sat 2
usub.sat 2
extractvalue 2
hole 0
freeze 1";

/// The word and the number of a line of [`WORDS`].
pub fn word_and_count(line: &str) -> Option<(&str, usize)> {
    let (word, count) = line.split_once(' ')?;
    Some((word, count.parse::<usize>().ok()?))
}

/// `count` operands, with commas between them.
fn ones(rt: &impl Abort, alloc: Global, count: usize) -> String {
    let mut operands = String::new(alloc);
    for index in 0..count {
        let operand = if index == 0 { " 1" } else { ", 1" };
        operands.push_str(operand).expect(rt, "memory");
    }
    operands
}

/// A value of the word with `count` operands, each of which is 1, and the line that infers it.
pub fn applied(rt: &impl Abort, alloc: Global, word: &str, count: usize) -> String {
    let operands = ones(rt, alloc, count);
    format!(in alloc; "%x = {word}{operands}\ninfer %x").expect(rt, "memory")
}

// Appends the line.
fn push(rt: &impl Abort, text: &mut String, line: String) {
    text.push_str(line.as_str()).expect(rt, "memory");
}

/// The text of a variable, and of a chain of doublings, each of the one before.
pub fn chain(rt: &impl Abort, alloc: Global, doublings: u32) -> String {
    let mut text = String::new(alloc);
    text.push_str("%0 = var\n").expect(rt, "memory");
    for k in 1..=doublings {
        let before = k - 1;
        let line = format!(in alloc; "%{k} = add %{before}, %{before}\n").expect(rt, "memory");
        push(rt, &mut text, line);
    }
    let line = format!(in alloc; "infer %{doublings}\n").expect(rt, "memory");
    push(rt, &mut text, line);
    text
}

/// Definitions whose names start and end with these words: a block and its phi, and `count` sums of the value before and of one halfway back.
pub fn sums(rt: &impl Abort, alloc: Global, count: u32, words: (&str, &str)) -> String {
    let (start, end) = words;
    let mut text = String::new(alloc);
    let line = format!(in alloc;
        "%{start}b{end} = block 2\n%{start}x0{end} = phi %{start}b{end}, 0, 1\n"
    );
    push(rt, &mut text, line.expect(rt, "memory"));
    for k in 1..=count {
        let (before, half) = (k - 1, k / 2);
        let line = format!(in alloc;
            "%{start}x{k}{end} = add %{start}x{before}{end}, %{start}x{half}{end}\n"
        );
        push(rt, &mut text, line.expect(rt, "memory"));
    }
    text
}

/// A thousand definitions, from `%0` to `%999`, a line each.
pub fn thousand(rt: &impl Abort, alloc: Global) -> String {
    let mut lines = String::new(alloc);
    for k in 0..1000u32 {
        let line = format!(in alloc; "%{k} = var\n").expect(rt, "memory");
        push(rt, &mut lines, line);
    }
    lines
}
