//! The words that texts are made of.
use std::alloc::{AllocError, Global};

/// Instructions with two operands.
pub(crate) const TWO: [&str; 46] = [
    "add",
    "addnsw",
    "addnuw",
    "addnw",
    "sub",
    "subnsw",
    "subnuw",
    "subnw",
    "mul",
    "mulnsw",
    "mulnuw",
    "mulnw",
    "udiv",
    "sdiv",
    "udivexact",
    "sdivexact",
    "urem",
    "srem",
    "and",
    "or",
    "xor",
    "shl",
    "shlnsw",
    "shlnuw",
    "shlnw",
    "lshr",
    "lshrexact",
    "ashr",
    "ashrexact",
    "eq",
    "ne",
    "ult",
    "slt",
    "ule",
    "sle",
    "sadd.with.overflow",
    "uadd.with.overflow",
    "ssub.with.overflow",
    "usub.with.overflow",
    "smul.with.overflow",
    "umul.with.overflow",
    "sadd.sat",
    "uadd.sat",
    "ssub.sat",
    "usub.sat",
    "extractvalue",
];

/// Instructions with one operand.
pub(crate) const ONE: [&str; 9] = [
    "zext",
    "sext",
    "trunc",
    "ctpop",
    "bswap",
    "bitreverse",
    "cttz",
    "ctlz",
    "freeze",
];

/// Instructions with three operands.
pub(crate) const THREE: [&str; 3] = ["select", "fshl", "fshr"];

/// Right sides without an operand.
pub(crate) const LEAVES: [&str; 8] = [
    "var",
    "var",
    "var",
    "var",
    "var",
    "var",
    "reservedconst",
    "reservedinst",
];

pub(crate) const CONSTANTS: [&str; 16] = [
    "0",
    "1",
    "-1",
    "2",
    "3",
    "7",
    "255",
    "-128",
    "65535",
    "2147483647",
    "-2147483648",
    "6148914691236517205",
    "1",
    "0",
    "31",
    "8192",
];

pub(crate) const TYPES: [&str; 8] = [
    ":i1", ":i8", ":i16", ":i32", ":i32", ":i32", ":i64", ":i128",
];

pub(crate) const ATTRIBUTES: [&str; 16] = [
    " (knownBits=0010xx1x)",
    " (knownBits=xxxxxxxxxxxxxxxx0000000000000000)",
    " (knownBits=1)",
    " (powerOfTwo)",
    " (negative)",
    " (nonNegative)",
    " (nonZero)",
    " (hasExternalUses)",
    " (signBits=5)",
    " (signBits=17)",
    " (range=[-7,12))",
    " (range=[0,255))",
    " (nonZero) (nonNegative)",
    " (knownBits=000000000000000000000000xxxxxxxx)",
    " (range=[1,4096))",
    " (powerOfTwo) (hasExternalUses)",
];

pub(crate) const ROOT_ATTRIBUTES: [&str; 4] = [
    "",
    "",
    " (harvestedFromUse)",
    " (demandedBits=00000000111111111111111100000000)",
];

/// White space between tokens, as few writers make it.
pub(crate) const SPACES: [&str; 4] = ["  ", "\t", " \t", "   "];

/// Lines that refuse the item that they are put into.
pub(crate) const REFUSED: [&str; 4] = [
    "%q = add %undefined, 1\n",
    "%q = addd 1, 2\n",
    "pc 1 2 3 )\n",
    "%q:i32 = block\n",
];

const PARTS: [&str; 16] = [
    "arg", "tmp", "foo", "left", "right", "sum", "val", "ptr", "len", "idx", "size", "base", "off",
    "cmp", "cond", "res",
];

/// Names of values, by number.
#[derive(Drop)]
pub(crate) struct Names {
    list: Vec<String>,
}

impl Names {
    /// `%0`, `%1`, and so on.
    pub(crate) fn numbers(alloc: Global, count: usize) -> Result<Names, AllocError> {
        let mut list = Vec::new(alloc);
        for number in 0..count {
            list.push(format!(in alloc; "%{number}")?)?;
        }
        Ok(Names { list })
    }

    /// Names of words, as `%sum_tmp`.
    pub(crate) fn words(alloc: Global, count: usize) -> Result<Names, AllocError> {
        let mut list = Vec::new(alloc);
        for number in 0..count {
            let mut name = String::from_str(alloc, "%")?;
            name.push_str(PARTS[number % 16])?;
            let mut rest = 5 * (number as u64 % 65536) + 3;
            for _ in 0..5 {
                name.push_str("_")?;
                name.push_str(PARTS[(rest % 16) as usize])?;
                rest /= 16;
                if rest == 0 {
                    break;
                }
            }
            list.push(name)?;
        }
        Ok(Names { list })
    }

    /// Names of some 2,000 bytes that differ at their ends, as symbols of C++ do.
    pub(crate) fn symbols(alloc: Global, count: usize) -> Result<Names, AllocError> {
        let mut prefix = String::from_str(alloc, "%_ZN4llvm")?;
        for _ in 0..60 {
            prefix.push_str("9transformINS_8functionIRKSt6vec")?;
        }
        let mut list = Vec::new(alloc);
        for number in 0..count {
            list.push(format!(in alloc; "{prefix}E{number}")?)?;
        }
        Ok(Names { list })
    }

    /// The name of the number.
    pub(crate) fn get(&self, number: usize) -> &str {
        match self.list.get(number) {
            Some(name) => name.as_str(),
            None => "%none",
        }
    }
}

/// The names of small items: numbers, and words.
#[derive(Drop)]
pub(crate) struct Lists {
    pub(crate) numbers: Names,
    words: Names,
}

impl Lists {
    pub(crate) fn new(alloc: Global) -> Result<Lists, AllocError> {
        Ok(Lists {
            numbers: Names::numbers(alloc, 64)?,
            words: Names::words(alloc, 64)?,
        })
    }

    /// The words, or the numbers.
    pub(crate) fn pick(&self, words: bool) -> &Names {
        if words { &self.words } else { &self.numbers }
    }
}
