//! The words of the grammar, and how many operands they take.

use souper_errors::Kind;

// The words of right sides, by the number of their operands.
const NO_OPERAND: &str = "hole var reservedinst reservedconst";

const ONE_OPERAND: &str = "zext sext trunc ctpop bswap bitreverse cttz ctlz freeze";

const TWO_OPERANDS: &str =
    "add addnsw addnuw addnw sub subnsw subnuw subnw mul mulnsw mulnuw mulnw \
    udiv sdiv udivexact sdivexact urem srem and or xor shl shlnsw shlnuw shlnw lshr lshrexact ashr ashrexact \
    eq ne ult slt ule sle sadd.with.overflow uadd.with.overflow ssub.with.overflow usub.with.overflow \
    smul.with.overflow umul.with.overflow sadd.sat uadd.sat ssub.sat usub.sat extractvalue";

const THREE_OPERANDS: &str = "select fshl fshr";

// Comparisons of LLVM for which others stand.
const COMPARISONS: &str = "icmp ugt uge sgt sge";

/// The words that a right side begins with, in lists, and comparisons of LLVM.
pub(crate) const RIGHT_SIDES: [&str; 6] = [
    "block phi",
    NO_OPERAND,
    ONE_OPERAND,
    TWO_OPERANDS,
    THREE_OPERANDS,
    COMPARISONS,
];

/// The words of conversions, which LLVM writes with two types.
pub(crate) const CONVERSIONS: &str = "zext sext trunc";

/// The words of other instructions that LLVM writes before a type that is not the result's.
pub(crate) const OTHER_TYPES: &str = "eq ne ult slt ule sle select extractvalue \
    sadd.with.overflow uadd.with.overflow ssub.with.overflow usub.with.overflow smul.with.overflow umul.with.overflow";

/// Flags of LLVM that no instruction has.
pub(crate) const FLAGS: &str =
    "nneg disjoint samesign fast nnan ninf nsz arcp contract afn reassoc";

/// Values of other languages that no constant has.
pub(crate) const NO_VALUES: &str = "null nullptr nil none nan inf infinity zeroinitializer";

/// The words that begin a statement without a name.
pub(crate) const CONDITIONS: &str = "pc blockpc";

/// The attributes of a definition.
pub(crate) const ATTRIBUTES: &str =
    "knownBits powerOfTwo negative nonNegative nonZero hasExternalUses signBits range";

/// The attributes of the root in a last line.
pub(crate) const ROOT_ATTRIBUTES: &str = "demandedBits harvestedFromUse";

/// Whether the word is in the list.
pub(crate) fn has_word(words: &str, word: &str) -> bool {
    words.split(' ').any(|other| other == word)
}

/// Whether a right side begins with the word.
pub(crate) fn is_right_side(word: &str) -> bool {
    word == "phi" || operand_count(word).is_some() && !is_beginning(word)
}

/// How many operands the word takes, if that is the same everywhere.
pub(crate) fn operand_count(word: &str) -> Option<usize> {
    match word {
        "infer" | "result" | "block" => Some(1),
        "pc" | "cand" => Some(2),
        "blockpc" => Some(4),
        _ if has_word(TWO_OPERANDS, word) => Some(2),
        _ if has_word(ONE_OPERAND, word) => Some(1),
        _ if has_word(THREE_OPERANDS, word) => Some(3),
        _ if has_word(NO_OPERAND, word) => Some(0),
        _ => None,
    }
}

/// Whether the word begins a statement or a last line.
pub(crate) fn is_beginning(word: &str) -> bool {
    matches!(word, "pc" | "blockpc" | "infer" | "result" | "cand")
}

/// Whether the word begins the line that an item of the kind ends with.
pub(crate) fn ends_item(kind: Kind, word: &str) -> bool {
    match kind {
        Kind::Lhs => word == "infer",
        Kind::Rhs => word == "result",
        Kind::Rep => word == "result" || word == "cand",
    }
}
