//! A byte code of items of Souper IR, for programs that are not in Rattle: they read and write graphs without a parser.
//!
//! The code is little-endian, and nothing in it is aligned. A *size* is 8 bytes, a *number* 16 bytes in two's complement. A list is
//! its length, a size, and its elements. A position is the index of a statement of the item, from 0, as a size.
//!
//! | What | Code |
//! |---|---|
//! | type | `0` for none, or `1` and the width in 2 bytes |
//! | operand | `0` and a position, or `1`, a number and a type |
//! | instruction | a byte, its index among the variants of `souper_graph::ast::Instruction`, from `0` (`add`) to `58` (`freeze`), and the list of operands |
//! | right side | `0` var, `1` block and its number of predecessors in 4 bytes, `2` phi, the block's position and the list of operands, `3` reservedinst, `4` reservedconst, `5` and an instruction |
//! | attribute | `0` knownBits and the list of bits, `1` powerOfTwo, `2` negative, `3` nonNegative, `4` nonZero, `5` hasExternalUses, `6` signBits and a byte, `7` range and two numbers |
//! | root attribute | `0` demandedBits and the list of bits, `1` harvestedFromUse |
//! | bit | `0`, `1`, or `2` for one that is not known; the bits of a list are in the order of the text |
//! | statement | `0`, the name as a list of bytes, a type, a right side and the list of attributes; `1` pc and two operands; `2` blockpc, the block's position, the predecessor's number in 4 bytes and two operands |
//! | last lines | `0` infer: the root's position and the list of root attributes; `1` result: an operand; `2` infer and result, one after the other; `3` cand: two operands and the list of root attributes |
//! | item | the list of statements, and the last lines |
//!
//! A list of items is its items one after the other, without a length. A code belongs to one list of items of a type, and no code of
//! an item begins the code of another.
//!
//! [`encode::Encode`] gives the code of an item, [`decode::Decode`] the item that a code begins with, [`decode::decode_items`] the
//! items of a code, [`write::write_items`] their canonical texts, and [`flaw::first_flaw`] why an item is not well formed. Reading takes time and memory in proportion to the code,
//! whatever lengths stand in it.
#![tactic(auto)]

pub mod decode;
pub mod encode;
pub mod flaw;
pub mod write;
