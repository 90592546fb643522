//! Laws of the definitions that the contracts of this crate cite. No function here does anything.
//!
//! The ghost members of a type's `Parse` say what its `parse` promises, and the ghost members of its `Peek` say what its
//! `peek` returns. The laws of the types say what these members are.

ghost use Rattle.std.specs.Prelude.{◌≡◌, ◌↔◌, ℕ, true, List, [], Option, map, option_map, codes};
ghost use Rattle.std.specs.List.{AllByRecursion};
ghost use Rattle.souper_graph.specs.Unneeded.{EachClosed, AllNeeded};
ghost use Rattle.souper_graph.specs.Instructions.{word_of};
ghost use Rattle.souper_graph.specs.Values.{PlainAttribute, PlainRootAttribute, PlainPhi, PlainRhs, block, phi, instruction, PlainAssignment, PlainStatement, assigned, condition, block_condition, PlainInfer, PlainCand, Item};
ghost use Rattle.souper_graph.specs.View.{view_attribute, view_root_attribute, view_phi, view_rhs, view_assignment, view_statement, view_infer, view_cand, view_left_hand_side, view_right_hand_side, view_replacement};
ghost use Rattle.souper_graph.specs.Text.{text_of, texts_of};
ghost use Rattle.souper_graph.specs.Sameness.{renumbered, SameGraph};
ghost use Rattle.souper_graph.specs.Renaming.{SameUpToNames, IsRenamed};
ghost use Rattle.souper_graph.specs.ItemText.{IsWellFormedOf, AreWellFormed};
ghost use Rattle.souper_graph.specs.Syntax.Tokens.{Lexeme, ident, open_paren};
ghost use Rattle.souper_graph.specs.Syntax.TokenLaws.{OneReading, IsWhiteSpaceListed, EachInText, GapEndsToken, FrontsJoin};
ghost use Rattle.souper_graph.specs.Syntax.Spelling.{Scope, OneList, ItemType, left_hand_side, right_hand_side, replacement, TextSpells, type as type_form, operand, rhs, attribute, root_attribute, constant, statement, infer, cand, item_after};
ghost use Rattle.souper_ir.specs.Continuation.{constant_continues, operand_continues, phi_continues, instruction_continues, rhs_continues, assignment_continues, pc_continues, block_pc_continues, statement_continues, infer_continues, cand_continues, item_continues};
ghost use Rattle.souper_ir.specs.Joining.{TokensJoin, TokensPart, ItemsJoin};
ghost use Rattle.souper_ir.specs.Grammar.{Members, ListGoesOn, OptionSpells, OptionGoesOn};
ghost use Rattle.souper_ir.specs.NodeReadings.{is_name, is_int, is_mark, is_word, starts_statement};

use crate::parse::{Parse, Peek};
pub use souper_errors::laws::law_of_places;
use souper_graph::ast::{
    Assignment, AssignmentRhs, Attribute, Block, BlockPc, Cand, Constant, Infer, Instruction,
    LeftHandSide, Operand, Pc, Phi, Replacement, RightHandSide, RootAttribute, Statement, Type,
};

/// A text has one list of tokens at most, white space is 25 characters, and each token is a slice of its text.
pub fn law_of_tokens()
    ensures one_reading { OneReading }
    ensures white_space { IsWhiteSpaceListed }
    ensures in_text { EachInText }
    ensures gaps { GapEndsToken }
    ensures fronts { FrontsJoin }
{}

/// A text spells one list of items of a type at most.
pub fn law_of_items()
    ensures { OneList }
{}

/// Lines, and a text after them, have the tokens of both and no others, and spell the items of both: files that end in a
/// newline can be put one after the other.
pub fn law_of_joined_texts()
    ensures tokens { TokensJoin }
    ensures parts { TokensPart }
    ensures items { ItemsJoin }
{}

/// In the items that a text spells, every statement, needed or not, is closed, and all names are distinct.
pub fn law_of_spelled_items()
    ensures { (k : ItemType) (bs : List ℕ) (items : List Item) → TextSpells k bs items → AllByRecursion EachClosed items }
{}

/// The canonical texts of well-formed items of one type spell the renumbered items and nothing else, and two such items
/// have the same canonical text if and only if they are the same graph.
///
/// What `renamed` returns for two such items has the same text if and only if they are the same graph up to names
/// (`renamed`).
///
/// A renumbered item has the needed statements alone, in printed order. So in what a canonical text spells each name is
/// defined once and before its first use, and every statement is needed (`defined`). What else holds of canonical texts
/// is said by the law of this name in `souper_graph`.
pub fn law_of_canonical_texts()
    ensures exact { (k : ItemType) (items others : List Item) → AreWellFormed k items → TextSpells k (texts_of items) others ↔ (others ≡ map renumbered items) }
    ensures defined { (k : ItemType) (items others : List Item) → AreWellFormed k items → TextSpells k (texts_of items) others → AllByRecursion (λ b. EachClosed b × AllNeeded b) others }
    ensures one_text { (k : ItemType) (a b : Item) → IsWellFormedOf k a → IsWellFormedOf k b → (text_of a ≡ text_of b) ↔ SameGraph a b }
    ensures renamed { (k : ItemType) (a b x y : Item) → IsWellFormedOf k a → IsWellFormedOf k b → IsRenamed a x → IsRenamed b y → (text_of x ≡ text_of y) ↔ SameUpToNames a b }
{}

/// What parsing a type promises.
pub fn law_of_type()
    ensures view { (v : _) → ⟦<Type as Parse>⟧.view v ≡ v }
    ensures spells { (s : Scope) (v : _) (ts : List Lexeme) → ⟦<Type as Parse>⟧.spells s v ts ↔ type_form v ts }
    ensures continues { (v : _) (t : Lexeme) → ⟦<Type as Parse>⟧.continues v t ↔ ⊥ }
    ensures leaves { (s : Scope) → ⟦<Type as Parse>⟧.leaves s ≡ s }
{}

/// What parsing a constant promises.
pub fn law_of_constant()
    ensures view { (v : _) → ⟦<Constant as Parse>⟧.view v ≡ v }
    ensures spells { (s : Scope) (v : _) (ts : List Lexeme) → ⟦<Constant as Parse>⟧.spells s v ts ↔ constant v ts }
    ensures continues { (v : _) (t : Lexeme) → ⟦<Constant as Parse>⟧.continues v t ↔ constant_continues v t }
    ensures leaves { (s : Scope) → ⟦<Constant as Parse>⟧.leaves s ≡ s }
    ensures starts { (t : Lexeme) → ⟦<Constant as Peek>⟧.starts t ≡ is_int t }
{}

/// What parsing an operand promises.
pub fn law_of_operand()
    ensures view { (v : _) → ⟦<Operand as Parse>⟧.view v ≡ v }
    ensures spells { (s : Scope) (v : _) (ts : List Lexeme) → ⟦<Operand as Parse>⟧.spells s v ts ↔ operand s v ts }
    ensures continues { (v : _) (t : Lexeme) → ⟦<Operand as Parse>⟧.continues v t ↔ operand_continues v t }
    ensures leaves { (s : Scope) → ⟦<Operand as Parse>⟧.leaves s ≡ s }
{}

/// What parsing a block promises.
pub fn law_of_block()
    ensures view { (v : _) → ⟦<Block as Parse>⟧.view v ≡ v }
    ensures spells { (s : Scope) (v : _) (ts : List Lexeme) → ⟦<Block as Parse>⟧.spells s v ts ↔ rhs s (block v) ts }
    ensures continues { (v : _) (t : Lexeme) → ⟦<Block as Parse>⟧.continues v t ↔ ⊥ }
    ensures leaves { (s : Scope) → ⟦<Block as Parse>⟧.leaves s ≡ s }
    ensures starts { (t : Lexeme) → ⟦<Block as Peek>⟧.starts t ≡ is_word (codes "block") t }
{}

/// What parsing a phi promises.
pub fn law_of_phi()
    ensures view { (v : _) → ⟦<Phi as Parse>⟧.view v ≡ view_phi v }
    ensures spells { (s : Scope) (v : PlainPhi) (ts : List Lexeme) → ⟦<Phi as Parse>⟧.spells s v ts ↔ rhs s (phi v) ts }
    ensures continues { (v : PlainPhi) (t : Lexeme) → ⟦<Phi as Parse>⟧.continues v t ↔ phi_continues v t }
    ensures leaves { (s : Scope) → ⟦<Phi as Parse>⟧.leaves s ≡ s }
    ensures starts { (t : Lexeme) → ⟦<Phi as Peek>⟧.starts t ≡ is_word (codes "phi") t }
{}

/// What parsing an instruction promises.
pub fn law_of_instruction()
    ensures view { (v : _) → ⟦<Instruction as Parse>⟧.view v ≡ v }
    ensures spells { (s : Scope) (v : _) (ts : List Lexeme) → ⟦<Instruction as Parse>⟧.spells s v ts ↔ rhs s (instruction v) ts }
    ensures continues { (v : _) (t : Lexeme) → ⟦<Instruction as Parse>⟧.continues v t ↔ instruction_continues v t }
    ensures leaves { (s : Scope) → ⟦<Instruction as Parse>⟧.leaves s ≡ s }
    ensures starts { (t : Lexeme) → (⟦<Instruction as Peek>⟧.starts t ≡ true) ↔ ((i : _) × (t ≡ ident (word_of i))) }
{}

/// What parsing a right side promises.
pub fn law_of_rhs()
    ensures view { (v : _) → ⟦<AssignmentRhs as Parse>⟧.view v ≡ view_rhs v }
    ensures spells { (s : Scope) (v : PlainRhs) (ts : List Lexeme) → ⟦<AssignmentRhs as Parse>⟧.spells s v ts ↔ rhs s v ts }
    ensures continues { (v : PlainRhs) (t : Lexeme) → ⟦<AssignmentRhs as Parse>⟧.continues v t ↔ rhs_continues v t }
    ensures leaves { (s : Scope) → ⟦<AssignmentRhs as Parse>⟧.leaves s ≡ s }
{}

/// What parsing an attribute promises.
pub fn law_of_attribute()
    ensures view { (v : _) → ⟦<Attribute as Parse>⟧.view v ≡ view_attribute v }
    ensures spells { (s : Scope) (v : PlainAttribute) (ts : List Lexeme) → ⟦<Attribute as Parse>⟧.spells s v ts ↔ attribute v ts }
    ensures continues { (v : PlainAttribute) (t : Lexeme) → ⟦<Attribute as Parse>⟧.continues v t ↔ ⊥ }
    ensures leaves { (s : Scope) → ⟦<Attribute as Parse>⟧.leaves s ≡ s }
    ensures starts { (t : Lexeme) → ⟦<Attribute as Peek>⟧.starts t ≡ is_mark open_paren t }
{}

/// What parsing an attribute of a root promises.
pub fn law_of_root_attribute()
    ensures view { (v : _) → ⟦<RootAttribute as Parse>⟧.view v ≡ view_root_attribute v }
    ensures spells { (s : Scope) (v : PlainRootAttribute) (ts : List Lexeme) → ⟦<RootAttribute as Parse>⟧.spells s v ts ↔ root_attribute v ts }
    ensures continues { (v : PlainRootAttribute) (t : Lexeme) → ⟦<RootAttribute as Parse>⟧.continues v t ↔ ⊥ }
    ensures leaves { (s : Scope) → ⟦<RootAttribute as Parse>⟧.leaves s ≡ s }
    ensures starts { (t : Lexeme) → ⟦<RootAttribute as Peek>⟧.starts t ≡ is_mark open_paren t }
{}

/// What parsing an assignment promises.
pub fn law_of_assignment()
    ensures view { (v : _) → ⟦<Assignment as Parse>⟧.view v ≡ view_assignment v }
    ensures spells { (s : Scope) (v : PlainAssignment) (ts : List Lexeme) → ⟦<Assignment as Parse>⟧.spells s v ts ↔ statement s (assigned v) ts }
    ensures continues { (v : PlainAssignment) (t : Lexeme) → ⟦<Assignment as Parse>⟧.continues v t ↔ assignment_continues v t }
    ensures leaves { (s : Scope) → ⟦<Assignment as Parse>⟧.leaves s ≡ s }
    ensures starts { (t : Lexeme) → ⟦<Assignment as Peek>⟧.starts t ≡ is_name t }
{}

/// What parsing a path condition promises.
pub fn law_of_pc()
    ensures view { (v : _) → ⟦<Pc as Parse>⟧.view v ≡ v }
    ensures spells { (s : Scope) (v : _) (ts : List Lexeme) → ⟦<Pc as Parse>⟧.spells s v ts ↔ statement s (condition v) ts }
    ensures continues { (v : _) (t : Lexeme) → ⟦<Pc as Parse>⟧.continues v t ↔ pc_continues v t }
    ensures leaves { (s : Scope) → ⟦<Pc as Parse>⟧.leaves s ≡ s }
    ensures starts { (t : Lexeme) → ⟦<Pc as Peek>⟧.starts t ≡ is_word (codes "pc") t }
{}

/// What parsing a path condition on one predecessor of a block promises.
pub fn law_of_block_pc()
    ensures view { (v : _) → ⟦<BlockPc as Parse>⟧.view v ≡ v }
    ensures spells { (s : Scope) (v : _) (ts : List Lexeme) → ⟦<BlockPc as Parse>⟧.spells s v ts ↔ statement s (block_condition v) ts }
    ensures continues { (v : _) (t : Lexeme) → ⟦<BlockPc as Parse>⟧.continues v t ↔ block_pc_continues v t }
    ensures leaves { (s : Scope) → ⟦<BlockPc as Parse>⟧.leaves s ≡ s }
    ensures starts { (t : Lexeme) → ⟦<BlockPc as Peek>⟧.starts t ≡ is_word (codes "blockpc") t }
{}

/// What parsing a statement promises.
pub fn law_of_statement()
    ensures view { (v : _) → ⟦<Statement as Parse>⟧.view v ≡ view_statement v }
    ensures spells { (s : Scope) (v : PlainStatement) (ts : List Lexeme) → ⟦<Statement as Parse>⟧.spells s v ts ↔ statement s v ts }
    ensures continues { (v : PlainStatement) (t : Lexeme) → ⟦<Statement as Parse>⟧.continues v t ↔ statement_continues v t }
    ensures leaves { (s : Scope) → ⟦<Statement as Parse>⟧.leaves s ≡ s }
    ensures starts { (t : Lexeme) → ⟦<Statement as Peek>⟧.starts t ≡ starts_statement t }
{}

/// What parsing an infer line promises.
pub fn law_of_infer()
    ensures view { (v : _) → ⟦<Infer as Parse>⟧.view v ≡ view_infer v }
    ensures spells { (s : Scope) (v : PlainInfer) (ts : List Lexeme) → ⟦<Infer as Parse>⟧.spells s v ts ↔ infer s v ts }
    ensures continues { (v : PlainInfer) (t : Lexeme) → ⟦<Infer as Parse>⟧.continues v t ↔ infer_continues v t }
    ensures leaves { (s : Scope) → ⟦<Infer as Parse>⟧.leaves s ≡ s }
    ensures starts { (t : Lexeme) → ⟦<Infer as Peek>⟧.starts t ≡ is_word (codes "infer") t }
{}

/// What parsing a cand line promises.
pub fn law_of_cand()
    ensures view { (v : _) → ⟦<Cand as Parse>⟧.view v ≡ view_cand v }
    ensures spells { (s : Scope) (v : PlainCand) (ts : List Lexeme) → ⟦<Cand as Parse>⟧.spells s v ts ↔ cand s v ts }
    ensures continues { (v : PlainCand) (t : Lexeme) → ⟦<Cand as Parse>⟧.continues v t ↔ cand_continues v t }
    ensures leaves { (s : Scope) → ⟦<Cand as Parse>⟧.leaves s ≡ s }
{}

/// What parsing a left-hand side promises.
pub fn law_of_left_hand_side()
    ensures view { (v : _) → ⟦<LeftHandSide as Parse>⟧.view v ≡ view_left_hand_side v }
    ensures spells { (s : Scope) (v : Item) (ts : List Lexeme) → ⟦<LeftHandSide as Parse>⟧.spells s v ts ↔ item_after left_hand_side s v ts }
    ensures continues { (v : Item) (t : Lexeme) → ⟦<LeftHandSide as Parse>⟧.continues v t ↔ item_continues v t }
    ensures leaves { (s : Scope) → ⟦<LeftHandSide as Parse>⟧.leaves s ≡ [] }
{}

/// What parsing a right-hand side promises.
pub fn law_of_right_hand_side()
    ensures view { (v : _) → ⟦<RightHandSide as Parse>⟧.view v ≡ view_right_hand_side v }
    ensures spells { (s : Scope) (v : Item) (ts : List Lexeme) → ⟦<RightHandSide as Parse>⟧.spells s v ts ↔ item_after right_hand_side s v ts }
    ensures continues { (v : Item) (t : Lexeme) → ⟦<RightHandSide as Parse>⟧.continues v t ↔ item_continues v t }
    ensures leaves { (s : Scope) → ⟦<RightHandSide as Parse>⟧.leaves s ≡ [] }
{}

/// What parsing a replacement promises.
pub fn law_of_replacement()
    ensures view { (v : _) → ⟦<Replacement as Parse>⟧.view v ≡ view_replacement v }
    ensures spells { (s : Scope) (v : Item) (ts : List Lexeme) → ⟦<Replacement as Parse>⟧.spells s v ts ↔ item_after replacement s v ts }
    ensures continues { (v : Item) (t : Lexeme) → ⟦<Replacement as Parse>⟧.continues v t ↔ item_continues v t }
    ensures leaves { (s : Scope) → ⟦<Replacement as Parse>⟧.leaves s ≡ [] }
{}

/// What parsing an optional value promises.
pub fn law_of_option<P: Peek>()
    ensures view { (o : _) → ⟦<Option<P> as Parse>⟧.view o ≡ option_map P.view o }
    ensures spells { (s : Scope) (o : Option P.Plain) (ts : List Lexeme) → ⟦<Option<P> as Parse>⟧.spells s o ts ↔ OptionSpells (P.spells s) o ts }
    ensures continues { (o : Option P.Plain) (t : Lexeme) → ⟦<Option<P> as Parse>⟧.continues o t ↔ OptionGoesOn P.continues P.starts o t }
    ensures leaves { (s : Scope) → ⟦<Option<P> as Parse>⟧.leaves s ≡ s }
{}

/// What parsing a sequence of values promises.
pub fn law_of_vec<P: Peek + Drop>()
    ensures view { (v : _) → ⟦<Vec<P> as Parse>⟧.view v ≡ map P.view v.items }
    ensures spells { (s : Scope) (vs : List P.Plain) (ts : List Lexeme) → ⟦<Vec<P> as Parse>⟧.spells s vs ts ↔ Members (P.spells s) P.continues vs ts }
    ensures continues { (vs : List P.Plain) (t : Lexeme) → ⟦<Vec<P> as Parse>⟧.continues vs t ↔ ListGoesOn P.continues P.starts vs t }
    ensures leaves { (s : Scope) → ⟦<Vec<P> as Parse>⟧.leaves s ≡ s }
{}
