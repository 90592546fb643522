//! What can be parsed, and what can be recognized by the next token.
ghost use Rattle.std.specs.Prelude.{◌≡◌, List, map, ◌++◌, Option, option_map, IfOk, IfErr, Bool, None};
ghost use Rattle.souper_graph.specs.Syntax.Tokens.{Lexeme};
ghost use Rattle.souper_graph.specs.Syntax.Spelling.{kinds, Scope};
ghost use Rattle.souper_ir.specs.Reading.{Gives, IfRefused, cause_of};
ghost use Rattle.souper_ir.specs.Laws.Unique.{option_alone, list_alone};
ghost use Rattle.souper_ir.specs.Grammar.{Free, Starts, Took, Refusal, Stuck, peek_at, Members, ListGoesOn, OptionSpells, OptionGoesOn};

use crate::parse::parser::{Parser, Result};

/// A value that can be parsed.
///
/// An implementor says as what plain data its values are seen, and states the grammar of that data: the tokens that
/// spell a value in a scope, the tokens that continue it after its spelling, and the scope that it leaves. It owes that
/// - `parse` takes a spelling of the value that it returns, after which the next token does not continue that value;
/// - `parse` rejects the text only if no prefix of the remaining tokens is such a spelling of any value, except one
///   right before a lexical fault; it may report out of memory anywhere;
/// - of any list of tokens at most one prefix is such a spelling, and of one value alone.
pub trait Parse: Sized {
    // A value as plain data.
    ghost Plain: { Type 0 };

    ghost view: { Self → Plain };

    // The tokens spell the value in the scope.
    ghost spells: { Scope → Plain → List Lexeme → Type 0 };

    // A token after its spelling continues the value.
    ghost continues: { Plain → Lexeme → Type 0 };

    // The scope that a value leaves.
    ghost leaves: { Scope → Scope } = { λ s. s };

    /// Takes the tokens of a value, the longest that there is.
    ///
    /// On an error the parser stays failed.
    fn parse<'a>(parser: &mut Parser<'a>) -> Result<Self>
        ensures ok { IfOk result (λ v. Took spells continues leaves (view v) parser.old parser.new) }
        ensures err { IfErr result (λ e. Refusal spells continues e parser.old parser.new) };

    // At most one prefix of a list of tokens spells a value so that what follows does not continue it, and one value
    // alone.
    ghost alone: { (s : Scope) (v w : Plain) (a b c d : List Lexeme) → a ++ c ≡ b ++ d → spells s v a → spells s w b → Free (continues v) c → Free (continues w) d → (a ≡ b) × (v ≡ w) };
}

/// A value that is recognized by its first token.
///
/// An implementor states which tokens start a value. It owes that
/// - `peek` returns whether the next token is one of them, and takes none;
/// - each spelling of a value begins with one of them, and so is not empty;
/// - a value leaves the scope as it was.
pub trait Peek: Parse {
    // The token starts a value.
    ghost starts: { Lexeme → Bool };

    /// Whether the next token starts a value; false at the end of the text. It takes no token.
    ///
    /// A lexical fault in place of the next token is rejected.
    fn peek<'a>(parser: &mut Parser<'a>) -> Result<bool>
        ensures { Gives (λ b. b) result (peek_at starts parser.old) parser.old parser.new };

    // A spelling has a first token, which starts it.
    ghost first: { (s : Scope) (v : Self.Plain) (ts : List Lexeme) → Self.spells s v ts → Starts starts ts };

    // The scope stays.
    ghost stays: { (s : Scope) → Self.leaves s ≡ s };
}

/// A value if the next token starts one, else `None`.
impl<P: Peek> Parse for Option<P> {
    ghost Plain = { Option P.Plain };

    ghost view = { λ o. option_map P.view o };

    ghost spells = { λ s o ts. OptionSpells (P.spells s) o ts };

    ghost continues = { λ o t. OptionGoesOn P.continues P.starts o t };

    ghost alone = { λ s. option_alone (P.spells s) P.continues P.starts (P.alone s) (P.first s) };

    fn parse<'a>(parser: &mut Parser<'a>) -> Result<Self> {
        if P::peek(parser)? {
            Ok(Some(P::parse(parser)?))
        } else {
            Ok(None)
        }
    }
}

/// Values for as long as the next token starts one.
impl<P: Peek + Drop> Parse for Vec<P> {
    ghost Plain = { List P.Plain };

    ghost view = { λ v. map P.view v.items };

    ghost spells = { λ s vs ts. Members (P.spells s) P.continues vs ts };

    ghost continues = { λ vs t. ListGoesOn P.continues P.starts vs t };

    ghost alone = { λ s. list_alone (P.spells s) P.continues P.starts (P.alone s) (P.first s) };

    fn parse<'a>(parser: &mut Parser<'a>) -> Result<Self>
        ensures ok { IfOk result (λ v. Took (λ s vs ts. Members (P.spells s) P.continues vs ts) (λ vs t. ListGoesOn P.continues P.starts vs t) (λ s. s) (map P.view v.items) parser.old parser.new) }
        ensures err { IfErr result (λ e. Refusal (λ s vs ts. Members (P.spells s) P.continues vs ts) (λ vs t. ListGoesOn P.continues P.starts vs t) e parser.old parser.new) }
        // The members end at a fault, or at a token that starts a member though none is spelled.
        ensures stuck { IfErr result (λ e. IfRefused (cause_of e) (parser.old.failed ≡ None → Stuck (P.spells parser.old.scope) P.continues P.starts parser.old.faulty (kinds parser.old.tokens))) }
    {
        let mut values = Vec::new(parser.alloc());
        while P::peek(parser)? {
            let value = P::parse(parser)?;
            match values.push(value) {
                Ok(()) => {}
                Err(_) => return Err(parser.want_memory().into()),
            }
        }
        Ok(values)
    }
}
