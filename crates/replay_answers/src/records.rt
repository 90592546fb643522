//! Records of stored results. `compare/SAMPLE.md` has their form.
ghost use Rattle.std.specs.Prelude.{◌≡◌, ◌<◌, ◌++◌, ◌∷◌, length, IfSome};
ghost use Rattle.replay_answers.specs.Words.{is_refused_by_word, IsHead};
ghost use Rattle.replay_answers.specs.Records.{IsTaken};

use souper_format::command::Kind;

/// A text, and the stored result for it.
#[derive(Clone, Copy)]
pub struct Record<'a> {
    /// Which items the text is read as.
    pub kind: Kind,

    /// Whether the text is rejected: then the result is the error, else the canonical texts.
    pub is_refused: bool,

    /// The text.
    pub text: &'a str,

    /// The stored result.
    pub answer: &'a str,
}

// The first line of a record.
#[derive(Clone, Copy)]
struct Head {
    kind: Kind,
    is_refused: bool,
    text_len: usize,
    answer_len: usize,
}

// Whether the status means that the text is rejected.
fn read_status(word: &str) -> Option<bool>
    ensures { result ≡ is_refused_by_word word.now }
{
    match word {
        "0" => Some(false),
        "1" => Some(true),
        _ => None,
    }
}

// The parts before and after the first space.
#[tactic(auto, using(std::proofs::lemmas::Str::Pattern::split_parts))]
fn take_word(line: &str) -> Option<(&str, &str)>
    ensures { IfSome result (λ taken. line.now ≡ taken.0.now ++ 32 ∷ taken.1.now) }
{
    line.split_once(' ')
}

fn read_head(line: &str) -> Option<Head>
    ensures { IfSome result (λ head. IsHead line.now head.kind head.is_refused) }
{
    let (kind, rest) = take_word(line)?;
    let (status, rest) = take_word(rest)?;
    let (_class, rest) = take_word(rest)?;
    let (text_len, answer_len) = take_word(rest)?;
    let kind = Kind::from_word(kind)?;
    let is_refused = read_status(status)?;
    let text_len = text_len.parse::<usize>().ok()?;
    let answer_len = answer_len.parse::<usize>().ok()?;
    Some(Head {
        kind,
        is_refused,
        text_len,
        answer_len,
    })
}

// The first `len` bytes as text, and the rest after the newline that follows them.
fn take_text(bytes: &[u8], len: usize) -> Option<(&str, &[u8])>
    ensures { IfSome result (λ taken. bytes.now ≡ taken.0.now ++ 10 ∷ taken.1.now) }
{
    if bytes.len() < len {
        return None;
    }
    let (text, rest) = bytes.split_at(len);
    match rest {
        [b'\n', rest @ ..] => Some((str::from_utf8(text).ok()?, rest)),
        _ => None,
    }
}

/// The record that the bytes begin with, and what follows it. `None` if they begin with no record.
pub fn take_record(bytes: &[u8]) -> Option<(Record<'_>, &[u8])>
    ensures taken { IfSome result (λ taken. IsTaken bytes.now taken.0 taken.1.now) }
    ensures shorter { IfSome result (λ taken. length taken.1.now < length bytes.now) }
{
    let end = bytes.iter().position(|byte| *byte == b'\n')?;
    let (head, rest) = take_text(bytes, end)?;
    let head = read_head(head)?;
    let (text, rest) = take_text(rest, head.text_len)?;
    let (answer, rest) = take_text(rest, head.answer_len)?;
    let record = Record {
        kind: head.kind,
        is_refused: head.is_refused,
        text,
        answer,
    };
    Some((record, rest))
}
