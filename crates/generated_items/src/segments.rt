//! What a stream has, by another algorithm: its text is in memory, and is cut and parsed segment by segment.
use crate::law::Broken;
use crate::recovered::{Recovery, Texts};
use souper_ir::parse::{Memory, ParseErrorKind, parse_with_memory};
use souper_stream::{StreamItem, segment_len};
use std::alloc::Global;

// The 1-based line of the byte at the offset.
fn line_at(text: &str, offset: usize) -> usize {
    let before = text.as_bytes().get(..offset).unwrap_or_default();
    let mut line: usize = 1;
    for byte in before {
        if *byte == b'\n' {
            line = line.saturating_add(1);
        }
    }
    line
}

// Parses the text.
fn add_segment<T: StreamItem + Drop>(
    alloc: Global,
    text: &str,
    found: &mut Recovery,
) -> Result<(), Broken> {
    let mut memory = Memory::with_starts(alloc);
    let mut texts = Texts {
        out: String::new(alloc),
    };
    let parsed = parse_with_memory::<T, Texts>(alloc, &mut memory, text, None, &mut texts);
    found.texts.push_str(texts.out.as_str())?;
    for offset in memory.starts() {
        found.add_start(*offset, line_at(text, *offset))?;
    }
    match parsed {
        Ok(()) => Ok(()),
        Err(error) if error.kind() == ParseErrorKind::Parse => found.add_error(alloc, &error),
        Err(_) => Err(Broken::Memory),
    }
}

// Appends the text with spaces in place of what is no newline.
fn push_blank(blank: &mut String, text: &str) -> Result<(), Broken> {
    for byte in text.as_bytes() {
        blank.push(if *byte == b'\n' { '\n' } else { ' ' })?;
    }
    Ok(())
}

/// What the segments of a text have. Each is parsed after white space that is as long as the text before it, with the same lines, so that its
/// starts and its error are those of the whole text.
pub(crate) fn by_segments<T: StreamItem + Drop>(
    alloc: Global,
    text: &str,
) -> Result<Recovery, Broken> {
    let mut found = Recovery::new(alloc);
    let mut blank = String::new(alloc);
    let mut rest = text;
    for _turn in 0..u64::MAX {
        if rest.is_empty() {
            break;
        }
        let len = match segment_len::<T>(rest.as_bytes()) {
            Ok(len) => len,
            Err(_) => return Err(Broken::Memory),
        };
        let segment = rest.get(..len).unwrap_or_default();
        let mut source = String::from_str(alloc, blank.as_str())?;
        source.push_str(segment)?;
        add_segment::<T>(alloc, source.as_str(), &mut found)?;
        push_blank(&mut blank, segment)?;
        rest = rest.get(len..).unwrap_or_default();
    }
    Ok(found)
}
