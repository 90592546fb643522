//! The buffer of a stream.
ghost use Rattle.std.specs.Prelude.{◌≡◌, ℕ, ◌+◌, ◌-◌, ◌^◌, ◌<◌, ◌≤◌, List, [], length, take, drop, vec_len};
ghost use Rattle.souper_stream.specs.Prelude.{newlines};
ghost use Rattle.souper_stream.specs.Buffering.{Buffers, Counts, window, unparsed, Passes};

use crate::lines::last_line_start;
use souper_ir::parse::Before;
use std::alloc::Global;

/// The buffer of a stream.
#[derive(Drop)]
pub(crate) struct Buffer {
    /// Lines that are not needed any more, then the last parsed line, if there is one, and the bytes that were read after it.
    pub(crate) bytes: Vec<u8>,

    /// The offset of the last parsed line.
    pub(crate) start: usize,

    /// The number of parsed bytes from there on.
    pub(crate) parsed: usize,

    /// The number of bytes that were parsed last, if they are still there.
    pub(crate) last: usize,

    /// The numbers of bytes and lines before that line.
    pub(crate) before: Before,
}

// The newlines of at most 255 bytes, counted in one byte.
fn newlines_of_chunk(bytes: &[u8]) -> u8
    requires { length bytes.now ≤ 255 }
    ensures { result ≡ newlines bytes.now }
{
    let mut count = 0;
    for byte in bytes {
        if *byte == b'\n' {
            count += 1;
        }
    }
    count
}

// Chunk size in bytes: 7 times the 32 bytes that the compiled loop takes in one turn.
const CHUNK: usize = 224;

/// The newlines of the bytes. A counter of one byte lets the compiler compare and count 16 bytes at once.
pub(crate) fn newline_count(bytes: &[u8]) -> usize
    ensures { result ≡ newlines bytes.now }
{
    let mut count = 0;
    for chunk in bytes.chunks(CHUNK) {
        count += usize::from(newlines_of_chunk(chunk));
    }
    count
}

// Removes the first `n` bytes, and moves the others to the front.
fn remove_front(bytes: &mut Vec<u8>, n: usize)
    requires { n ≤ vec_len bytes.old }
    ensures items { bytes.new.items ≡ drop n bytes.old.items }
    ensures len { vec_len bytes.new ≡ vec_len bytes.old - n }
{
    let len = bytes.len();
    bytes.as_mut_slice().copy_within(n..len, 0);
    bytes.truncate(len - n);
}

impl Buffer {
    #[tactic(auto, using(crate::proofs::Buffers::buffers_none))]
    pub(crate) fn new(alloc: Global) -> Buffer
        ensures none { result.last ≡ 0 }
        ensures begins { Buffers [] [] result }
    {
        Buffer {
            bytes: Vec::new(alloc),
            start: 0,
            parsed: 0,
            last: 0,
            before: Before { bytes: 0, lines: 0 },
        }
    }

    /// The bytes from the last parsed line on, up to the first `len` that are not parsed.
    pub(crate) fn window(&self, len: usize) -> &[u8]
        requires { self.now.start + self.now.parsed + len ≤ vec_len self.now.bytes }
        ensures { result.now ≡ take (self.now.parsed + len) (window self.now) }
    {
        &self.bytes[self.start..self.start + self.parsed + len]
    }

    /// The numbers of bytes and lines that were parsed.
    pub(crate) fn passed(&self) -> Before
        requires { self.now.start + self.now.parsed ≤ vec_len self.now.bytes }
        ensures { (done rest : List ℕ) → Buffers done rest self.now → length done + 1 < 2 ^ 64 → Counts result done }
    {
        Before {
            bytes: self.before.bytes.saturating_add(self.parsed),
            lines: self
                .before
                .lines
                .saturating_add(newline_count(self.window(0))),
        }
    }

    /// The bytes that are not parsed.
    pub(crate) fn unparsed(&self) -> &[u8]
        requires { self.now.start + self.now.parsed ≤ vec_len self.now.bytes }
        ensures { result.now ≡ unparsed self.now }
    {
        &self.bytes[self.start + self.parsed..]
    }

    /// `len` bytes more are parsed. Of all parsed lines the last is still needed, for the locations of errors.
    pub(crate) fn pass(&mut self, len: usize)
        requires some { 0 < len }
        requires within { self.old.start + self.old.parsed + len ≤ vec_len self.old.bytes }
        ensures { Passes self.old len self.new }
    {
        let lines = self.window(len);
        let line = last_line_start(lines);
        let count = newline_count(&lines[..line]);
        self.before.bytes = self.before.bytes.saturating_add(line);
        self.before.lines = self.before.lines.saturating_add(count);
        self.start += line;
        self.parsed = self.parsed + len - line;
        self.last = len;
    }

    /// Drops the lines that are not needed any more, and with them the bytes that were parsed last.
    #[tactic(auto, using(crate::proofs::Buffers::buffers_drained))]
    pub(crate) fn drain(&mut self)
        requires { self.old.start + self.old.parsed ≤ vec_len self.old.bytes }
        ensures bytes { self.new.bytes.items ≡ window self.old }
        ensures last { self.new.last ≡ 0 }
        ensures within { self.new.start + self.new.parsed ≤ vec_len self.new.bytes }
        ensures buffers { (done rest : List ℕ) → Buffers done rest self.old → Buffers done rest self.new }
    {
        remove_front(&mut self.bytes, self.start);
        self.start = 0;
        self.last = 0;
    }
}
