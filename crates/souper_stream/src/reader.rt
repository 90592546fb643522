//! The reader of a stream: chunks of whole segments, and the segments of a chunk that spells no items.
ghost use Rattle.std.specs.Prelude.{◌≡◌, ◌+◌, ◌++◌, ◌<◌, ◌≤◌, ◌⊎◌, ℕ, List, [], length, take, drop, true, false, Option, None, is_some, IfOk, IfErr, IfSome, OnOk, vec_len, option_copied};
ghost use Rattle.std.specs.Io.{appended_bytes};
ghost use Rattle.std.specs.IoError.{error_kind};
ghost use Rattle.souper_stream.specs.Prelude.{IsOneLine, IsLines, ItemType, Item, IsStrError, kind_of, offset_of, HasLocationAfter, IsLocatedAfter, TakesOver, TakesFrom, TextSpellsFrom, PrefixSpellsFrom, HasStarts, starts_of, TextStops, at_end_of};
ghost use Rattle.souper_stream.specs.Starts.{Ascend};
ghost use Rattle.souper_stream.specs.Buffering.{window, unparsed, KeepsWindow};
ghost use Rattle.souper_stream.specs.Scanning.{HasScan, HasNoneDue};
ghost use Rattle.souper_stream.specs.Segments.{Line, concat, all_lines, AreLines, CutsAt};
ghost use Rattle.souper_stream.specs.Reading.{ReadsBytes};
ghost use Rattle.souper_stream.specs.Parts.{Advances, KeepsParts, HasParts, HasAll, Holds, EndsAfter, part_of, keeps_starts, reads_eagerly, starts_of_part, ReadsOn, buffered, ReadsLast, TakesPart, RefusesPart};

use crate::buffer::Buffer;
use crate::cuts::{Scan, find_cut, segment_len};
use crate::faults::{NotUtf8, not_utf8};
use crate::item::StreamItem;
use crate::lines::{lines_len, utf8};
use crate::sink::ChunkSink;
use crate::starts::{Start, starts_in};
use souper_ir::parse::{Memory, ParseError, ParseErrorKind, Result, Sink, parse_with_memory};
use std::alloc::{AllocError, Global};
use std::io;
use std::io::{BufRead, ErrorKind};

// The most bytes that are taken at once of what a reader has buffered.
const BLOCK: usize = 65536;

// Takes bytes of what the reader has buffered, and returns whether the input has ended.
fn read_block<R: BufRead>(reader: &mut R, bytes: &mut Vec<u8>) -> io::Result<bool>
    ensures read { ReadsBytes (R.remaining reader.old) (R.remaining reader.new) bytes.old.items bytes.new.items result }
    ensures short { length (appended_bytes bytes.old.items bytes.new.items) ≤ 65536 }
{
    let shown = match reader.fill_buf() {
        Ok(shown) => shown,
        Err(fault) if fault.kind() == ErrorKind::Interrupted => return Ok(false),
        Err(fault) => return Err(fault),
    };
    let has_ended = shown.is_empty();
    let len = shown.len().min(BLOCK);
    bytes.extend_from_slice(&shown[..len])?;
    reader.consume(len);
    Ok(has_ended)
}

// The length of the whole lines that the bytes begin with, if no newline is in the first `start` bytes; or of all, if the input has ended.
fn closed_len(bytes: &[u8], start: usize, has_ended: bool) -> usize
    requires { start ≤ length bytes.now }
    ensures bound { result ≤ length bytes.now }
    ensures lines { has_ended ≡ false → IsLines (take result bytes.now) }
    ensures rest { IsOneLine (take start bytes.now) → IsOneLine (drop result bytes.now) }
    ensures all { has_ended ≡ true → result ≡ length bytes.now }
{
    if has_ended {
        return bytes.len();
    }
    let lines = lines_len(&bytes[start..]);
    if lines == 0 {
        return 0;
    }
    start + lines
}

// The error of the first `len` unparsed bytes, which are not UTF-8.
fn not_text(buffer: &Buffer, len: usize) -> io::Error
    requires { buffer.now.start + buffer.now.parsed + len ≤ vec_len buffer.now.bytes }
    ensures { error_kind result ≡ ErrorKind.InvalidData }
{
    not_utf8(buffer.passed(), &buffer.unparsed()[..len]).to_error()
}

/// Reads a stream part by part.
///
/// A part is one segment or more. Segments are whole lines: the stream is cut before each line that begins with a statement (a name and
/// `=` or `:`, `pc`, `blockpc`) or last line (`infer`, `result`, `cand`), if the last one to begin in the segment is a terminator, the
/// line that an item of the type ends with. A lexical error hides the rest of its line.
///
/// Many segments are parsed at once, as a chunk. A chunk that spells no items is parsed again, segment by segment, so that only the items
/// of its invalid segments are lost.
#[derive(Drop)]
pub struct ItemReader {
    buffer: Buffer,

    // Bytes to read before looking for a cut point.
    min_chunk: usize,

    // Whether a cut point is looked for whenever something was read, and not only when the buffer has doubled.
    is_eager: bool,

    // The bytes that were read after the last newline.
    open_line: Vec<u8>,

    // How far an eager reader has scanned the lines after the pending bytes.
    scan: Scan,

    // Whether the input has ended.
    ended: bool,

    // The error of a read that failed, until the segments before it are parsed.
    fault: Option<io::Error>,

    // The number of unparsed bytes of the current chunk.
    pending: usize,

    // Where the items of the last part begin, if that is asked for.
    starts: Vec<Start>,

    // The memory of items that were dropped.
    memory: Memory,
}

impl ItemReader {
    /// A reader at the start of a stream. `min_chunk` is the chunk size in bytes: a cut point is looked for when the buffer has
    /// grown by `min_chunk` bytes. If none is found, it is looked for again when the buffer has doubled.
    /// With a small chunk size items are passed to the sink sooner ([`eager`](ItemReader::eager) too); with a larger one reading takes less
    /// time.
    pub fn new(alloc: Global, min_chunk: usize) -> ItemReader
        ensures not_asked { keeps_starts result ≡ false }
        ensures none { (part_of result ≡ []) × (starts_of_part result ≡ []) }
        ensures begins { (k : ItemType) (start : Option (List ℕ)) → HasParts k start start [] result }
    {
        ItemReader::with_memory(alloc, min_chunk, Memory::new(alloc))
    }

    /// A reader that is asked where the items begin ([`starts`](ItemReader::starts)).
    pub fn with_starts(alloc: Global, min_chunk: usize) -> ItemReader
        ensures asked { keeps_starts result ≡ true }
        ensures none { (part_of result ≡ []) × (starts_of_part result ≡ []) }
        ensures begins { (k : ItemType) (start : Option (List ℕ)) → HasParts k start start [] result }
    {
        ItemReader::with_memory(alloc, min_chunk, Memory::with_starts(alloc))
    }

    #[tactic(auto, using(crate::proofs::Passing::read_none))]
    fn with_memory(alloc: Global, min_chunk: usize, memory: Memory) -> ItemReader
        ensures memory { result.memory ≡ memory }
        ensures none { (part_of result ≡ []) × (starts_of_part result ≡ []) }
        ensures begins { (k : ItemType) (start : Option (List ℕ)) → HasParts k start start [] result }
    {
        ItemReader {
            buffer: Buffer::new(alloc),
            min_chunk,
            is_eager: false,
            open_line: Vec::new(alloc),
            scan: Scan::new(),
            ended: false,
            fault: None,
            pending: 0,
            starts: Vec::new(alloc),
            memory,
        }
    }

    /// Where the items of the last part begin in the stream, one for each item, in order; of a rejected part, the items that it begins
    /// with. There are none if they were not asked for ([`with_starts`](ItemReader::with_starts)), and none after the end.
    pub fn starts(&self) -> &[Start]
        ensures { result.now ≡ starts_of_part self.now }
    {
        self.starts.as_slice()
    }

    /// The same reader, which, if it is eager, looks for a cut point each time that the input has shown something. So it reads no more while
    /// whole lines that were shown have a cut point, whatever the chunk size is: the items of a segment are passed to the sink as soon as
    /// the line after it is there. Each line is then scanned once more than it is parsed.
    pub fn eager(self, is_eager: bool) -> ItemReader
        ensures eager { reads_eagerly result ≡ is_eager }
        ensures kept { (part_of result ≡ part_of self) × (starts_of_part result ≡ starts_of_part self) }
        ensures same { keeps_starts result ≡ keeps_starts self }
        ensures parts { (k : ItemType) (start : Option (List ℕ)) (now : Option (List ℕ)) (ps : List (List Line)) → HasParts k start now ps self → HasParts k start now ps result }
    {
        ItemReader { is_eager, ..self }
    }

    /// The text of the last part, rejected or not. Before the first part and after the end it is empty.
    pub fn part(&self) -> &[u8]
        requires { (k : ItemType) × (start : Option (List ℕ)) × (now : Option (List ℕ)) × (ps : List (List Line)) × HasParts k start now ps self.now }
        ensures { result.now ≡ part_of self.now }
    {
        let end = self.buffer.start + self.buffer.parsed;
        &self.buffer.bytes[end - self.buffer.last..end]
    }

    /// Whether the stream has ended after the last part.
    pub fn is_at_end(&self) -> bool
        requires { (k : ItemType) × (start : Option (List ℕ)) × (now : Option (List ℕ)) × (ps : List (List Line)) × HasParts k start now ps self.now }
        ensures { (k : ItemType) (start : Option (List ℕ)) (now : Option (List ℕ)) (ps : List (List Line)) → 0 < length ps → HasParts k start now ps self.now → EndsAfter start now (concat (all_lines ps)) result }
    {
        self.ended && self.buffer.unparsed().is_empty()
    }

    /// Where the bytes that were read are not UTF-8, after [`read_part`](ItemReader::read_part) has returned `Io`; none if a read failed.
    pub fn not_utf8(&self) -> Option<NotUtf8> {
        let start = self.buffer.start.saturating_add(self.buffer.parsed);
        let bytes = self
            .buffer
            .bytes
            .get(start..start.saturating_add(self.pending))?;
        match utf8(bytes) {
            Ok(_) => None,
            Err(_) => Some(not_utf8(self.buffer.passed(), bytes)),
        }
    }

    // Reads what the input shows, and waits for no more. Of a line whose end is not there, the bytes stay apart. The error of a read that
    // fails is returned by the next call, after the segments before it.
    fn read_shown<R: BufRead>(&mut self, reader: &mut R) -> io::Result<()>
        requires parsed { self.old.buffer.start + self.old.buffer.parsed ≤ vec_len self.old.buffer.bytes }
        requires going { self.old.ended ≡ false }
        requires none { self.old.pending ≡ 0 }
        ensures same { keeps_starts self.new ≡ keeps_starts self.old }
        ensures eager { self.new.is_eager ≡ self.old.is_eager }
        ensures parsed { self.new.buffer.start + self.new.buffer.parsed ≤ vec_len self.new.buffer.bytes }
        ensures none { self.new.pending ≡ 0 }
        ensures buffer { self.new.buffer ≡ record self.old.buffer { bytes = self.new.buffer.bytes } }
        ensures kept { OnOk result ((more : List ℕ) × (self.new.buffer.bytes.items ≡ self.old.buffer.bytes.items ++ more)) }
        ensures shown { OnOk result ((line : List ℕ) × (block : List ℕ) × ((line ≡ self.old.open_line.items) ⊎ (line ≡ [])) × (length block ≤ 65536) × (buffered self.new ≡ (unparsed self.old.buffer ++ line) ++ block)) }
        ensures read { OnOk result ((k : ItemType) → KeepsParts k (R.remaining reader.old) (R.remaining reader.new) self.old self.new) }
    {
        if let Some(fault) = self.fault.take() {
            return Err(fault);
        }
        let start = self.open_line.len();
        self.ended = match read_block(reader, &mut self.open_line) {
            Ok(ended) => ended,
            Err(fault) => {
                self.open_line.clear();
                self.fault = Some(fault);
                return Ok(());
            }
        };
        let len = closed_len(&self.open_line, start, self.ended);
        if len == 0 {
            return Ok(());
        }
        let mut after = self.open_line.split_off(len)?;
        self.buffer.bytes.append(&mut self.open_line)?;
        self.open_line.append(&mut after)?;
        Ok(())
    }

    // How many bytes are buffered.
    fn held(&self) -> usize {
        self.buffer.bytes.len().saturating_add(self.open_line.len())
    }

    // Whether it is time to look for a cut point.
    fn is_due(&self, goal: usize) -> bool
        ensures { self.now.is_eager ≡ true → result ≡ true }
    {
        self.is_eager || self.fault.is_some() || self.held() >= goal
    }

    // Looks for the last cut point of the lines that are not parsed, if `goal` bytes are buffered or a read has failed; an eager reader does
    // so in any case. The length up to it is pending then, 0 if there is none. Returns whether it was looked for.
    fn look<T: StreamItem>(&mut self, goal: usize) -> io::Result<bool>
        requires parsed { self.old.buffer.start + self.old.buffer.parsed ≤ vec_len self.old.buffer.bytes }
        requires none { self.old.pending ≡ 0 }
        requires scanned { HasScan T.item_type (unparsed self.old.buffer) self.old.scan }
        ensures only { self.new ≡ record self.old { pending = self.new.pending; scan = self.new.scan } }
        ensures same { keeps_starts self.new ≡ keeps_starts self.old }
        ensures eager { self.new.is_eager ≡ self.old.is_eager }
        ensures buffer { self.new.buffer ≡ self.old.buffer }
        ensures going { self.new.ended ≡ self.old.ended }
        ensures within { OnOk result (self.new.buffer.start + self.new.buffer.parsed + self.new.pending ≤ vec_len self.new.buffer.bytes) }
        ensures cut { OnOk result (0 < self.new.pending → (ls : List Line) → unparsed self.old.buffer ≡ concat ls → AreLines ls → CutsAt T.item_type ls self.new.pending) }
        ensures scanned { OnOk result (HasScan T.item_type (drop self.new.pending (unparsed self.old.buffer)) self.new.scan) }
        ensures due { self.old.is_eager ≡ true → OnOk result (HasNoneDue T.item_type (drop self.new.pending (unparsed self.old.buffer))) }
    {
        let due = self.is_due(goal);
        if !due {
            return Ok(false);
        }
        let text = self.buffer.unparsed();
        (self.pending, self.scan) = match find_cut::<T>(text, self.scan, self.is_eager) {
            Ok(found) => found,
            Err(_) => {
                self.pending = text.len();
                return Err(not_text(&self.buffer, self.pending));
            }
        };
        Ok(true)
    }

    // Drops what is not needed any more, and reads up to the end of the next chunk. Its length is pending then: 0 if the stream has ended.
    fn next_chunk<T: StreamItem, R: BufRead>(&mut self, reader: &mut R) -> io::Result<()>
        requires parsed { self.old.buffer.start + self.old.buffer.parsed ≤ vec_len self.old.buffer.bytes }
        requires none { self.old.pending ≡ 0 }
        requires had { (start : Option (List ℕ)) × (ps : List (List Line)) × HasParts T.item_type start (R.remaining reader.old) ps self.old }
        ensures same { keeps_starts self.new ≡ keeps_starts self.old }
        ensures eager { self.new.is_eager ≡ self.old.is_eager }
        ensures next { OnOk result ((start : Option (List ℕ)) (ps : List (List Line)) → HasParts T.item_type start (R.remaining reader.old) ps self.old
            → HasParts T.item_type start (R.remaining reader.new) ps self.new × (self.new.pending ≡ 0 → HasAll T.item_type start (R.remaining reader.new) ps)) }
        ensures within { OnOk result (self.new.buffer.start + self.new.buffer.parsed + self.new.pending ≤ vec_len self.new.buffer.bytes) }
        ensures kept { OnOk result (KeepsWindow self.old.buffer self.new.buffer) }
        ensures last { OnOk result (self.new.buffer.last ≡ 0) }
        ensures due { self.old.is_eager ≡ true → OnOk result ((R.remaining reader.new ≡ R.remaining reader.old) ⊎ ReadsLast T.item_type (buffered self.new)) }
    {
        self.buffer.drain();
        let mut goal = self.held().saturating_add(self.min_chunk);
        for _turn in 0..u64::MAX {
            if self.ended {
                let text = self.buffer.unparsed();
                (self.pending, self.scan) = (text.len(), Scan::new());
                return Ok(());
            }
            let looked = self.look::<T>(goal)?;
            if self.pending > 0 {
                return Ok(());
            }
            if looked {
                goal = self.held().saturating_mul(2);
            }
            self.read_shown::<R>(reader)?;
        }
        Err(io::Error::from(ErrorKind::Other))
    }

    // Parses the first `len` unparsed bytes, and passes their items to the sink.
    fn read_text<T: StreamItem + Drop, S: Sink<T>>(
        &mut self,
        alloc: Global,
        len: usize,
        sink: &mut S,
    ) -> Result<()>
        requires { self.old.buffer.start + self.old.buffer.parsed + len ≤ vec_len self.old.buffer.bytes }
        ensures same { self.new ≡ record self.old { memory = self.new.memory } }
        ensures asked { keeps_starts self.new ≡ keeps_starts self.old }
        ensures taken { OnOk result (TakesFrom S.holds (TextSpellsFrom T.item_type (take len (unparsed self.old.buffer))) (HasStarts self.old.memory self.new.memory) sink.old sink.new) }
        ensures refused { IfErr result (λ e. kind_of e ≡ ParseErrorKind.Parse → IsStrError T.item_type None (take len (unparsed self.old.buffer)) e) }
        ensures stops { IfErr result (λ e. kind_of e ≡ ParseErrorKind.Parse → TextStops T.item_type (take len (unparsed self.old.buffer)) (at_end_of e)) }
        ensures begun { IfErr result (λ e. kind_of e ≡ ParseErrorKind.Parse → TakesFrom S.holds (PrefixSpellsFrom T.item_type (take len (unparsed self.old.buffer))) (HasStarts self.old.memory self.new.memory) sink.old sink.new) }
        ensures ascend { OnOk result (IfSome (starts_of self.new.memory) (λ offsets. Ascend 0 offsets len)) }
        ensures ascend_before { IfErr result (λ e. kind_of e ≡ ParseErrorKind.Parse → IfSome (starts_of self.new.memory) (λ offsets. Ascend 0 offsets len)) }
        ensures over { IfErr result (λ e. (kind_of e ≡ ParseErrorKind.Memory → ⊥) → (items : List Item) × TakesOver S.holds items sink.old sink.new) }
    {
        let text = match utf8(&self.buffer.unparsed()[..len]) {
            Ok(text) => text,
            Err(_) => return Err(ParseError::from(not_text(&self.buffer, len))),
        };
        parse_with_memory::<T, S>(alloc, &mut self.memory, text, None, sink)
    }

    // The first `len` unparsed bytes were parsed. Keeps where their items begin.
    fn pass(&mut self, len: usize) -> std::result::Result<(), AllocError>
        requires some { 0 < len }
        requires within { self.old.buffer.start + self.old.buffer.parsed + len ≤ vec_len self.old.buffer.bytes }
        requires pending { len ≤ self.old.pending }
        requires ascend { IfSome (starts_of self.old.memory) (λ offsets. Ascend 0 offsets len) }
        ensures advanced { OnOk result (Advances self.old len self.new) }
        ensures same { keeps_starts self.new ≡ keeps_starts self.old }
        ensures eager { self.new.is_eager ≡ self.old.is_eager }
    {
        let part = &self.buffer.unparsed()[..len];
        starts_in(
            self.buffer.passed(),
            part,
            self.memory.starts(),
            &mut self.starts,
        )?;
        self.buffer.pass(len);
        self.pending -= len;
        Ok(())
    }

    // Passes the items of the first segment of the pending bytes to the sink.
    fn read_segment<T: StreamItem + Drop, S: Sink<T>>(
        &mut self,
        alloc: Global,
        filename: Option<&str>,
        sink: &mut S,
    ) -> Result<()>
        requires some { 0 < self.old.pending }
        requires within { self.old.buffer.start + self.old.buffer.parsed + self.old.pending ≤ vec_len self.old.buffer.bytes }
        ensures bytes { OnOk result (self.new.buffer.bytes.items ≡ self.old.buffer.bytes.items) }
        ensures left { OnOk result (part_of self.new ++ buffered self.new ≡ buffered self.old) }
        ensures refused_left { IfErr result (λ e. kind_of e ≡ ParseErrorKind.Parse → part_of self.new ++ buffered self.new ≡ buffered self.old) }
        ensures refused_bytes { IfErr result (λ e. kind_of e ≡ ParseErrorKind.Parse → self.new.buffer.bytes.items ≡ self.old.buffer.bytes.items) }
        ensures same { keeps_starts self.new ≡ keeps_starts self.old }
        ensures eager { self.new.is_eager ≡ self.old.is_eager }
        ensures taken { OnOk result ((start now : Option (List ℕ)) (ps : List (List Line)) (first : S) → HasParts T.item_type start now ps self.old → Holds S.holds [] first sink.old
            → TakesPart T.item_type start now ps S.holds first sink.new self.new) }
        ensures refused { IfErr result (λ e. kind_of e ≡ ParseErrorKind.Parse → (start now : Option (List ℕ)) (ps : List (List Line)) (first : S) → HasParts T.item_type start now ps self.old → Holds S.holds [] first sink.old
            → RefusesPart T.item_type (option_copied filename.entry) start now ps S.holds first sink.new self.new e) }
    {
        let pending = self.pending;
        let len = match segment_len::<T>(&self.buffer.unparsed()[..pending]) {
            Ok(len) => len,
            Err(_) => return Err(ParseError::from(not_text(&self.buffer, pending))),
        };
        match self.read_text::<T, S>(alloc, len, sink) {
            Ok(()) => {
                self.pass(len)?;
                Ok(())
            }
            Err(error) if error.kind() == ParseErrorKind::Parse => {
                let error = match utf8(self.buffer.window(len)) {
                    Ok(source) => error.locate_after(
                        alloc,
                        self.buffer.before,
                        source,
                        self.buffer.parsed,
                        filename,
                    ),
                    Err(fault) => ParseError::from(fault),
                };
                self.pass(len)?;
                Err(error)
            }
            Err(error) => Err(error),
        }
    }

    /// Reads the next part of the stream, and passes its items to the sink, in order. Returns false if the stream has ended, and
    /// nothing was left of it.
    ///
    /// Each call of one stream is given the same reader and type of items, and the sink may be another each time. It must hold no items,
    /// compared with some sink, since items of a chunk may be taken back. After the call [`part`](ItemReader::part) returns the text of the
    /// part, and [`starts`](ItemReader::starts) where its items begin, if that is asked for.
    ///
    /// - `Parse`: the next segment spells no items. The sink has taken items that it begins with. The error has and shows its place in
    ///   the stream, and its location is there too. The next call reads the next segment.
    /// - `Io`: a read failed, or the bytes read are not UTF-8. The segments that were whole before them came in the calls before.
    /// - `Memory`: memory ran out, or the sink returned so.
    ///
    /// After `Io` or `Memory` the stream cannot be read on, and the sink may have taken items.
    ///
    /// When a chunk is read, the text that was parsed before it is dropped, but for its last line, which locations need.
    pub fn read_part<T: StreamItem + Drop, R: BufRead, S: ChunkSink<T>>(
        &mut self,
        alloc: Global,
        reader: &mut R,
        filename: Option<&str>,
        sink: &mut S,
    ) -> Result<bool>
        requires { (start : Option (List ℕ)) × (ps : List (List Line)) × HasParts T.item_type start (R.remaining reader.old) ps self.old }
        ensures read { IfOk result (λ more. more ≡ true → (start : Option (List ℕ)) (ps : List (List Line)) → HasParts T.item_type start (R.remaining reader.old) ps self.old
            → TakesPart T.item_type start (R.remaining reader.new) ps S.holds sink.old sink.new self.new) }
        ensures ended { IfOk result (λ more. more ≡ false → (start : Option (List ℕ)) (ps : List (List Line)) → HasParts T.item_type start (R.remaining reader.old) ps self.old
            → HasAll T.item_type start (R.remaining reader.new) ps × (sink.new ≡ sink.old)) }
        ensures left_none { IfOk result (λ more. more ≡ false → (part_of self.new ≡ []) × (starts_of_part self.new ≡ [])) }
        ensures unread { 0 < self.old.pending → R.remaining reader.new ≡ R.remaining reader.old }
        ensures refused { IfErr result (λ e. kind_of e ≡ ParseErrorKind.Parse → (start : Option (List ℕ)) (ps : List (List Line)) → HasParts T.item_type start (R.remaining reader.old) ps self.old
            → RefusesPart T.item_type (option_copied filename.entry) start (R.remaining reader.new) ps S.holds sink.old sink.new self.new e) }
        ensures due { reads_eagerly self.old ≡ true → OnOk result ((R.remaining reader.new ≡ R.remaining reader.old) ⊎ ReadsLast T.item_type (part_of self.new ++ buffered self.new)) }
        ensures refused_due { reads_eagerly self.old ≡ true → IfErr result (λ e. kind_of e ≡ ParseErrorKind.Parse → (R.remaining reader.new ≡ R.remaining reader.old) ⊎ ReadsLast T.item_type (part_of self.new ++ buffered self.new)) }
        ensures kept { OnOk result (ReadsOn self.old self.new) }
        ensures refused_kept { IfErr result (λ e. kind_of e ≡ ParseErrorKind.Parse → ReadsOn self.old self.new) }
        ensures same { keeps_starts self.new ≡ keeps_starts self.old }
        ensures eager { reads_eagerly self.new ≡ reads_eagerly self.old }
    {
        if self.pending > 0 {
            self.read_segment::<T, S>(alloc, filename, sink)?;
            return Ok(true);
        }
        match self.next_chunk::<T, R>(reader) {
            Ok(()) => {}
            Err(fault) if fault.kind() == ErrorKind::OutOfMemory => return Err(ParseError::from(
                AllocError,
            )),
            Err(fault) => return Err(ParseError::from(fault)),
        }
        let len = self.pending;
        if len == 0 {
            self.starts.clear();
            return Ok(false);
        }
        match self.read_text::<T, S>(alloc, len, sink) {
            Ok(()) => {
                self.pass(len)?;
                Ok(true)
            }
            Err(error) if error.kind() == ParseErrorKind::Memory => Err(error),
            Err(_) => {
                sink.rollback();
                self.read_segment::<T, S>(alloc, filename, sink)?;
                Ok(true)
            }
        }
    }
}
