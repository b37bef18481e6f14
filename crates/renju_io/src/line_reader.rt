//! The lines of an input, read piece by piece with no memory taken on the way.
//!
//! A reader keeps two things: the line that it has begun, which has no end yet, and the bytes of the last read that it
//! has not looked at. A line ends at the first line feed among those; where there is none, all of them join the line,
//! and the source is read again. Of a line that is too long one byte more than a line may have is kept, which is enough
//! to know that it is, so the lines do not depend on how reads cut them. Bytes after the most that may be taken are
//! asked for one at a time: the first of them shows that a line goes on too far. Once a read has told the end of the input
//! the source is not asked again.
ghost use Rattle.std.specs.Prelude.{false, true, ◌≡◌, ◌≢◌, ◌+◌, ◌-◌, ◌<◌, ◌≤◌, [], ◌++◌, ◌∷◌, length, take, position, Ok, Err, IfOk, IfErr, IfSome, IfNone, IsErrOf, IsErr, OnOk, OnErr, MatchOption, MatchResult, vec_len, vec_capacity, Some, ⊤};
ghost use Rattle.std.specs.Option.{option_map};
ghost use Rattle.std.specs.Io.KnownBytes.{IsAtEnd};
ghost use Rattle.renju_io.specs.Faults.{HasRisen, HasStayed, HasNotFallen};
ghost use Rattle.renju_io.specs.Asked.{IsAskedAtMost, IsAskedWithin};
ghost use Rattle.renju_io.specs.Told.{Gives, FailsAfter};
ghost use Rattle.renju_io.specs.LineReads.{ReadsNoFurther, ReadsOn};
ghost use Rattle.renju_io.specs.Lines.{HasNoLineFeed, Tells, KeepsLine, KnowsEnd, TakesLines, TakesTooMany, IsExhausted, is_line_feed, line_of, lines, lines_left, reads_for, told_lines};

use crate::{Failed, LINE_FEED, MAX_LINE_BYTES, MAX_SESSION_BYTES, Source};
use std::alloc::{AllocError, Global};
use std::marker::Model;
use std::mem;
use thiserror::Error;

/// What a reader tells of the next line.
#[derive(Clone, Copy, Debug, PartialEq, Eq)]
pub enum Line {
    /// A line, whose bytes `LineReader::text` lends.
    Text,
    /// A line of more than `MAX_LINE_BYTES` bytes, which are dropped.
    TooLong,
    /// The input has ended, and no line is left.
    End,
}

/// Why no line was read.
#[derive(Clone, Copy, Debug, PartialEq, Eq, Error)]
pub enum ReadError {
    /// The source failed: its count of faults rose in this call. The bytes taken stay, and the next call goes on.
    #[error("the input failed")]
    Failed,
    /// The line goes on beyond the first `MAX_SESSION_BYTES` bytes of the input. So says each later call.
    #[error("the input is exhausted")]
    Exhausted,
}

// How many bytes one read asks for.
const READ_BYTES: usize = 4_096;

/// A reader of lines.
#[derive(Drop)]
pub struct LineReader {
    text: Vec<u8>,
    line: Vec<u8>,
    piece: Vec<u8>,
    next: usize,
    end: usize,
    taken: usize,
    ended: bool,
}

impl Model for LineReader {
    ghost use Rattle.renju_io.specs.Lines.{ReaderState};

    ghost Value = { ReaderState };

    ghost use Rattle.renju_io.specs.Reader.{reader_state, IsReader};

    ghost view = { reader_state };

    ghost invariant = { IsReader };
}

impl LineReader {
    /// A reader that has taken nothing. Its buffers are reserved here, and no later call takes memory.
    pub fn new(alloc: Global) -> Result<LineReader, AllocError>
        ensures fresh { IfOk result (λ reader. reader ≡ record { text = []; kept = []; taken = 0; ended = false }) }
    {
        let text = Vec::with_capacity(alloc, MAX_LINE_BYTES + 1)?;
        let line = Vec::with_capacity(alloc, MAX_LINE_BYTES + 1)?;
        let piece = vec![in alloc; 0u8; READ_BYTES]?;
        Ok(LineReader {
            text,
            line,
            piece,
            next: 0,
            end: 0,
            taken: 0,
            ended: false,
        })
    }

    /// The bytes of the line that was told last as `Text`, without its line feed.
    pub fn text(&self) -> &[u8]
        ensures text { result.now ≡ self.now.text }
    {
        &self.text
    }

    /// Takes the next line off the input, reading on where no whole line is kept. Once a read has told the end of the
    /// input the source is not asked again: each later call answers `End` at once, whatever source it is given.
    pub fn next<S: Source>(&mut self, source: &mut S) -> Result<Line, ReadError>
        // What was told, and what is left.
        ensures told { OnOk result
            (TakesLines self.old (S.left source.old) (told_lines result self.new.text) self.new (S.left source.new)) }
        ensures first { OnOk result (lines_left self.old (S.left source.old)
            ≡ option_map (λ later. told_lines result self.new.text ++ later) (lines_left self.new (S.left source.new))) }
        ensures advances { OnOk result (result ≢ Ok Line.End →
            self.old.taken + length self.new.kept < self.new.taken + length self.old.kept) }
        ensures text { result ≢ Ok Line.Text → self.new.text ≡ self.old.text }

        // The end of the input, which is told once.
        ensures end { result ≡ Ok Line.End → (self.new ≡ record self.old { ended = true }) × (self.old.kept ≡ [])
            × (KnowsEnd self.old (S.left source.old) → IsAtEnd (S.left source.new)) }
        ensures knows_end { KnowsEnd self.old (S.left source.old) → KnowsEnd self.new (S.left source.new) }
        ensures asks_no_more { self.old.ended ≡ true →
            (result ≡ Ok Line.End) × (self.new ≡ self.old) × (source.new ≡ source.old) }

        // A read that failed leaves the bytes taken, in which no line ends.
        ensures failed { IsErrOf result ReadError.Failed → FailsAfter S.left S.faults source.old source.new }
        ensures stays { IsErrOf result ReadError.Failed →
            KeepsLine self.old (S.left source.old) self.new (S.left source.new) }

        // Exhausted comes exactly where the byte after the last that may be taken belongs to the line.
        ensures past { IsErrOf result ReadError.Exhausted →
            TakesTooMany self.old (S.left source.old) self.new (S.left source.new) }
        ensures exhausted { IsErrOf result ReadError.Exhausted → IfSome (S.left source.old) (IsExhausted self.old) }
        ensures within { KnowsEnd self.old (S.left source.old) →
            OnOk result (IfSome (S.left source.old) (λ left. IsExhausted self.old left → ⊥)) }
        ensures limit { OnOk result (self.new.taken ≤ MAX_SESSION_BYTES) }
        ensures spent { MAX_SESSION_BYTES < self.old.taken → IsErrOf result ReadError.Exhausted }

        ensures uncounted { OnOk result (HasStayed (S.faults source.old) (S.faults source.new)) }
        ensures not_failed { IfErr result (λ e.
            e ≢ ReadError.Failed → HasStayed (S.faults source.old) (S.faults source.new)) }
        ensures counted { HasNotFallen (S.faults source.old) (S.faults source.new) }

        ensures no_further { OnOk result (ReadsNoFurther self.old self.new (S.left source.old)
            (S.left source.new) (S.last source.old) (S.last source.new)) }

        // Each read took a byte at least, but for the one that told the end, and the one that failed.
        ensures few_reads { OnOk result
            (IsAskedWithin (reads_for self.old) (reads_for self.new) (S.asked source.old) (S.asked source.new)) }
        ensures few_past { IsErrOf result ReadError.Exhausted →
            IsAskedWithin (reads_for self.old) self.new.taken (S.asked source.old) (S.asked source.new) }
        ensures few_failed { IsErrOf result ReadError.Failed →
            IsAskedWithin (reads_for self.old) (self.new.taken + 1) (S.asked source.old) (S.asked source.new) }
    {
        if self.ended {
            return Ok(Line::End);
        }
        while self.taken <= MAX_SESSION_BYTES {
            if let Some(line) = self.end_line() {
                return Ok(line);
            }
            match self.read_on(source) {
                Ok(0) => return Ok(self.end_input()),
                Ok(_) => {}
                Err(Failed) => return Err(ReadError::Failed),
            }
        }
        Err(ReadError::Exhausted)
    }

    // Ends the line at the first line feed that is kept, if there is one.
    fn end_line(&mut self) -> Option<Line>
        requires reading { self.old.ended ≡ false }
        ensures told { IfSome result (λ line.
            Tells self.old.kept (told_lines (Ok line) self.new.text) self.new.kept) }
        ensures a_line { result ≢ Some Line.End }
        ensures shorter { IfSome result (λ _. length self.new.kept < length self.old.kept) }
        ensures text { result ≢ Some Line.Text → self.new.text ≡ self.old.text }
        ensures taken { self.new.taken ≡ self.old.taken }
        ensures ended { self.new.ended ≡ self.old.ended }
        ensures none { IfNone result (self.new ≡ self.old) }
        ensures open { IfNone result (HasNoLineFeed self.old.kept) }
    {
        let unread = &self.piece[self.next..self.end];
        let at = first_line_feed(unread)?;
        append_front(&mut self.line, &unread[..at], MAX_LINE_BYTES + 1);
        self.next += at + 1;
        Some(tell(&mut self.text, &mut self.line))
    }

    // Tells all that is kept as the last line, or the end where nothing is kept.
    fn end_input(&mut self) -> Line
        requires open { HasNoLineFeed self.old.kept }
        requires within { self.old.taken ≤ MAX_SESSION_BYTES }
        ensures all { lines self.old.kept ≡ told_lines (Ok result) self.new.text }
        ensures none_kept { self.new.kept ≡ [] }
        ensures end { result ≡ Line.End → self.old.kept ≡ [] }
        ensures text { result ≢ Line.Text → self.new.text ≡ self.old.text }
        ensures taken { self.new.taken ≡ self.old.taken }
        ensures ended { self.new.ended ≡ true }
    {
        self.ended = true;
        append_front(
            &mut self.line,
            &self.piece[self.next..self.end],
            MAX_LINE_BYTES + 1,
        );
        self.next = self.end;
        if self.line.is_empty() {
            return Line::End;
        }
        tell(&mut self.text, &mut self.line)
    }

    // Reads more of the line, and answers how many bytes were taken: the byte after the last that may be taken is
    // counted and not kept.
    fn read_on<S: Source>(&mut self, source: &mut S) -> Result<usize, Failed>
        requires reading { self.old.ended ≡ false }
        requires open { HasNoLineFeed self.old.kept }
        requires within { self.old.taken ≤ MAX_SESSION_BYTES }
        ensures text { self.new.text ≡ self.old.text }
        ensures ended { self.new.ended ≡ self.old.ended }
        ensures ok { IfOk result (λ count.
            ReadsOn self.old (S.left source.old) count self.new (S.left source.new)) }
        ensures end { result ≡ Ok 0 → IsAtEnd (S.left source.new) }
        ensures last { IfOk result (λ count. S.last source.new ≡ Some count) }
        ensures kept { OnErr result (S.left source.new ≡ S.left source.old) }
        ensures stays { OnErr result (self.new
            ≡ record self.old { kept = take (MAX_LINE_BYTES + 1) self.old.kept }) }
        ensures failed { OnErr result (HasRisen (S.faults source.old) (S.faults source.new)) }
        ensures uncounted { OnOk result (HasStayed (S.faults source.old) (S.faults source.new)) }
        ensures counted { HasNotFallen (S.faults source.old) (S.faults source.new) }
        ensures asks { IsAskedAtMost 1 (S.asked source.old) (S.asked source.new) }
    {
        append_front(
            &mut self.line,
            &self.piece[self.next..self.end],
            MAX_LINE_BYTES + 1,
        );
        self.next = 0;
        self.end = 0;
        let most = (MAX_SESSION_BYTES - self.taken).max(1);
        let count = read_front(source, &mut self.piece, most)?;
        self.taken += count;
        if self.taken <= MAX_SESSION_BYTES {
            self.end = count;
        }
        Ok(count)
    }
}

// Where the first line ends within these bytes.
fn first_line_feed(bytes: &[u8]) -> Option<usize>
    ensures first { result ≡ position is_line_feed bytes.now }
{
    bytes.iter().position(|byte| *byte == LINE_FEED)
}

// Appends bytes to a line, of all of which the first so many are kept. There is room for them.
fn append_front(line: &mut Vec<u8>, more: &[u8], most: usize)
    requires short { vec_len line.old ≤ most }
    requires room { most ≤ vec_capacity line.old }
    ensures front { line.new.items ≡ take most (line.old.items ++ more.now) }
    ensures short { vec_len line.new ≤ most }
    ensures room { vec_capacity line.old ≤ vec_capacity line.new }
{
    let count = more.len().min(most - line.len());
    let _ = line.extend_from_slice(&more[..count]);
}

// Tells a line that has ended, and makes room for the next.
fn tell(text: &mut Vec<u8>, line: &mut Vec<u8>) -> Line
    ensures told { told_lines (Ok result) text.new.items ≡ line_of line.old.items ∷ [] }
    ensures text { result ≢ Line.Text → text.new.items ≡ text.old.items }
    ensures empty { line.new.items ≡ [] }
    ensures len { vec_len line.new ≡ 0 }
    ensures room { MAX_LINE_BYTES + 1 ≤ vec_capacity line.old → MAX_LINE_BYTES + 1 ≤ vec_capacity text.old →
        (MAX_LINE_BYTES + 1 ≤ vec_capacity line.new) × (MAX_LINE_BYTES + 1 ≤ vec_capacity text.new) }
{
    let line_is_long = line.len() > MAX_LINE_BYTES;
    if line_is_long {
        line.clear();
        return Line::TooLong;
    }
    mem::swap(text, line);
    line.clear();
    Line::Text
}

// Reads into the front of a buffer, at most so many bytes, unless the source has told its end.
fn read_front<S: Source>(source: &mut S, buffer: &mut [u8], most: usize) -> Result<usize, Failed>
    requires some { 0 < most }
    requires room { 0 < length buffer.old }
    ensures fits { IfOk result (λ count. (count ≤ most) × (count ≤ length buffer.old)) }
    ensures given { IfOk result (λ count. Gives (S.left source.old) (take count buffer.new) (S.left source.new)) }
    ensures end { result ≡ Ok 0 → IsAtEnd (S.left source.new) }
    ensures last { IfOk result (λ count. S.last source.new ≡ Some count) }
    ensures kept { OnErr result (S.left source.new ≡ S.left source.old) }
    ensures failed { OnErr result (HasRisen (S.faults source.old) (S.faults source.new)) }
    ensures uncounted { OnOk result (HasStayed (S.faults source.old) (S.faults source.new)) }
    ensures counted { HasNotFallen (S.faults source.old) (S.faults source.new) }
    ensures asks { IsAskedAtMost 1 (S.asked source.old) (S.asked source.new) }
{
    if source.has_ended() {
        return Ok(0);
    }
    let count = most.min(buffer.len());
    source.read(&mut buffer[..count])
}
