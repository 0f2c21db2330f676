//! A log that is being read: its header, and then line by line.
ghost use Rattle.std.specs.Prelude.{◌≡◌, ℕ, ◌≤◌, ◌+◌, ◌++◌, ◌∷◌, [], List, true, false, OnOk, OnSome, IfErr, IfOk, IfSome, IfNone, IsFalse, IsTrue, length, MatchOption, MatchResult, Some, string_bytes};
ghost use Rattle.tox_log.specs.Lines.{IsWritable, line_words};
ghost use Rattle.std.specs.Io.KnownBytes.{prepend_known};
ghost use Rattle.tox_words.specs.Seeded.{seeded_words};
ghost use Rattle.tox_log.specs.HeaderLines.{IsWritableName};
ghost use Rattle.tox_log.specs.HeaderText.{heading_lines, link_line, seed_line, title_line};
ghost use Rattle.tox_log.specs.Opening.{AddsToxic, Opens, ReadsToxics, SameHeading};
ghost use Rattle.tox_log.specs.Order.{GoesOnWith};
ghost use Rattle.tox_log.specs.Reading.{CountsOn, Hands, IsLineNumber, IsLineRead, LacksLine, TakesLine, TakesRest, is_last, next_number, to_hand, to_take};
ghost use Rattle.tox_log.specs.Left.{BlamesNoLine, HandsFirst, HasLinesLeft, HasToxicsLeft, IsNextLine, IsNextToxic, OpensWritten, ReadsChain, ReadsHeading, ReadsLinkLine, ReadsSeedLine};
ghost use Rattle.tox_log.specs.WrittenLog.{IsWritableLog, IsWrittenText, WrittenLog};
ghost use Rattle.tox_log.specs.declared.event_line.LogLine.{LogLine as AnyLine};
ghost use Rattle.tox_defs.specs.declared.chain.Entry.{Entry as OneEntry};

use crate::event_line::{LogLine, read_line};
use crate::fault::LogFault;
use crate::heading::{Heading, is_title, is_toxic, read_link, read_seed, read_toxic};
use crate::line_reader::LineReader;
use crate::order::comes_next;
use std::alloc::Global;
use tox_defs::Chain;
use tox_time::{Source, Stream, StreamPosition};
use tox_words::{Lanes, Words};

/// A log that is being read. Its header is read.
#[derive(Drop)]
pub struct OpenLog {
    lines: LineReader,
    /// The number of the line that was read last.
    number: u64,
    /// Whether that line is still to be handed out.
    waits: bool,
    heading: Heading,
    chain: Chain,
    /// How far what was heard came, with the last reading.
    heard: StreamPosition,
    /// Whether the last line was read.
    over: bool,
}

impl OpenLog {
    /// Reads the header of a log.
    pub fn new<R: Source>(alloc: Global, reader: &mut R) -> Result<OpenLog, LogFault>
        requires { R.failed reader.old ≡ false }
        ensures working { OnOk result (R.failed reader.new ≡ false) }
        ensures opens { IfOk result (Opens (R.remaining reader.old) (R.remaining reader.new)) }
        ensures reads { (written : WrittenLog) → IsWrittenText (R.remaining reader.old) written
            → MatchResult result (λ log. OpensWritten log (R.remaining reader.new) written)
            BlamesNoLine }
        ensures numbered { IfOk result (λ log.
            IsLineNumber (next_number log) (4 + length log.chain.entries)) }
    {
        let mut lines = LineReader::new(alloc)?;
        let heading = read_heading(alloc, &mut lines, reader)?;
        let lanes = heading.lanes;
        let mut log = OpenLog {
            lines,
            number: 3,
            waits: false,
            heading,
            chain: Chain::with_lanes(lanes),
            heard: StreamPosition::start(),
            over: false,
        };
        log.read_toxics(alloc, reader)?;
        Ok(log)
    }

    /// What the first three lines say.
    pub fn heading(&self) -> &Heading
        ensures { result.now ≡ self.now.heading }
    {
        &self.heading
    }

    /// Keeps what the first three lines say, and the chain of the stream.
    pub fn into_parts(self) -> (Heading, Chain)
        ensures { (result.0 ≡ self.heading) × (result.1 ≡ self.chain) }
    {
        (self.heading, self.chain)
    }

    /// The chain of the stream.
    pub fn chain(&self) -> &Chain
        ensures { result.now ≡ self.now.chain }
    {
        &self.chain
    }

    /// The words of the stream.
    pub fn words(&self, alloc: Global) -> Result<Words, LogFault>
        ensures { MatchResult result (λ words. words ≡ seeded_words self.now.heading.seed
            self.now.heading.number self.now.heading.stream)
            (λ fault. fault ≡ LogFault.OutOfMemory) }
    {
        let heading = &self.heading;
        match Words::from_seed(alloc, heading.seed, heading.number, heading.stream) {
            Ok(words) => Ok(words),
            Err(_) => Err(LogFault::OutOfMemory),
        }
    }

    /// The number of the line that was read last, from 1.
    pub fn number(&self) -> u64
        ensures { result ≡ self.now.number }
    {
        self.number
    }

    /// The next line behind the header. None behind the last line feed.
    pub fn next_line<R: Source>(&mut self, reader: &mut R) -> Result<Option<LogLine>, LogFault>
        requires { R.failed reader.old ≡ false }
        ensures working { OnOk result (R.failed reader.new ≡ false) }
        ensures same { OnOk result ((self.new.heading ≡ self.old.heading)
            × (self.new.chain ≡ self.old.chain)) }
        ensures hands { IfOk result (λ handed. MatchOption handed (self.new.over ≡ self.old.over)
            (Hands self.old self.new (R.remaining reader.old) (R.remaining reader.new))) }
        ensures order { IfOk result (λ handed. MatchOption handed (self.new.heard ≡ self.old.heard)
            (λ line. GoesOnWith self.old.heard line self.new.heard)) }
        ensures ends { IfOk result (λ handed.
            IfNone handed (LacksLine (to_hand self.old (R.remaining reader.old)))) }
        ensures reads { (lines : List AnyLine)
            → HasLinesLeft self.old (R.remaining reader.old) lines
            → MatchResult result
            (λ handed. HandsFirst handed self.new (R.remaining reader.new) lines) BlamesNoLine }
        ensures numbered { IfOk result (λ handed. IfSome handed (λ _.
            (line : ℕ) → IsLineNumber (next_number self.old) line
            → IsLineNumber self.new.number line × IsLineNumber (next_number self.new) (line + 1))) }
    {
        if self.waits {
            self.waits = false;
        } else if !self.advance(reader)? {
            return Ok(None);
        }
        match self.line_in_order() {
            Some(line) => Ok(Some(line)),
            None => Err(LogFault::BadLine(self.number)),
        }
    }

    /// Reads the lines of the toxics, and the line behind them.
    fn read_toxics<R: Source>(&mut self, alloc: Global, reader: &mut R) -> Result<(), LogFault>
        requires works { R.failed reader.old ≡ false }
        requires first { self.old.waits ≡ false }
        ensures working { OnOk result (R.failed reader.new ≡ false) }
        ensures same { OnOk result (SameHeading self.old self.new) }
        ensures toxics { OnOk result
            (ReadsToxics self.old self.new (R.remaining reader.old) (R.remaining reader.new)) }
        ensures reads { (entries : List OneEntry) (lines : List AnyLine)
            → HasToxicsLeft self.old (R.remaining reader.old) entries lines
            → MatchResult result
            (λ _. ReadsChain self.new (R.remaining reader.new) entries lines) BlamesNoLine }
        ensures numbered { OnOk result
            (IsLineNumber self.old.number (3 + length self.old.chain.entries)
            → IsLineNumber (next_number self.new) (4 + length self.new.chain.entries)) }
    {
        'toxics: for _ in 0..u64::MAX {
            if !self.advance(reader)? {
                return Ok(());
            }
            if !self.add_toxic(alloc)? {
                self.waits = true;
                return Ok(());
            }
        }
        Err(LogFault::ReadFault)
    }

    /// Adds the toxic of the line that was read. False if it is no toxic's line.
    fn add_toxic(&mut self, alloc: Global) -> Result<bool, LogFault>
        ensures same { OnOk result (SameHeading self.old self.new
            × (self.new.lines ≡ self.old.lines) × (self.new.waits ≡ self.old.waits)) }
        ensures added { IfOk result (λ added. IsTrue added → AddsToxic self.old self.new) }
        ensures other { IfOk result (λ added. IsFalse added
            → (self.new.chain ≡ self.old.chain) × (self.old.lines.long ≡ false)) }
        ensures takes { (named : OneEntry × List ℕ) → IsNextToxic self.old named
            → MatchResult result (λ added. IsTrue added
            × (self.new.chain.entries ≡ self.old.chain.entries ++ named.0 ∷ [])) BlamesNoLine }
        ensures skips { (line : AnyLine) → IsLineRead self.old.lines (line_words line)
            → IsWritable line → MatchResult result IsFalse BlamesNoLine }
        ensures number { OnOk result (self.new.number ≡ self.old.number) }
    {
        let Some(line) = self.lines.line() else {
            return Err(LogFault::BadLine(self.number));
        };
        if !is_toxic(line) {
            return Ok(false);
        }
        let Some(entry) = read_toxic(alloc, line)? else {
            return Err(LogFault::BadLine(self.number));
        };
        if self.chain.push(entry.toxic, entry.toxicity).is_err() {
            return Err(LogFault::BadLine(self.number));
        }
        Ok(true)
    }

    /// Goes to the next line. False where there is none.
    fn advance<R: Source>(&mut self, reader: &mut R) -> Result<bool, LogFault>
        requires { R.failed reader.old ≡ false }
        ensures working { OnOk result (R.failed reader.new ≡ false) }
        ensures line { IfOk result (λ came. IsTrue came → TakesLine self.old.lines self.new.lines
            (R.remaining reader.old) (R.remaining reader.new)) }
        ensures end { IfOk result (λ came. IsFalse came → TakesRest self.old.lines self.new.lines
            (R.remaining reader.old) (R.remaining reader.new)) }
        ensures kept { (self.new.waits ≡ self.old.waits) × SameHeading self.old self.new
            × (self.new.chain ≡ self.old.chain) }
        ensures counts { IfOk result (λ came. IsTrue came
            → CountsOn self.old.number self.new.number) }
        ensures stands { IfOk result (λ came. IsFalse came
            → self.new.number ≡ self.old.number) }
        ensures fault { IfErr result BlamesNoLine }
    {
        if !self.lines.advance(reader)? {
            return Ok(false);
        }
        self.number = self.number.saturating_add(1);
        Ok(true)
    }

    /// What the line that was read says, if it is of the form and may come next.
    fn line_in_order(&mut self) -> Option<LogLine>
        ensures kept { OnSome result ((self.new.lines ≡ self.old.lines)
            × (self.new.waits ≡ self.old.waits) × (self.new.heading ≡ self.old.heading)
            × (self.new.chain ≡ self.old.chain) × (self.new.number ≡ self.old.number)) }
        ensures reads { IfSome result (λ line. IsLineRead self.old.lines (line_words line)
            × IsWritable line) }
        ensures order { IfSome result (λ line. (self.old.over ≡ false)
            × (self.new.over ≡ is_last line)
            × GoesOnWith self.old.heard line self.new.heard) }
        ensures back { (line : AnyLine) → IsNextLine self.old line → result ≡ Some line }
    {
        let line = read_line(self.lines.line()?)?;
        if self.over || !comes_next(&mut self.heard, &line) {
            return None;
        }
        self.over = line.is_last();
        Some(line)
    }
}

/// Reads the first three lines.
fn read_heading<R: Source>(
    alloc: Global,
    lines: &mut LineReader,
    reader: &mut R,
) -> Result<Heading, LogFault>
    requires { R.failed reader.old ≡ false }
    ensures working { OnOk result (R.failed reader.new ≡ false) }
    ensures named { IfOk result (λ heading. IsWritableName (string_bytes heading.proxy)) }
    ensures lines { IfOk result (λ heading. to_take lines.old (R.remaining reader.old)
        ≡ prepend_known (heading_lines (string_bytes heading.proxy) heading.number heading.stream
        heading.lanes heading.seed) (to_take lines.new (R.remaining reader.new))) }
    ensures reads { (log : WrittenLog) (more : List ℕ) → IsWritableLog log
        → to_take lines.old (R.remaining reader.old)
        ≡ Some (heading_lines log.name log.number log.stream log.chain.lanes log.seed ++ more)
        → MatchResult result (ReadsHeading log more (to_take lines.new (R.remaining reader.new)))
        BlamesNoLine }
{
    read_title(lines, reader)?;
    let (proxy, number, stream) = read_link_line(alloc, lines, reader)?;
    let (lanes, seed) = read_seed_line(lines, reader)?;
    Ok(Heading {
        proxy,
        number,
        stream,
        lanes,
        seed,
    })
}

/// Reads the first line.
fn read_title<R: Source>(lines: &mut LineReader, reader: &mut R) -> Result<(), LogFault>
    requires { R.failed reader.old ≡ false }
    ensures working { OnOk result (R.failed reader.new ≡ false) }
    ensures line { OnOk result (to_take lines.old (R.remaining reader.old)
        ≡ prepend_known title_line (to_take lines.new (R.remaining reader.new))) }
    ensures reads { (more : List ℕ)
        → to_take lines.old (R.remaining reader.old) ≡ Some (title_line ++ more)
        → MatchResult result (λ _. to_take lines.new (R.remaining reader.new) ≡ Some more)
        BlamesNoLine }
{
    if !lines.advance(reader)? {
        return Err(LogFault::BadLine(1));
    }
    match lines.line() {
        Some(line) if is_title(line) => Ok(()),
        _ => Err(LogFault::BadLine(1)),
    }
}

/// Reads the second line: the proxy's name, the link's number and the stream.
fn read_link_line<R: Source>(
    alloc: Global,
    lines: &mut LineReader,
    reader: &mut R,
) -> Result<(String, u64, Stream), LogFault>
    requires { R.failed reader.old ≡ false }
    ensures working { OnOk result (R.failed reader.new ≡ false) }
    ensures numbered { IfOk result (λ link. (1 ≤ link.1) × (link.1 ≤ 1_000_000)) }
    ensures named { IfOk result (λ link. IsWritableName (string_bytes link.0)) }
    ensures line { IfOk result (λ link. to_take lines.old (R.remaining reader.old)
        ≡ prepend_known (link_line (string_bytes link.0) link.1 link.2)
        (to_take lines.new (R.remaining reader.new))) }
    ensures reads { (log : WrittenLog) (more : List ℕ) → IsWritableLog log
        → to_take lines.old (R.remaining reader.old)
        ≡ Some (link_line log.name log.number log.stream ++ more)
        → MatchResult result (ReadsLinkLine log more (to_take lines.new (R.remaining reader.new)))
        BlamesNoLine }
{
    if !lines.advance(reader)? {
        return Err(LogFault::BadLine(2));
    }
    let Some(line) = lines.line() else {
        return Err(LogFault::BadLine(2));
    };
    let Some(link) = read_link(line) else {
        return Err(LogFault::BadLine(2));
    };
    Ok((link.proxy.to_string(alloc)?, link.number, link.stream))
}

/// Reads the third line: the lanes and the seed.
fn read_seed_line<R: Source>(
    lines: &mut LineReader,
    reader: &mut R,
) -> Result<(Lanes, u64), LogFault>
    requires { R.failed reader.old ≡ false }
    ensures working { OnOk result (R.failed reader.new ≡ false) }
    ensures line { IfOk result (λ read. to_take lines.old (R.remaining reader.old)
        ≡ prepend_known (seed_line read.0 read.1) (to_take lines.new (R.remaining reader.new))) }
    ensures reads { (log : WrittenLog) (more : List ℕ) → IsWritableLog log
        → to_take lines.old (R.remaining reader.old)
        ≡ Some (seed_line log.chain.lanes log.seed ++ more)
        → MatchResult result (ReadsSeedLine log more (to_take lines.new (R.remaining reader.new)))
        BlamesNoLine }
{
    if !lines.advance(reader)? {
        return Err(LogFault::BadLine(3));
    }
    let Some(line) = lines.line() else {
        return Err(LogFault::BadLine(3));
    };
    match read_seed(line) {
        Some(settings) => Ok(settings),
        None => Err(LogFault::BadLine(3)),
    }
}
