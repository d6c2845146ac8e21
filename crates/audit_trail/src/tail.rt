//! The audit text of a line in a writer, and the entries that it covers.
//!
//! A trail can't ask an endless line to keep or to forget entries: if that call came late, the line would
//! have to wait or stop. The line forgets its oldest entries, and a trail that meets a forgotten one breaks.

ghost use Rattle.std.specs.Prelude.{◌≡◌, ◌<◌, ◌≤◌, ◌+◌, ◌^◌, ◌&&◌, nat_le, [], length, false, true, None, Some, Ok, Err, IfErr, IfOk, IfSome, MatchResult, OnOk};
ghost use Rattle.dp_audit.specs.AuditText.{version_of as version_by};
ghost use Rattle.dp_shared.specs.Passes.{line_of, new_pass, table_of};
ghost use Rattle.audit_trail.specs.Trails.{AreFrom, BeginsPart, Breaks, EndsWithPart, HeadsFollow, IsBegun, IsWhole, SawAll, Steps, found, heads_seen, parts_text};

use crate::fault::{TrailBreak, TrailFault};
use crate::row::{Next, NextPart, begin_next_part, look_aside, write_next};
use crate::write_parts::WriteParts;
use dp_audit::{Record, set_header_line, version_of};
use dp_shared::{Line, Pass, ReturnedPass};
use dp_telegram::GLOBAL_ADDRESS;
use dp_text::{Text, write_whole};
use std::alloc::Global;
use std::io::Write;
use std::snapshot::Snapshot;
use std::sync::Wait;

/// The audit text of a line in a writer, as far as the tail's own pass has seen the line.
///
/// The entries that it saw have the places from 1 on, without gaps. The writer has what it had at first, then
/// the header, with version 3 if the line is endless and version 2 otherwise, and then the text line of each of
/// these entries; between them it has the heads of parts. If a write failed, it has only a prefix of that.
#[derive(Drop)]
pub struct Tail<'l, W: Write + Drop> {
    line: &'l Line,
    pub(crate) pass: Pass,
    writer: W,
    record: Record,
    text: Text,
    head: Vec<u8>,
    version: u8,
    pub(crate) seen: u32,
    pub(crate) broken: Option<TrailBreak>,
    opened: Snapshot<W>,
    ghost ours: { pass.table ≡ table_of line.now },
    ghost places: { AreFrom 1 (found pass.view.looks) },
    ghost counted: { length (found pass.view.looks) ≡ seen },
    ghost heads: { HeadsFollow pass.view.looks },
    ghost begun: { IsBegun (W.contents opened.value) (W.contents writer) (parts_text version pass.line pass.view.looks) },
    ghost whole: { broken ≡ None → IsWhole (W.contents opened.value) (W.contents writer) (parts_text version pass.line pass.view.looks) },
}

impl<'l, W: Write + Drop> Tail<'l, W> {
    /// Opens the tail of a line, and writes the header. It waits for the line. Memory is taken for the head of the first
    /// part that begins, not now.
    ///
    /// Returns `NoPass` if the line gives no pass, and `WriteFault` if the header cannot be written.
    pub fn open<T: Wait>(
        rt: &T,
        alloc: Global,
        line: &'l Line,
        writer: W,
    ) -> Result<Tail<'l, W>, TrailFault>
        ensures line { IfOk result (λ tail. tail.line ≡ line.entry) }
        ensures pass { IfOk result (λ tail. (tail.pass.line ≡ (line_of line.now).number)
            × (tail.pass.view ≡ new_pass tail.pass.view.number 127)) }
        ensures version { IfOk result (λ tail. tail.version ≡ version_by (line_of line.now).capacity) }
        ensures start { IfOk result (λ tail. (tail.seen ≡ 0) × (tail.broken ≡ None)) }
        ensures opened { IfOk result (λ tail. tail.opened.value ≡ writer) }
    {
        let Ok(pass) = line.open_pass(rt, GLOBAL_ADDRESS) else {
            return Err(TrailFault::NoPass);
        };
        let opened = Snapshot::of(&writer);
        let mut writer = writer;
        let mut text = Text::new();
        let version = version_of(pass.capacity());
        set_header_line(&mut text, version, pass.line());
        let Ok(()) = write_whole(&mut writer, text.as_bytes()) else {
            line.hand_back(rt, pass);
            return Err(TrailFault::WriteFault);
        };
        Ok(Tail {
            line,
            pass,
            writer,
            record: Record::blank(),
            text,
            head: Vec::new(alloc),
            version,
            seen: 0,
            broken: None,
            opened,
        })
    }

    /// Hands the pass back, and returns the writer and the pass. It waits for the line.
    pub fn close<T: Wait>(self, rt: &T) -> (W, ReturnedPass)
        ensures { result ≡ (self.entry.writer, self.entry.pass) }
    {
        let Tail {
            line,
            pass,
            writer,
            ..
        } = self;
        (writer, line.hand_back(rt, pass))
    }

    /// Returns whether the tail has seen the entry of this place. Places count from 1. If the tail is not broken, the text
    /// line of the entry is written.
    pub fn has_row(&self, place: u32) -> bool
        ensures { result ≡ nat_le 1 place && nat_le place self.now.seen }
    {
        0 < place && place <= self.seen
    }

    /// Returns the reason why the trail is broken, or None if it is not broken. A broken trail writes nothing
    /// more.
    pub fn broken(&self) -> Option<TrailBreak>
        ensures { result ≡ self.now.broken }
    {
        self.broken
    }
}

impl<W: WriteParts + Drop> Tail<'_, W> {
    ghost use Rattle.audit_trail.specs.Tails.{IsSameTail};

    /// Writes the text lines of all entries: at its last look the line had only entries that the tail has seen.
    /// It looks at the line once for each text line that it writes, and once if there is none, so at least
    /// once. If a part is due, it then begins the part with the head of the line; if memory for the head is refused, the
    /// part is still due. It waits for the line.
    ///
    /// Returns the reason why the tail is broken. A tail that was broken before is unchanged. A tail breaks now
    /// with `WriteFault` if the text line of the next entry or the head could not be written whole, and with `Overtaken` if
    /// the entry of the next place is forgotten.
    pub fn catch_up<T: Wait>(&mut self, rt: &T) -> Result<(), TrailBreak>
        ensures ok { OnOk result ((self.new.broken ≡ None) × SawAll self.new.pass.view.looks self.new.seen) }
        ensures part { OnOk result (EndsWithPart W.due W.contents self.old.pass.line self.new.seen self.old.pass.view self.new.pass.view self.new.writer) }
        ensures err { IfErr result (λ why. self.new.broken ≡ Some why) }
        ensures breaks { IfErr result (λ why. self.old.broken ≡ None → Breaks why self.old.seen self.new.seen self.new.pass.view.looks) }
        ensures broken { IfSome self.old.broken (λ why. (result ≡ Err why) × (self.new ≡ self.old)) }
        ensures looked { OnOk result (length self.old.pass.view.looks < length self.new.pass.view.looks) }
        ensures grows { self.old.seen ≤ self.new.seen }
        ensures same { IsSameTail self.old self.new }
    {
        for _ in rt.forever() {
            if !self.advance(rt)? {
                return Ok(());
            }
        }
        unreachable!()
    }

    /// Writes the next text line, if there is one, and behind the last one begins a part, if one is due. Returns whether
    /// there are entries that the tail has not seen.
    ///
    /// Returns the reason why the tail is broken, if it was broken before or breaks now.
    fn advance<T: Wait>(&mut self, rt: &T) -> Result<bool, TrailBreak>
        ensures all { result ≡ Ok false → SawAll self.new.pass.view.looks self.new.seen }
        ensures part { result ≡ Ok false → EndsWithPart W.due W.contents self.old.pass.line self.new.seen self.old.pass.view self.new.pass.view self.new.writer }
        ensures no_part { result ≡ Ok true → heads_seen self.new.pass.view.looks ≡ heads_seen self.old.pass.view.looks }
        ensures breaks { MatchResult result (λ _. self.new.broken ≡ None) (λ why. self.new.broken ≡ Some why) }
        ensures cut { self.old.broken ≡ None → IfErr result (λ why. Breaks why self.old.seen self.new.seen self.new.pass.view.looks) }
        ensures broken { IfSome self.old.broken (λ why. (result ≡ Err why) × (self.new ≡ self.old)) }
        ensures looked { IfOk result (λ _. length self.old.pass.view.looks < length self.new.pass.view.looks) }
        ensures grows { self.old.seen ≤ self.new.seen }
        ensures same { IsSameTail self.old self.new }
    {
        if self.step(rt)? {
            return Ok(true);
        }
        self.begin_part(rt)
    }

    /// Begins the next part of the text, if one is due. Returns whether there are entries that the tail has not seen. If
    /// memory for the head is refused, it returns false, and the part is still due: no clause says when that is so.
    ///
    /// Returns the reason why the tail breaks now.
    fn begin_part<T: Wait>(&mut self, rt: &T) -> Result<bool, TrailBreak>
        requires unbroken { self.old.broken ≡ None }
        requires all { SawAll self.old.pass.view.looks self.old.seen }
        ensures part { BeginsPart result (W.due self.old.writer) self.old.pass.line self.old.seen self.old.pass.view self.new.pass.view
            (W.contents self.old.writer) (W.contents self.new.writer) }
        ensures all { result ≡ Ok false → SawAll self.new.pass.view.looks self.new.seen }
        ensures breaks { MatchResult result (λ _. self.new.broken ≡ None) (λ why. self.new.broken ≡ Some why) }
        ensures cut { IfErr result (λ why. Breaks why self.new.seen self.new.seen self.new.pass.view.looks) }
        ensures seen { self.new.seen ≡ self.old.seen }
        ensures looked { length self.old.pass.view.looks ≤ length self.new.pass.view.looks }
        ensures same { IsSameTail self.old self.new }
    {
        match begin_next_part(
            rt,
            self.line,
            &mut self.pass,
            self.seen,
            &mut self.head,
            &mut self.text,
            &mut self.writer,
        ) {
            NextPart::NotDue => Ok(false),
            NextPart::NoMemory => Ok(false),
            NextPart::NotYet => Ok(true),
            NextPart::Begun => Ok(false),
            NextPart::Cut => {
                self.broken = Some(TrailBreak::WriteFault);
                Err(TrailBreak::WriteFault)
            }
        }
    }

    /// Writes the next text line, if there is one, and returns whether there are entries after it.
    ///
    /// Returns the reason why the tail is broken, if it was broken before or breaks now: the text line could
    /// not be written whole, or its entry is forgotten.
    fn step<T: Wait>(&mut self, rt: &T) -> Result<bool, TrailBreak>
        ensures steps { self.old.broken ≡ None → Steps result self.old.seen self.new.seen self.old.pass.view self.new.pass.view
            (W.contents self.old.writer) (W.contents self.new.writer) }
        ensures breaks { MatchResult result (λ _. self.new.broken ≡ None) (λ why. self.new.broken ≡ Some why) }
        ensures broken { IfSome self.old.broken (λ why. (result ≡ Err why) × (self.new ≡ self.old)) }
        ensures looked { IfOk result (λ _. length self.old.pass.view.looks < length self.new.pass.view.looks) }
        ensures same { IsSameTail self.old self.new }
    {
        if let Some(why) = self.broken {
            return Err(why);
        }
        let Some(place) = self.seen.checked_add(1) else {
            look_aside(rt, self.line, &mut self.pass);
            return Ok(false);
        };
        match write_next(
            rt,
            self.line,
            &mut self.pass,
            &mut self.record,
            &mut self.text,
            &mut self.writer,
            place,
        ) {
            Next::Nothing => Ok(false),
            Next::Row => {
                self.seen = place;
                Ok(true)
            }
            Next::LastRow => {
                self.seen = place;
                Ok(false)
            }
            Next::Cut => {
                self.seen = place;
                self.broken = Some(TrailBreak::WriteFault);
                Err(TrailBreak::WriteFault)
            }
            Next::Gone => {
                self.broken = Some(TrailBreak::Overtaken);
                Err(TrailBreak::Overtaken)
            }
        }
    }
}
