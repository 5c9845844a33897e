// What C calls: include/nx584.h. Numbers, byte slices and structs of numbers cross, no enum.
#![tactic(auto)]

ghost use Rattle.std.specs.Prelude.{◌≡◌, [], ◌∷◌, ◌≤◌, length, take, drop, replicate};
ghost use Rattle.standard.specs.Words.{laid};
ghost use Rattle.std.proofs.Math.Option.{get_or};
ghost use Rattle.std.specs.Float.{nan};
ghost use Rattle.standard.specs.declared.Escapes.TheVariants.{Strict, Lenient};
ghost use Rattle.standard.specs.Refusals.{written_in};
ghost use Rattle.standard.specs.Messages.{longest_known};
ghost use Rattle.station_log.specs.Answers.{place_in};
ghost use Rattle.table.specs.Answers.{part_in};
ghost use Rattle.grid.specs.Grid.{gridded_in};
ghost use Rattle.standard.specs.Replies.{reply_of};
ghost use Rattle.standard.specs.Table.{Applied};
ghost use Rattle.standard.specs.Overview.{seen_of, share_number, group_values};
ghost use Rattle.reader.specs.Step.{framing_of};
ghost use Rattle.commands.specs.Commands.{ended_number, answer_of, after, take_of, tick_of, told_of};
ghost use Rattle.station_log.specs.Log.{found_of};
ghost use Rattle.nx584.specs.Line.{c_answer};
ghost use Rattle.nx584.specs.Station.{c_found, CKeeps, CMakesRoom};
ghost use Rattle.nx584.specs.Maps.{level_for, c_gridded, CGrids};
ghost use Rattle.nx584.specs.Records.{c_zone, c_partition, c_system};
ghost use Rattle.nx584.specs.Boundary.{framing_for, escapes_for, escapes_number, framing_number, mode_number, digit_number, mode_for, c_fresh, mode_ok, numbers_said, c_reading, c_read, CHears, c_written, CWrote, c_group, c_overview};
ghost use Rattle.nx584.specs.Scan.{CScans};

use commands::{Ended, Sending, Slot};
use grid::{Gridded, Level};
use reader::{MOST, Mode};
use standard::{Escapes, Framing, Group, Refusal, Share, Verdict};
use station_log::Found;

// NX584_VERSION: of the header that this library goes with.
const VERSION: u32 = 6;

// NX584_LONGEST: the most bytes of a message that is read.
const LONGEST: usize = standard::LONGEST;

// NX584_STRICT and NX584_LENIENT.
const STRICT: u8 = 0;

const LENIENT: u8 = 1;

// A reader: framing 0 is binary, any other ASCII; mode 0 skipping, 1 in a frame, 2 after a 7Dh,
// 3 a digit pending; escapes 0 is strict, any other the old rule.
#[repr(C)]
#[derive(Clone, Copy)]
pub struct CReader {
    pub framing: u8,
    pub mode: u8,
    pub digit: u8,
    pub held: u16,
    pub bytes: [u8; MOST],
    pub escapes: u8,
}

// A read: the verdict or 255, the type byte or 0, the message and zeros.
#[repr(C)]
#[derive(Clone, Copy)]
pub struct CReading {
    pub reader: CReader,
    pub used: usize,
    pub verdict: u8,
    pub type_byte: u8,
    pub length: u8,
    pub message: [u8; LONGEST],
}

// What a read says beside the next reader: how many bytes it used, and the verdict's numbers.
#[derive(Clone, Copy)]
struct CSaid {
    used: usize,
    verdict: Verdict,
}

// The writer's answer.
#[repr(C)]
#[derive(Clone, Copy)]
pub struct CWritten {
    pub number: u8,
    pub length: usize,
}

// Where a record stands in a log, and its length; both 0 where there is none.
#[repr(C)]
#[derive(Clone, Copy)]
pub struct CFound {
    pub number: u8,
    pub at: usize,
    pub length: usize,
}

// How many bytes of the header's buffer and of the cells' are a grid's; both 0 where it was refused.
#[repr(C)]
#[derive(Clone, Copy)]
pub struct CGridded {
    pub number: u8,
    pub header: usize,
    pub cells: usize,
}

// The counts of a group or of the site; where known is 0 the share is a NaN.
#[repr(C)]
#[derive(Clone, Copy)]
pub struct CGroup {
    pub heard: u16,
    pub faulted: u16,
    pub known: u8,
    pub share: f64,
}

// The overview.
#[repr(C)]
#[derive(Clone, Copy)]
pub struct COverview {
    pub number: u8,
    pub groups: [CGroup; 16],
    pub site: CGroup,
}

// A read, the reply to its verdict, and the message put into the table.
#[repr(C)]
#[derive(Clone, Copy)]
pub struct CHearing {
    pub reader: CReader,
    pub used: usize,
    pub verdict: u8,
    pub type_byte: u8,
    pub reply: u8,
    pub length: u8,
    pub message: [u8; LONGEST],
}

// A zone's record: number 0 or 11, mark, short flags, and the bytes from mask to condition flags 2.
#[repr(C)]
#[derive(Clone, Copy)]
pub struct CZone {
    pub number: u8,
    pub mark: u8,
    pub flags: u8,
    pub bytes: [u8; 6],
}

// A partition's record: number 0, 11 or 8, mark, short byte, and the seven bytes of 06h.
#[repr(C)]
#[derive(Clone, Copy)]
pub struct CPartition {
    pub number: u8,
    pub mark: u8,
    pub flags: u8,
    pub bytes: [u8; 7],
}

// The system record: number 0 or 11, mark, and the eleven bytes of 08h.
#[repr(C)]
#[derive(Clone, Copy)]
pub struct CSystem {
    pub number: u8,
    pub mark: u8,
    pub bytes: [u8; 11],
}

// What a call on the line of commands answers: 0 or the refusal's number, how the front ended, and
// the message that goes out, zero beyond its length.
#[repr(C)]
#[derive(Clone, Copy)]
pub struct CSending {
    pub number: u8,
    pub ended: u8,
    pub length: u8,
    pub message: [u8; commands::LONGEST_COMMAND],
}

// "A refused call's counts and lengths are 0."

const NOTHING_SENT: Sending = Sending {
    ended: None,
    length: 0,
    message: [0; commands::LONGEST_COMMAND],
};

impl From<Result<usize, Refusal>> for CWritten {
    ghost from_gives = { λ w c. c ≡ c_written (written_in w) };

    fn from(written: Result<usize, Refusal>) -> CWritten {
        CWritten {
            number: standard::number_of(written),
            length: written.unwrap_or(0),
        }
    }
}

impl From<Result<Option<Found>, Refusal>> for CFound {
    ghost from_gives = { λ f c. c ≡ c_found (place_in f) };

    fn from(found: Result<Option<Found>, Refusal>) -> CFound {
        let number = standard::number_of(found);
        match found {
            Ok(Some(Found { at, length })) => CFound { number, at, length },
            _ => CFound {
                number,
                at: 0,
                length: 0,
            },
        }
    }
}

impl From<Result<Gridded, Refusal>> for CGridded {
    ghost from_gives = { λ g c. c ≡ c_gridded (gridded_in g) };

    fn from(gridded: Result<Gridded, Refusal>) -> CGridded {
        match gridded {
            Ok(Gridded { header, cells }) => CGridded {
                number: 0,
                header,
                cells,
            },
            Err(refusal) => CGridded {
                number: refusal.number(),
                header: 0,
                cells: 0,
            },
        }
    }
}

impl From<Group> for CGroup {
    ghost from_gives = { λ g c. c ≡ c_group (group_values g) };

    fn from(group: Group) -> CGroup {
        CGroup {
            heard: group.heard,
            faulted: group.faulted,
            known: if group.heard == 0 { 0 } else { 1 },
            share: share_number(group.share),
        }
    }
}

impl From<Result<Sending, Refusal>> for CSending {
    ghost from_gives = { λ s c. c_answer c ≡ answer_of s };

    fn from(sending: Result<Sending, Refusal>) -> CSending {
        let number = standard::number_of(sending);
        let Sending {
            ended,
            length,
            message,
        } = sending.unwrap_or(NOTHING_SENT);
        CSending {
            number,
            ended: ended_number(ended),
            length,
            message,
        }
    }
}

// The numbers of framings, rules, modes, shares and endings are functions: an `impl From` of another
// crate's type for a number would have to stand in that crate.

fn framing_for(framing: u8) -> Framing
    ensures { result ≡ framing_for framing }
{
    if framing == 0 {
        Framing::Binary
    } else {
        Framing::Ascii
    }
}

fn framing_number(framing: Framing) -> u8
    ensures { result ≡ framing_number framing }
{
    match framing {
        Framing::Binary => 0,
        Framing::Ascii => 1,
    }
}

fn escapes_for(escapes: u8) -> Escapes
    ensures { result ≡ escapes_for escapes }
{
    if escapes == STRICT {
        Escapes::Strict
    } else {
        Escapes::Lenient
    }
}

fn escapes_number(escapes: Escapes) -> u8
    ensures { result ≡ escapes_number escapes }
{
    match escapes {
        Escapes::Strict => STRICT,
        Escapes::Lenient => LENIENT,
    }
}

// A share that was not heard: C has no case without a number, and a NaN at least poisons sums.
fn share_number(share: Share) -> f64
    ensures { result ≡ get_or (share_number share) nan }
{
    match share {
        Share::Share(x) => x,
        Share::NotHeard => f64::NAN,
    }
}

// How the front ended; 0: it did not.
fn ended_number(ended: Option<Ended>) -> u8
    ensures { result ≡ ended_number ended }
{
    match ended {
        Some(ended) => ended as u8,
        None => 0,
    }
}

// The level that is so many cells wide.
#[tactic(auto, unfolding(crate::specs::Maps::level_for))]
fn level_for(width: u8) -> Option<Level>
    ensures { result ≡ level_for width }
{
    match width {
        16 => Some(Level::Sixteen),
        8 => Some(Level::Eight),
        4 => Some(Level::Four),
        2 => Some(Level::Two),
        1 => Some(Level::One),
        _ => None,
    }
}

// The verdict's numbers; 255 for none.
fn numbers(said: Option<Verdict>) -> Verdict
    ensures { result ≡ numbers_said said }
{
    said.unwrap_or(Verdict {
        number: 255,
        type_byte: 0,
        length: 0,
    })
}

// A part of a buffer, over as many zeros as the array has bytes.
fn array_of<const N: usize>(part: &[u8]) -> [u8; N]
    requires { length part.now ≤ N }
    ensures { result ≡ laid (replicate N 0) 0 part.now }
{
    let mut array = [0; N];
    array[..part.len()].copy_from_slice(part);
    array
}

// The bytes of a part that a table answers; a refused question has none.
fn bytes_of(part: Result<&[u8], Refusal>) -> &[u8]
    ensures { result.now ≡ part_in part.entry }
{
    part.unwrap_or(&[])
}

// A read that is refused: no byte is used.
fn refused(number: u8) -> CSaid
    ensures { result ≡ record { used = 0; verdict = record { number = number; type_byte = 0; length = 0 } } }
{
    CSaid {
        used: 0,
        verdict: Verdict {
            number,
            type_byte: 0,
            length: 0,
        },
    }
}

impl CReader {
    // Whether the numbers are a mode's: the rest of the soundness is document 01's.
    fn mode_ok(&self) -> bool
        ensures { result ≡ mode_ok self.now.mode self.now.digit }
    {
        match self.mode {
            0..=2 => true,
            3 => self.digit <= 15,
            _ => false,
        }
    }

    fn mode(&self) -> Mode
        ensures { result ≡ mode_for (framing_for self.now.framing) self.now.mode self.now.digit }
    {
        let framing = framing_for(self.framing);
        match (framing, self.mode) {
            (_, 0) => Mode::Skipping(framing),
            (Framing::Binary, 2) => Mode::Escape,
            (Framing::Ascii, 3) => Mode::Digit(self.digit),
            _ => Mode::Open(framing),
        }
    }

    fn set_mode(&mut self, mode: Mode)
        ensures { self.new ≡ record { framing = framing_number (framing_of mode); mode = mode_number mode; digit = digit_number mode; held = self.old.held; bytes = self.old.bytes; escapes = self.old.escapes } }
    {
        let (framing, number, digit) = match mode {
            Mode::Skipping(framing) => (framing_number(framing), 0, 0),
            Mode::Open(framing) => (framing_number(framing), 1, 0),
            Mode::Escape => (0, 2, 0),
            Mode::Digit(digit) => (1, 3, digit),
        };
        self.framing = framing;
        self.mode = number;
        self.digit = digit;
    }

    // A read, after which this is the next reader: it is many bytes, and each copy of it would cost a
    // call of one byte as much as the byte. One that is not sound gets 12, and stays.
    fn scan(&mut self, bytes: &[u8]) -> CSaid
        ensures { CScans self.old bytes.now result self.new }
    {
        if !self.mode_ok() {
            return refused(12);
        }
        let from = self.mode();
        let by = escapes_for(self.escapes);
        let scanned = reader::scan(by, from, self.held as usize, &mut self.bytes, bytes);
        let verdict = numbers(scanned.said);
        if verdict.number == 12 {
            return refused(12);
        }
        self.set_mode(scanned.mode);
        self.held = scanned.held as u16;
        CSaid {
            used: scanned.used,
            verdict,
        }
    }

    // The message of so many bytes, which stands in the frame after its length byte.
    fn message(&self, length: u8) -> &[u8]
        requires { length ≤ longest_known }
        ensures { result.now ≡ take length (drop 1 self.now.bytes) }
    {
        &self.bytes[1..length as usize + 1]
    }
}

// A read. Most calls hand out no message: theirs is zero where the answer goes back, and is not
// copied. Inlined, since a call would copy the whole answer once more.
#[inline(always)]
fn read(mut reader: CReader, bytes: &[u8]) -> CReading
    ensures { result ≡ c_reading (c_read reader bytes.now) }
{
    let said = reader.scan(bytes);
    let verdict = said.verdict;
    CReading {
        reader,
        used: said.used,
        verdict: verdict.number,
        type_byte: verdict.type_byte,
        length: verdict.length,
        message: if verdict.length == 0 {
            [0; LONGEST]
        } else {
            array_of(reader.message(verdict.length))
        },
    }
}

// `Reader::fresh` and `Reader::fresh_lenient` in numbers.
fn fresh(escapes: Escapes, framing: u8) -> CReader
    ensures { result ≡ c_fresh escapes framing }
{
    CReader {
        framing: framing_number(framing_for(framing)),
        mode: 0,
        digit: 0,
        held: 0,
        bytes: [0; MOST],
        escapes: escapes_number(escapes),
    }
}

// A reader that has read nothing, with the strict rule of escapes.
#[unsafe(no_mangle)]
pub extern "C" fn nx584_fresh(framing: u8) -> CReader
    ensures { result ≡ c_fresh Strict framing }
{
    fresh(Escapes::Strict, framing)
}

// The same with the old rule.
#[unsafe(no_mangle)]
pub extern "C" fn nx584_fresh_lenient(framing: u8) -> CReader
    ensures { result ≡ c_fresh Lenient framing }
{
    fresh(Escapes::Lenient, framing)
}

// Up to and including the first verdict's byte, or to the end.
#[unsafe(no_mangle)]
pub extern "C" fn nx584_read(reader: CReader, bytes: &[u8]) -> CReading
    ensures { result ≡ c_reading (c_read reader bytes.now) }
{
    read(reader, bytes)
}

// A read of one byte.
#[unsafe(no_mangle)]
pub extern "C" fn nx584_step(reader: CReader, byte: u8) -> CReading
    ensures { result ≡ c_reading (c_read reader (byte ∷ [])) }
{
    read(reader, &[byte])
}

// The frame of a message, into the part of `out` that starts at `place`.
#[unsafe(no_mangle)]
pub extern "C" fn nx584_write(message: &[u8], framing: u8, out: &mut [u8], place: usize) -> CWritten
    ensures { CWrote message.now framing out.old place result out.new }
{
    CWritten::from(writer::write(message, framing_for(framing), out, place))
}

// The number of the message with which a host answers a verdict; 0: none.
#[unsafe(no_mangle)]
pub extern "C" fn nx584_reply(verdict: u8, type_byte: u8) -> u8
    ensures { result ≡ reply_of verdict type_byte }
{
    standard::reply_number(replies::reply(verdict, type_byte))
}

// A message into a table.
#[unsafe(no_mangle)]
pub extern "C" fn nx584_apply(table: &mut [u8], message: &[u8]) -> u8
    ensures { Applied table.old message.now result table.new }
{
    standard::number_of(table::apply(table, message))
}

// The sixteen groups and the site of a table.
#[unsafe(no_mangle)]
pub extern "C" fn nx584_view(table: &[u8]) -> COverview
    ensures { result ≡ c_overview (seen_of table.now) }
{
    match overview::view(table) {
        Ok(seen) => {
            let site = CGroup::from(seen.site);
            let mut groups = [site; 16];
            for (index, place) in groups.iter_mut().enumerate() {
                *place = CGroup::from(seen.groups[index]);
            }
            COverview {
                number: 0,
                groups,
                site,
            }
        }
        Err(refusal) => {
            let none = CGroup::from(overview::with_share(0, 0));
            COverview {
                number: refusal.number(),
                groups: [none; 16],
                site: none,
            }
        }
    }
}

// A read, the reply to its verdict, and a good message put into the table.
#[unsafe(no_mangle)]
pub extern "C" fn nx584_hear(mut reader: CReader, table: &mut [u8], bytes: &[u8]) -> CHearing
    ensures { CHears reader table.old bytes.now result table.new }
{
    let said = match table::check(table) {
        Ok(()) => reader.scan(bytes),
        Err(refusal) => refused(refusal.number()),
    };
    let verdict = said.verdict;
    let message = reader.message(verdict.length);
    if verdict.number == 0 {
        table::store(table, message);
    }
    CHearing {
        reader,
        used: said.used,
        verdict: verdict.number,
        type_byte: verdict.type_byte,
        reply: nx584_reply(verdict.number, verdict.type_byte),
        length: verdict.length,
        message: array_of(message),
    }
}

// What a table says of a zone.
#[unsafe(no_mangle)]
pub extern "C" fn nx584_zone(table: &[u8], zone: u8) -> CZone
    ensures { result ≡ c_zone table.now zone }
{
    let part = table::zone_part(table, zone);
    CZone {
        number: standard::number_of(part),
        mark: table::zone_mark(table, zone).unwrap_or(0),
        flags: table::zone_short(table, zone).unwrap_or(0),
        bytes: array_of(bytes_of(part)),
    }
}

// What a table says of a partition.
#[unsafe(no_mangle)]
pub extern "C" fn nx584_partition(table: &[u8], partition: u8) -> CPartition
    ensures { result ≡ c_partition table.now partition }
{
    let part = table::partition_part(table, partition);
    let record = array_of::<9>(bytes_of(part));
    CPartition {
        number: standard::number_of(part),
        mark: record[0],
        flags: record[8],
        bytes: array_of(&record[1..8]),
    }
}

// What a table says of the system.
#[unsafe(no_mangle)]
pub extern "C" fn nx584_system(table: &[u8]) -> CSystem
    ensures { result ≡ c_system table.now }
{
    let part = table::system_part(table);
    let record = array_of::<12>(bytes_of(part));
    CSystem {
        number: standard::number_of(part),
        mark: record[0],
        bytes: array_of(&record[1..12]),
    }
}

// A command is taken.
#[unsafe(no_mangle)]
pub extern "C" fn nx584_take(slots: &mut [Slot], message: &[u8]) -> CSending
    ensures { after (c_answer result) slots.new ≡ take_of message.now slots.old }
{
    CSending::from(slots::take(slots, message))
}

// Half a second passes.
#[unsafe(no_mangle)]
pub extern "C" fn nx584_tick(slots: &mut [Slot]) -> CSending
    ensures { after (c_answer result) slots.new ≡ tick_of slots.old }
{
    CSending::from(slots::tick(slots))
}

// A message was heard.
#[unsafe(no_mangle)]
pub extern "C" fn nx584_told(slots: &mut [Slot], message: &[u8]) -> CSending
    ensures { after (c_answer result) slots.new ≡ told_of message.now slots.old }
{
    CSending::from(slots::told(slots, message))
}

// To compare with NX584_VERSION.
#[unsafe(no_mangle)]
pub extern "C" fn nx584_version() -> u32
    ensures { result ≡ 6 }
{
    VERSION
}

// A message into the log.
#[unsafe(no_mangle)]
pub extern "C" fn nx584_keep(log: &mut [u8], used: usize, message: &[u8]) -> CWritten
    ensures { CKeeps log.old used message.now result log.new }
{
    CWritten::from(station_log::keep(log, used, message))
}

// The log made smaller where it stands.
#[unsafe(no_mangle)]
pub extern "C" fn nx584_make_room(log: &mut [u8], used: usize) -> CWritten
    ensures { CMakesRoom log.old used result log.new }
{
    CWritten::from(station_log::make_room(log, used))
}

// The newest record about a zone.
#[unsafe(no_mangle)]
pub extern "C" fn nx584_newest(log: &[u8], used: usize, zone: u8) -> CFound
    ensures { result ≡ c_found (found_of log.now used zone) }
{
    CFound::from(station_log::find(log, used, zone))
}

// A level of the zone map, by its width; one that names none is 8, after 11.
#[unsafe(no_mangle)]
pub extern "C" fn nx584_grid(
    table: &[u8],
    width: u8,
    header: &mut [u8],
    cells: &mut [u8],
) -> CGridded
    ensures { CGrids table.now width header.old cells.old result header.new cells.new }
{
    match level_for(width) {
        Some(level) => CGridded::from(grid::grid(table, level, header, cells)),
        None => CGridded::from(table::check(table).and(Err(Refusal::Value))),
    }
}
