// Document 02, No. 6: the station log. Good messages of numbers 04 to 08 in memory that the host
// lends, each with its length behind it, so that the log is read from its end backwards. No. 7:
// making room in it.
#![tactic(auto)]

ghost use Rattle.std.specs.Prelude.{◌≡◌, true, false, [], ◌+◌, ◌≤◌, ◌<◌, eqb, length, get_or, take, drop, set, replicate, MatchOption, MatchResult};
ghost use Rattle.standard.specs.Words.{byte, laid};
ghost use Rattle.standard.specs.Messages.{is_status};
ghost use Rattle.standard.specs.Questions.{Answered};
ghost use Rattle.standard.specs.Refusals.{number_in, written_in};
ghost use Rattle.standard.specs.declared.Refusal.TheVariants.{BeyondLog, LogNotSound};
ghost use Rattle.station_log.specs.Log.{record_of, sound, about, newest_of, beyond, log_refusal, found_of, keep_refusal, Keeps};
ghost use Rattle.station_log.specs.Answers.{part_in, none_in, Finds};
ghost use Rattle.station_log.specs.Places.{Ends, EndsWithNone, found_in};
ghost use Rattle.station_log.specs.Room.{MakesRoom};
ghost use Rattle.station_log.specs.Cells.{cells_most, any_zero, is_new, noted, places_in, record_at, records_at, Apart};

use standard::Refusal;

// "a lent buffer of at most 64 KiB"
pub const LOG_MOST: usize = 65536;

// Where a record stands in a log, its trailer with it.
#[derive(Clone, Copy)]
pub struct Found {
    pub at: usize,
    pub length: usize,
}

// ---- reading back

// The record at the end of a log: the bytes before it, and its message.
fn last_record(log: &[u8]) -> Option<(&[u8], &[u8])>
    ensures { MatchOption result (EndsWithNone log.now) (λ p. Ends log.now p.0.now p.1.now) }
{
    let (&trailer, before) = log.split_last()?;
    let start = before.len().checked_sub(trailer as usize)?;
    let (older, message) = before.split_at(start);
    if messages::is_status(message) {
        Some((older, message))
    } else {
        None
    }
}

// The walk back has to come to the beginning.
#[tactic(auto, using(crate::proofs::Backwards::sound_back, crate::proofs::Backwards::sound_at_end))]
fn check_sound(log: &[u8]) -> Result<(), Refusal>
    ensures { MatchResult result (λ done. sound log.now ≡ true) (λ refusal. (sound log.now ≡ false) × (refusal ≡ LogNotSound)) }
{
    let mut left = log;
    while let Some((older, _)) = last_record(left) {
        left = older;
    }
    if left.is_empty() {
        Ok(())
    } else {
        Err(Refusal::LogNotSound)
    }
}

// "04h of that zone, or 05h covering it"
#[tactic(auto, unfolding(crate::specs::Log::about))]
fn is_about(zone: u8, message: &[u8]) -> bool
    requires { 2 ≤ length message.now }
    ensures { result ≡ about zone message.now }
{
    let first = message[1];
    match message[0] % 64 {
        0x04 => first == zone,
        0x05 => first <= zone && zone - first <= 15,
        _ => false,
    }
}

// The newest record about a zone, of bytes that are all used. What is older than the record that was
// found is walked through as well: the log may yet not be sound.
#[tactic(auto, using(standard::proofs::Status::status_length_lem, crate::proofs::Finding::found_other))]
fn newest_in(log: &[u8], zone: u8) -> Result<Option<Found>, Refusal>
    ensures { Finds (found_in log.now zone) result }
{
    let mut rest = log;
    while let Some((older, message)) = last_record(rest) {
        if is_about(zone, message) {
            check_sound(older)?;
            return Ok(Some(Found {
                at: older.len(),
                length: rest.len() - older.len(),
            }));
        }
        rest = older;
    }
    check_sound(rest)?;
    Ok(None)
}

// ---- the calls

// "beyond the buffer or above 65,536"
fn is_beyond(log: &[u8], end: usize) -> bool
    ensures { result ≡ beyond log.now end }
{
    log.len() < end || LOG_MOST < end
}

// The bytes of a buffer that are used.
fn used_part(log: &[u8], used: usize) -> Result<&[u8], Refusal>
    ensures { MatchResult result (λ part. (beyond log.now used ≡ false) × (part.now ≡ take used log.now)) (λ refusal. (beyond log.now used ≡ true) × (refusal ≡ BeyondLog)) }
{
    if is_beyond(log, used) {
        Err(Refusal::BeyondLog)
    } else {
        Ok(&log[..used])
    }
}

// Where the newest record about a zone stands; None where the log has none.
pub fn find(log: &[u8], used: usize, zone: u8) -> Result<Option<Found>, Refusal>
    ensures { Finds (found_of log.now used zone) result }
{
    newest_in(used_part(log, used)?, zone)
}

// The newest record about a zone, "handed out as that part of the log itself".
pub fn newest<'a>(log: &'a [u8], used: usize, zone: u8) -> Result<Option<&'a [u8]>, Refusal>
    ensures part { Answered [] (log_refusal log.now used) (newest_of (take used log.now) zone) (number_in result) (part_in result) }
    ensures none { none_in result ≡ eqb (found_of log.now used zone).length 0 }
{
    let Some(Found { at, length }) = find(log, used, zone)? else {
        return Ok(None);
    };
    Ok(Some(&log[at..at + length]))
}

// What refuses a message: 16, 17, 4, 6, 7, 8, 18, 9.
fn check_keep(log: &[u8], used: usize, message: &[u8]) -> Result<(), Refusal>
    ensures { number_in result ≡ keep_refusal log.now used message.now }
{
    check_sound(used_part(log, used)?)?;
    messages::check(message)?;
    if !messages::is_status(message) {
        return Err(Refusal::NotKept);
    }
    let end = used + message.len() + 1;
    if is_beyond(log, end) {
        Err(Refusal::NoRoom)
    } else {
        Ok(())
    }
}

// The record, at a place.
fn put(log: &mut [u8], place: usize, message: &[u8])
    requires { (length message.now ≤ 255) × (place + length message.now < length log.old) }
    ensures { log.new ≡ laid log.old place (record_of message.now) }
{
    let last = place + message.len();
    log[place..last].copy_from_slice(message);
    log[last] = message.len() as u8;
}

// Keeps a message. The length that is said is that of the record, to be added to the used one.
pub fn keep(log: &mut [u8], used: usize, message: &[u8]) -> Result<usize, Refusal>
    ensures { Keeps log.old used message.now (written_in result) log.new }
{
    check_keep(log, used, message)?;
    put(log, used, message);
    Ok(message.len() + 1)
}

// ---- making room

// What later records write is remembered in cells: of a record that stays, one at least was not
// written yet. So no more records stay than there are cells.
const CELLS: usize = 522;

// Where the cells of each kind begin: one for each zone's own bytes, from the first cell on, for each
// zone's short flags, for each partition, for all partitions' short bytes, and for the system.
const SHORT_FLAGS: usize = 256;

const PARTITIONS: usize = 512;

const SHORT_BYTES: usize = 520;

const SYSTEM: usize = 521;

// Writes a cell, and says whether it was not written yet.
fn mark(cells: &mut [u8], cell: usize) -> bool
    requires { cell < length cells.old }
    ensures value { result ≡ eqb (get_or cells.old cell 0) 0 }
    ensures cells_after { cells.new ≡ set cells.old cell 1 }
{
    let is_new = cells[cell] == 0;
    cells[cell] = 1;
    is_new
}

// Writes some cells, and says whether one of them was not written yet.
#[tactic(auto, unfolding(crate::specs::Cells::any_zero))]
fn fill(cells: &mut [u8]) -> bool
    ensures value { result ≡ any_zero cells.old }
    ensures cells_after { cells.new ≡ replicate (length cells.old) 1 }
{
    let is_new = cells.contains(&0);
    cells.fill(1);
    is_new
}

// Notes what a record writes, and says whether it stays. 04h writes a zone's short flags too, but who
// writes a zone's own bytes later writes those as well.
fn note(cells: &mut [u8], message: &[u8]) -> bool
    requires cells_len { length cells.old ≡ cells_most }
    requires message_value { is_status message.now ≡ true }
    ensures value { result ≡ is_new cells.old message.now }
    ensures cells_after { cells.new ≡ noted cells.old message.now }
{
    let on = message[1] as usize;
    match message[0] % 64 {
        0x04 => {
            let is_new = mark(cells, on);
            cells[SHORT_FLAGS + on] = 1;
            is_new
        }
        0x05 => {
            let first = SHORT_FLAGS + on;
            fill(&mut cells[first..first + 16])
        }
        0x06 => mark(cells, PARTITIONS + on),
        0x07 => mark(cells, SHORT_BYTES),
        _ => mark(cells, SYSTEM),
    }
}

// Walks back through a log, and hands out the places of the trailers of those records that stay, the
// newest last: the end of `places`.
fn walk<'a>(log: &[u8], places: &'a mut [u16; CELLS]) -> Result<&'a [u16], Refusal>
    requires { length log.now ≤ 65536 }
    ensures { MatchResult result (λ stay. (sound log.now ≡ true) × (stay.now ≡ places_in log.now)) (λ refusal. (sound log.now ≡ false) × (refusal ≡ LogNotSound)) }
{
    let mut cells = [0; CELLS];
    let mut first = CELLS;
    let mut rest = log;
    while let Some((older, message)) = last_record(rest) {
        if note(&mut cells, message) {
            first -= 1;
            places[first] = (rest.len() - 1) as u16;
        }
        rest = older;
    }
    check_sound(rest)?;
    Ok(&places[first..])
}

// Moves the record whose trailer stands at a place down to another, and says where it ends there.
fn move_record(log: &mut [u8], to: usize, last: usize) -> usize
    requires { (last < length log.old) × (to + get_or log.old last 0 ≤ last) }
    ensures value { result ≡ to + (get_or log.old last 0 + 1) }
    ensures log_after { log.new ≡ laid log.old to (record_at log.old last) }
{
    let length = log[last] as usize;
    log.copy_within(last - length..last + 1, to);
    to + (length + 1)
}

// Moves the records at some places to the beginning, in their order, and says how many bytes they are.
fn close_up(log: &mut [u8], places: &[u16]) -> usize
    requires { Apart log.old 0 places.now }
    ensures value { result ≡ length (records_at log.old places.now) }
    ensures log_after { log.new ≡ laid log.old 0 (records_at log.old places.now) }
{
    let mut to = 0;
    for &last in places {
        to = move_record(log, to, last as usize);
    }
    to
}

// Makes a log smaller where it stands. The length that is said is what was won, to be taken from the
// used one. Nothing moves before the walk has come to the beginning.
pub fn make_room(log: &mut [u8], used: usize) -> Result<usize, Refusal>
    ensures { MakesRoom log.old used (written_in result) log.new }
{
    let mut places = [0; CELLS];
    let stay = walk(used_part(log, used)?, &mut places)?;
    let left = close_up(log, stay);
    Ok(used - left)
}
