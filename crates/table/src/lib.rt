// Document 01, "The table": 256 zone records of 8 bytes, 8 partition records of 9 and the system
// record of 12, in memory that the host lends. A message is applied to it, and questions about it
// are answered; only this crate knows where a record stands.
#![tactic(auto)]

ghost use Rattle.std.specs.Prelude.{◌≡◌, true, cond, ◌&&◌, ◌+◌, ◌≤◌, ◌<◌, eqb, leb, length, get_or, take, drop};
ghost use mathlib.Core.List.{[], flat_map};
ghost use Rattle.standard.specs.Words.{byte, up_to};
ghost use Rattle.standard.specs.Refusals.{number_in, value_in};
ghost use Rattle.standard.specs.Messages.{is_status};
ghost use Rattle.standard.specs.Table.{table_bytes, is_table, zone_place, partition_place, fresh, zone_mark, zone_short, heard_zone, short_from, zone_writes, short_writes, partition_writes, partition_short, system_writes, done_all, applied_to, Applied};
ghost use Rattle.standard.specs.Questions.{table_refusal, partition_refusal, zone_part, partition_part, system_part, Answered};
ghost use Rattle.table.specs.Answers.{part_in};

use standard::Refusal;

// "2,132 bytes: 256 zone records of 8, then 8 partition records of 9, then the system record of 12."
pub const TABLE_BYTES: usize = 2132;

// A whole table.
type Table = [u8; TABLE_BYTES];

// Where the system record begins.
const SYSTEM_PLACE: usize = 2120;

// "All zero is fresh."
#[tactic(auto, unfolding(standard::specs::Table::fresh))]
pub fn fresh() -> [u8; TABLE_BYTES]
    ensures { result ≡ fresh }
{
    [0; TABLE_BYTES]
}

// Where a zone's record begins.
fn zone_place(zone: usize) -> usize
    requires { zone < 256 }
    ensures { result ≡ zone_place zone }
{
    8 * zone
}

// Where a partition's record begins.
fn partition_place(partition: usize) -> usize
    requires { partition < 256 }
    ensures { result ≡ partition_place partition }
{
    2048 + 9 * partition
}

// Whether some bytes are a table, or why not: "table buffer is not 2,132 bytes".
#[tactic(auto, unfolding(standard::specs::Questions::table_refusal))]
pub fn check(table: &[u8]) -> Result<(), Refusal>
    ensures { number_in result ≡ table_refusal table.now }
{
    if table.len() == TABLE_BYTES {
        Ok(())
    } else {
        Err(Refusal::NoTable)
    }
}

// "Partition at most 7".
fn check_partition(partition: u8) -> Result<(), Refusal>
    ensures { number_in result ≡ cond (leb partition 7) 0 8 }
{
    if partition <= 7 {
        Ok(())
    } else {
        Err(Refusal::Value)
    }
}

// A flag, where one of some bits is set.
fn flag(bits: u8, flag: u8) -> u8
    ensures { result ≡ cond (eqb bits 0) 0 flag }
{
    if bits == 0 { 0 } else { flag }
}

// A zone's short flags from its condition flags: bypass "from bit 3 or 4", trouble "from bit 1, 2,
// 5 or 6".
fn short_from(c1: u8, c2: u8) -> u8
    ensures { result ≡ short_from c1 c2 }
{
    c1 % 2 + flag(c1 & 0x18, 2) + flag(c1 & 0x66, 4) + 8 * (c2 % 2)
}

// A part of a message has its end written out, though the message ends there too: its length is a
// constant then, so that a copy is a few moves and a loop has a known count.

// 04h "stores its bytes 3-8, sets mark bits 0 and 1, and sets the short flags".
fn put_zone(table: &mut Table, message: &[u8])
    requires { length message.now ≡ 8 }
    ensures { table.new ≡ done_all (zone_writes message.now) table.old }
{
    let place = zone_place(usize::from(message[1]));
    table[place] |= 3;
    table[place + 1..place + 7].copy_from_slice(&message[2..8]);
    table[place + 7] = short_from(message[6], message[7]);
}

// 05h "sets short flags .. and mark bit 0 of its 16 zones, nothing else of them": two zones a byte,
// the first in its low half.
fn put_zones(table: &mut Table, message: &[u8])
    requires message_len { length message.now ≡ 10 }
    requires message_bound { byte 2 message.now ≤ 240 }
    ensures { table.new ≡ done_all (flat_map (short_writes message.now) (up_to 16)) table.old }
{
    let first = usize::from(message[1]);
    for (j, &both) in message[2..10].iter().enumerate() {
        let place = zone_place(first + 2 * j);
        table[place] |= 1;
        table[place + 7] = both % 16;
        table[place + 8] |= 1;
        table[place + 15] = both / 16;
    }
}

// 06h "stores and sets mark bit 1; the short byte stays".
fn put_partition(table: &mut Table, message: &[u8])
    requires message_len { length message.now ≡ 9 }
    requires message_bound { byte 2 message.now ≤ 7 }
    ensures { table.new ≡ done_all (partition_writes message.now) table.old }
{
    let place = partition_place(usize::from(message[1]));
    table[place] |= 2;
    table[place + 1..place + 8].copy_from_slice(&message[2..9]);
}

// 07h "sets all eight short bytes and mark bit 0 of each".
fn put_partitions(table: &mut Table, message: &[u8])
    requires { length message.now ≡ 9 }
    ensures { table.new ≡ done_all (flat_map (partition_short message.now) (up_to 8)) table.old }
{
    for (p, &short) in message[1..9].iter().enumerate() {
        let place = partition_place(p);
        table[place] |= 1;
        table[place + 8] = short;
    }
}

// 08h "stores and sets its mark to 1".
fn put_system(table: &mut Table, message: &[u8])
    requires { length message.now ≡ 12 }
    ensures { table.new ≡ done_all (system_writes message.now) table.old }
{
    table[SYSTEM_PLACE] = 1;
    table[SYSTEM_PLACE + 1..SYSTEM_PLACE + 12].copy_from_slice(&message[1..12]);
}

// The writes of one of the five.
fn put(table: &mut Table, message: &[u8])
    requires { is_status message.now ≡ true }
    ensures { table.new ≡ applied_to table.old message.now }
{
    match message[0] % 64 {
        0x04 => put_zone(table, message),
        0x05 => put_zones(table, message),
        0x06 => put_partition(table, message),
        0x07 => put_partitions(table, message),
        _ => put_system(table, message),
    }
}

// Stores a message, and says whether it was one of the five, good, and for a whole table.
#[tactic(auto, using(standard::proofs::Stored::kept))]
fn stores(table: &mut [u8], message: &[u8]) -> bool
    ensures value { result ≡ (is_table table.old && is_status message.now) }
    ensures table_after { table.new ≡ applied_to table.old message.now }
{
    let Some(table) = table.as_mut_array::<TABLE_BYTES>() else {
        return false;
    };
    // A part of the message is handed on in registers, where the message as it came would be copied.
    let stored = messages::is_status(&message[..message.len()]);
    if stored {
        put(table, message);
    }
    stored
}

// What `apply` leaves of the table, where no number is asked: nothing changes where it refuses.
pub fn store(table: &mut [u8], message: &[u8])
    ensures { table.new ≡ applied_to table.old message.now }
{
    stores(table, message);
}

// Applies a message, or says why not, and then the table stays. What is stored is good, so that the
// message is checked in full only where nothing is stored.
pub fn apply(table: &mut [u8], message: &[u8]) -> Result<(), Refusal>
    ensures { Applied table.old message.now (number_in result) table.new }
{
    let n = message.len();
    if stores(table, &message[..n]) {
        return Ok(());
    }
    check(table)?;
    messages::check(&message[..n])
}

// A byte of a zone's record.
#[tactic(auto, using(standard::proofs::Questions::asked_whole))]
fn zone_byte(table: &[u8], zone: u8, on: usize) -> Result<u8, Refusal>
    requires { on < 8 }
    ensures { Answered 0 (table_refusal table.now) (get_or table.now (zone_place zone + on) 0) (number_in result) (value_in 0 result) }
{
    check(table).map(|()| table[zone_place(usize::from(zone)) + on])
}

// A zone's mark.
pub fn zone_mark(table: &[u8], zone: u8) -> Result<u8, Refusal>
    ensures { Answered 0 (table_refusal table.now) (zone_mark table.now zone) (number_in result) (value_in 0 result) }
{
    zone_byte(table, zone, 0)
}

// A zone's short flags.
pub fn zone_short(table: &[u8], zone: u8) -> Result<u8, Refusal>
    ensures { Answered 0 (table_refusal table.now) (zone_short table.now zone) (number_in result) (value_in 0 result) }
{
    zone_byte(table, zone, 7)
}

// "A zone is heard when mark bit 0 is set": 1, or 0.
pub fn zone_heard(table: &[u8], zone: u8) -> Result<u8, Refusal>
    ensures { Answered 0 (table_refusal table.now) (heard_zone table.now zone) (number_in result) (value_in 0 result) }
{
    let mark = zone_mark(table, zone)?;
    Ok(mark % 2)
}

// A part of a whole table.
#[tactic(auto, using(standard::proofs::Questions::asked_whole))]
fn part(table: &[u8], start: usize, bytes: usize) -> Result<&[u8], Refusal>
    requires { start + bytes ≤ table_bytes }
    ensures { Answered [] (table_refusal table.now) (take bytes (drop start table.now)) (number_in result) (part_in result) }
{
    check(table).map(|()| &table[start..start + bytes])
}

// A zone's six bytes from its partition mask to condition flags 2.
pub fn zone_part(table: &[u8], zone: u8) -> Result<&[u8], Refusal>
    ensures { Answered [] (table_refusal table.now) (zone_part table.now zone) (number_in result) (part_in result) }
{
    part(table, zone_place(usize::from(zone)) + 1, 6)
}

// A partition's record, for a partition of 0 to 7.
#[tactic(auto, using(standard::proofs::Questions::asked_partition), unfolding(standard::specs::Questions::table_refusal, standard::specs::Questions::partition_refusal))]
pub fn partition_part(table: &[u8], partition: u8) -> Result<&[u8], Refusal>
    ensures { Answered [] (partition_refusal table.now partition) (partition_part table.now partition) (number_in result) (part_in result) }
{
    check(table).and(check_partition(partition))?;
    part(table, partition_place(usize::from(partition)), 9)
}

// The system record.
pub fn system_part(table: &[u8]) -> Result<&[u8], Refusal>
    ensures { Answered [] (table_refusal table.now) (system_part table.now) (number_in result) (part_in result) }
{
    part(table, SYSTEM_PLACE, 12)
}
