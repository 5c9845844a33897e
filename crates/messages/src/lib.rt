// Document 01, "The 41 messages": the lengths by number, the checked values, and the verdict on a
// message. Fields stand as in document 003, whose byte k is `message[k - 1]` here.
#![tactic(auto)]

ghost use Rattle.std.specs.Prelude.{◌<◌, ◌≡◌, true, cond, ◌⊎◌, ◌≤◌, eqb, length};
ghost use Rattle.standard.specs.Refusals.{number_in};
ghost use Rattle.standard.specs.Messages.{known, length_in, length_asked, length_for, within, x10_ok, clock_ok, values_ok, check_of, status_number, is_status};

use standard::Refusal;

// The table of 64 message lengths, hexadecimal number and decimal length; 0: unrecognised.
const LENGTHS: [u8; 64] = [
    0, // 00
    11, // 01
    0, // 02
    18, // 03
    8, // 04
    10, // 05
    9, // 06
    9, // 07
    12, // 08
    4, // 09
    10, // 0A
    3, // 0B
    0, // 0C
    0, // 0D
    0, // 0E
    0, // 0F
    13, // 10
    0, // 11
    7, // 12
    0, // 13
    0, // 14
    0, // 15
    0, // 16
    0, // 17
    0, // 18
    0, // 19
    0, // 1A
    0, // 1B
    1, // 1C
    1, // 1D
    1, // 1E
    1, // 1F
    0, // 20
    1, // 21
    0, // 22
    2, // 23
    2, // 24
    2, // 25
    2, // 26
    1, // 27
    1, // 28
    4, // 29
    2, // 2A
    12, // 2B
    3, // 2C
    0, // 2D
    0, // 2E
    0, // 2F
    4, // 30
    13, // 31
    5, // 32
    2, // 33
    8, // 34
    5, // 35
    7, // 36
    4, // 37
    0, // 38
    0, // 39
    6, // 3A
    7, // 3B
    6, // 3C
    4, // 3D
    3, // 3E
    2, // 3F
];

// The table's entry of a number.
fn listed(number: u8) -> u8
    requires { number < 64 }
    ensures { result ≡ length_in known number }
{
    LENGTHS[number as usize]
}

// The length that a type byte asks; none where its number is unrecognised.
pub fn length_for(type_byte: u8) -> Option<u8>
    ensures { result ≡ length_asked type_byte }
{
    // "Bit 6 set makes the number unrecognised."
    if type_byte / 64 % 2 != 0 {
        return None;
    }
    let length = listed(type_byte % 64);
    if length == 0 { None } else { Some(length) }
}

// A value from low to high, both ends counted.
fn between(low: u8, n: u8, high: u8) -> bool
    ensures { result ≡ within low n high }
{
    low <= n && n <= high
}

// House, unit and function of 09h and 29h.
fn x10_ok(message: &[u8]) -> bool
    requires { length message.now ≡ 4 }
    ensures { result ≡ x10_ok message.now }
{
    if 15 < message[1] {
        return false;
    }
    let unit = message[2];
    match message[3] {
        0x08 | 0x18 | 0x68 => true,
        0x28 | 0x38 | 0x48 | 0x58 => unit <= 15,
        _ => false,
    }
}

// Byte 3 of 10h, 30h and 31h, whose bits hold the upper logical location.
#[tactic(auto, unfolding(standard::specs::Messages::length_for))]
fn location_ok(number: u8, message: &[u8]) -> bool
    requires fact { (number ≡ 0x10) ⊎ ((0x30 ≤ number) × (number ≤ 0x31)) }
    requires message_len { length message.now ≡ length_for number }
    ensures { result ≡ values_ok number message.now }
{
    match number {
        // "bits 5 and 7 clear"
        0x10 => message[2] & 0xA0 == 0,
        // "bits 4, 5 and 7 clear"
        0x30 => message[2] & 0xB0 == 0,
        // 31h: "bit 5 set, bit 7 clear"
        _ => message[2] & 0xA0 == 0x20,
    }
}

// Year, month, day, hour, minute and weekday of 3Bh.
fn clock_ok(message: &[u8]) -> bool
    requires { length message.now ≡ 7 }
    ensures { result ≡ clock_ok message.now }
{
    message[1] <= 99
        && between(1, message[2], 12)
        && between(1, message[3], 31)
        && message[4] <= 23
        && message[5] <= 59
        && between(1, message[6], 7)
}

// The function of 3Ch, 3Dh and 3Eh.
#[tactic(auto, unfolding(standard::specs::Messages::length_for, standard::specs::Messages::values_ok))]
fn function_ok(number: u8, message: &[u8]) -> bool
    requires le_number { (0x3C ≤ number) × (number ≤ 0x3E) }
    requires message_len { length message.now ≡ length_for number }
    ensures { result ≡ values_ok number message.now }
{
    match number {
        0x3C => message[4] <= 7,
        0x3D => message[1] <= 7,
        // 3Eh
        _ => message[1] <= 0x0F,
    }
}

// "Only these values are checked", an arm for each line of the list; the bytes of every other
// number pass unchecked.
#[tactic(auto, unfolding(standard::specs::Messages::length_for, standard::specs::Messages::values_ok))]
fn values_ok(number: u8, message: &[u8]) -> bool
    requires { length message.now ≡ length_for number }
    ensures { result ≡ values_ok number message.now }
{
    match number {
        0x05 | 0x25 => message[1] <= 240,
        0x06 | 0x26 => message[1] <= 7,
        0x09 | 0x29 => x10_ok(message),
        0x0B => message[2] <= 0x15,
        0x2B => message[2] == 0,
        0x10 | 0x30..=0x31 => location_ok(number, message),
        0x3B => clock_ok(message),
        0x3C..=0x3E => function_ok(number, message),
        _ => true,
    }
}

// Whether some bytes are a good message, or why not: 4, 6, 7 or 8.
pub fn check(message: &[u8]) -> Result<(), Refusal>
    ensures { number_in result ≡ check_of message.now }
{
    if message.is_empty() || standard::LONGEST < message.len() {
        return Err(Refusal::Length);
    }
    let type_byte = message[0];
    let Some(length) = length_for(type_byte) else {
        return Err(Refusal::Unrecognised);
    };
    if message.len() != length as usize {
        return Err(Refusal::OtherLength);
    }
    if values_ok(type_byte % 64, message) {
        Ok(())
    } else {
        Err(Refusal::Value)
    }
}

// The length of a message of one of the numbers 04 to 08.
#[tactic(auto, using(standard::proofs::Status::five), unfolding(standard::specs::Messages::length_for))]
fn status_length(number: u8) -> u8
    requires { status_number number ≡ true }
    ensures { result ≡ length_for number }
{
    match number {
        0x04 => listed(0x04),
        0x05 => listed(0x05),
        0x06 => listed(0x06),
        0x07 => listed(0x07),
        _ => listed(0x08),
    }
}

// The most that its second byte may be: "offset at most 240", "partition at most 7"; any for the rest.
fn second_most(number: u8) -> u8
    ensures { result ≡ cond (eqb number 0x05) 240 (cond (eqb number 0x06) 7 255) }
{
    match number {
        0x05 => 240,
        0x06 => 7,
        _ => 255,
    }
}

// Whether a message is good and of one of the numbers 04 to 08: no more is asked of it than `check`
// would ask of these. A log is thousands of them, one of any number after another, so that nothing
// here goes by the number in a branch that nobody can foresee.
pub fn is_status(message: &[u8]) -> bool
    ensures { result ≡ is_status message.now }
{
    let n = message.len();
    if n < 2 {
        return false;
    }
    // A number with bit 6 set is none of them.
    let number = message[0] % 128;
    if !between(4, number, 8) {
        return false;
    }
    (n == status_length(number) as usize) & (message[1] <= second_most(number))
}
