// What is decided of a frame's bytes without a reader's mode: where a start is, what a digit is
// worth, which bytes stand plainly on the line, and the judgement of a whole frame.
#![tactic(auto)]

ghost use Rattle.std.specs.Prelude.{◌≡◌, ◌+◌, ◌*◌, ◌/◌, ◌<◌, ◌≤◌, ◌++◌, Some, IfSome, true, [], length, take, drop, ◌==◌, bit_and, slice_get};
ghost use Rattle.standard.specs.declared.Framing.TheVariants.{Ascii};
ghost use Rattle.standard.specs.Messages.{length_ok, among};
ghost use Rattle.standard.specs.Judge.{handing, verdict_for};
ghost use Rattle.standard.specs.Stream.{up_to_start};
ghost use Rattle.frames.specs.Plain.{digit_in, digit_of, number_of, stands, span, beyond, plain_of, TakesPlain};
ghost use Rattle.frames.specs.Judging.{judged_frame, said_of};
ghost use Rattle.frames.specs.Parts.{Complete, Passed, Lays};

use standard::{Framing, Verdict};

// The most recovered bytes: the length, the longest message and two sums.
pub const MOST: usize = standard::LONGEST + 3;

// A 1 in the place of each of two and of eight characters.
const TWO: u64 = 0x0101;

const EIGHT: u64 = 0x0101010101010101;

// So many bytes between frames are looked at together: as many as a vector register holds.
const BLOCK: usize = 16;

// "Lengths 1 to 255 are now read": all that a byte can be but 0.
pub fn length_ok(n: u8) -> bool
    ensures { result ≡ length_ok n }
{
    n != 0
}

// ---- up to the next start

// Whether a start is among these bytes. All are looked at: with no way out of the loop many are
// compared at once, as `contains`, which leaves at the first, does not.
fn has_start(part: &[u8], start: u8) -> bool
    ensures { result ≡ among start part.now }
{
    part.iter().fold(false, |found, b| found | (start == *b))
}

// Past the blocks with no start among them, as far as whole blocks go.
fn skip_blocks(bytes: &[u8], start: u8) -> usize
    ensures { Passed start result bytes.now }
{
    let mut passed = 0;
    for block in bytes.chunks_exact(BLOCK) {
        if has_start(block, start) {
            break;
        }
        passed += BLOCK;
    }
    passed
}

// How many bytes stand before the first start.
pub fn before_start(bytes: &[u8], start: u8) -> usize
    ensures { result ≡ length (up_to_start start bytes.now) }
{
    if bytes.first() == Some(&start) {
        return 0;
    }
    let passed = skip_blocks(bytes, start);
    let rest = &bytes[passed..];
    passed + rest.iter().position(|b| *b == start).unwrap_or(rest.len())
}

// ---- plain bytes

// A digit's value, "from 0-9 and A-F". A difference that wraps makes each range one comparison.
pub fn digit(c: u8) -> Option<u8>
    ensures value { result ≡ digit_of c }
    ensures number { number_of result ≡ digit_in c }
    ensures small { IfSome result (λ d. d < 16) }
{
    let number = c.wrapping_sub(b'0');
    let letter = c.wrapping_sub(b'A');
    let other = if letter < 6 { Some(letter + 10) } else { None };
    if number < 10 { Some(number) } else { other }
}

// Several characters are looked at together, which takes less time than one by one: each has eight
// bits of a number, the first one the lowest, and `ones` is 1 in the place of each. No sum leaves its
// eight bits.

// What each character is worth if it is a digit: its low four bits, and 9 more where bit 6 tells a
// letter.
fn worth(characters: u64, ones: u64) -> u64
    requires { ones ≤ 0x0101010101010101 }
    ensures { result ≡ bit_and (bit_and characters (ones * 15) + bit_and characters (ones * 64) / 64 * 9) (ones * 15) }
{
    ((characters & (ones * 15)) + (characters & (ones * 64)) / 64 * 9) & (ones * 15)
}

// Whether all are digits: each has 30h above its low four bits where it is worth up to 9, and 40h
// where it is worth 10 to 15.
fn are_digits(characters: u64, values: u64, ones: u64) -> bool
    requires { (ones ≤ 0x0101010101010101) × (values ≤ ones * 15) }
    ensures { result ≡ (bit_and characters (ones * 15) + ones * 48 + bit_and (values + ones * 6) (ones * 16) == characters) }
{
    (characters & (ones * 15)) + ones * 48 + ((values + ones * 6) & (ones * 16)) == characters
}

// Whether a byte of a binary frame stands for itself: neither 7Dh nor 7Eh.
fn stands(b: u8) -> bool
    ensures { result ≡ stands b }
{
    !matches!(b, 0x7D | 0x7E)
}

// How many bytes of a frame come after its message before the byte that decides: that byte is the
// second sum in binary, and the stop in ASCII.
pub fn beyond(framing: Framing) -> usize
    ensures { result ≡ beyond framing }
{
    match framing {
        Framing::Binary => 2,
        Framing::Ascii => 3,
    }
}

// How many bytes of the line n plain bytes are.
fn span(framing: Framing, n: usize) -> usize
    requires { n ≤ 0x7FFFFFFFFFFFFFFF }
    ensures { result ≡ span framing n }
{
    match framing {
        Framing::Binary => n,
        Framing::Ascii => 2 * n,
    }
}

// The byte of the two digits that come first, "high digit first".
fn pair(bytes: &[u8]) -> Option<u8>
    ensures { result ≡ slice_get (plain_of Ascii bytes.now) 0 }
{
    let characters = u16::from_le_bytes(*bytes.first_chunk()?) as u64;
    let values = worth(characters, TWO);
    if are_digits(characters, values, TWO) {
        Some((values % 256 * 16 + values / 256) as u8)
    } else {
        None
    }
}

// The next plain byte after i of them, if there is one.
fn plain_at(framing: Framing, bytes: &[u8], i: usize) -> Option<u8>
    requires { span framing i ≤ length bytes.now }
    ensures { result ≡ slice_get (plain_of framing (drop (span framing i) bytes.now)) 0 }
{
    match framing {
        Framing::Binary => bytes[i..].first().copied().filter(|b| stands(*b)),
        Framing::Ascii => pair(&bytes[2 * i..]),
    }
}

// The plain bytes of an ASCII frame, as long as they come four at a time, laid in the room for them.
fn fours(room: &mut [u8], bytes: &[u8]) -> usize
    ensures fits { result ≤ length room.old }
    ensures lays { Lays room.old (take result (plain_of Ascii bytes.now)) result room.new }
{
    let mut i = 0;
    // Of what `chunks_mut` lent a proof knows the length alone, so the place is counted here.
    while i + 4 <= room.len() {
        let Some(eight) = bytes[2 * i..].first_chunk() else {
            return i;
        };
        let characters = u64::from_le_bytes(*eight);
        let values = worth(characters, EIGHT);
        if !are_digits(characters, values, EIGHT) {
            return i;
        }
        let [first, _, second, _, third, _, fourth, _] = (values * 16 + values / 256).to_le_bytes();
        // One by one: `copy_from_slice` takes an array by way of the stack, which is twice as slow.
        room[i] = first;
        room[i + 1] = second;
        room[i + 2] = third;
        room[i + 3] = fourth;
        i += 4;
    }
    i
}

// The plain bytes that come, laid in the room for them.
fn run(framing: Framing, room: &mut [u8], bytes: &[u8]) -> usize
    ensures { Lays room.old (take (length room.old) (plain_of framing bytes.now)) result room.new }
{
    let first = match framing {
        Framing::Binary => 0,
        Framing::Ascii => fours(room, bytes),
    };
    for i in first..room.len() {
        let Some(b) = plain_at(framing, bytes, i) else {
            return i;
        };
        room[i] = b;
    }
    room.len()
}

// The length byte of a frame: the first of the bytes that are held, or else the first plain byte
// that comes.
fn first_of(framing: Framing, held: &[u8], bytes: &[u8]) -> Option<u8>
    ensures { result ≡ slice_get (held.now ++ plain_of framing bytes.now) 0 }
{
    match held {
        [first, ..] => Some(*first),
        [] => plain_at(framing, bytes, 0),
    }
}

// How many plain bytes were taken, and how many bytes of the line these are.
#[derive(Clone, Copy, Default)]
pub struct Taken {
    pub count: usize,
    pub used: usize,
}

// The plain bytes that an open frame takes at once, of which `held` bytes stand in its array: they
// are laid after these, up to the byte that decides. None where the array has no room for the
// longest frame.
pub fn take_plain(framing: Framing, held: usize, frame: &mut [u8], bytes: &[u8]) -> Taken
    ensures { TakesPlain framing held frame.old bytes.now result frame.new }
{
    if frame.len() < MOST || MOST < held {
        return Taken::default();
    }
    let Some(length) = first_of(framing, &frame[..held], bytes) else {
        return Taken::default();
    };
    let end = length as usize + beyond(framing);
    if !length_ok(length) || end <= held {
        return Taken::default();
    }
    let count = run(framing, &mut frame[held..end], bytes);
    let used = span(framing, count);
    Taken { count, used }
}

// ---- a whole frame

// A verdict that carries nothing.
pub fn plain(number: u8) -> Option<Verdict>
    ensures { result ≡ Some (verdict_for (handing number [])) }
{
    Some(Verdict {
        number,
        type_byte: 0,
        length: 0,
    })
}

// The frame that these bytes begin with, which has its sums. "At that byte the order is 3, 5, 6, 7,
// 8": 3 needs no look at them.
fn judge_whole(frame: &[u8]) -> Option<Verdict>
    requires { Complete frame.now }
    ensures { result ≡ said_of (judged_frame frame.now) }
{
    let length = frame[0];
    let end = length as usize + 1;
    let sums = sums::sums_of(&frame[..end]);
    if frame[end] != sums.one || frame[end + 1] != sums.two {
        return plain(5);
    }
    let type_byte = frame[1];
    Some(match messages::check(&frame[1..end]) {
        Ok(()) => Verdict {
            number: 0,
            type_byte,
            length,
        },
        Err(refusal) => Verdict {
            number: refusal.number(),
            type_byte,
            length: 0,
        },
    })
}

// The judgement of a frame's recovered bytes, with its length byte first; silent where some of them
// are not there yet.
pub fn judge(frame: &[u8]) -> Option<Verdict>
    ensures { result ≡ said_of (judged_frame frame.now) }
{
    let length = *frame.first()?;
    if !length_ok(length) {
        return plain(4);
    }
    if frame.len() < length as usize + 3 {
        return None;
    }
    judge_whole(frame)
}
