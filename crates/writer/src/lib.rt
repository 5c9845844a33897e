// The writer: a message becomes a frame, in either framing, in the part of a lent buffer that
// starts at a place. Whether the frame fits there is decided before a byte is stored; then it goes
// straight into that part, in one pass over the message.
#![tactic(auto)]

ghost use Rattle.std.specs.Prelude.{◌≡◌, [], ◌∷◌, ◌+◌, ◌<◌, ◌≤◌, length};
ghost use Rattle.standard.specs.Words.{Put};
ghost use Rattle.standard.specs.Messages.{check_of};
ghost use Rattle.standard.specs.declared.Framing.TheVariants.{Binary};
ghost use Rattle.standard.specs.Framing.{stop_of, stuffed, coded, frame_of};
ghost use Rattle.standard.specs.Writer.{Wrote};
ghost use Rattle.standard.specs.Refusals.{number_in, written_in};
ghost use Rattle.writer.specs.Refusing.{room_refusal};

use standard::{Framing, Refusal};

// "An ASCII frame at most 44": the longest frame that is written.
const LONGEST_FRAME: usize = 2 * standard::LONGEST_KNOWN + 8;

// How many bytes a byte is sent as in binary.
fn stuffed_length(b: u8) -> usize
    ensures value { result ≡ length (stuffed b) }
    ensures upper_bound { result ≤ 2 }
{
    match b {
        0x7E | 0x7D => 2,
        _ => 1,
    }
}

// Each `put` function stores from a place on and says the place after what it stored.
fn put_one(frame: &mut [u8], place: usize, b: u8) -> usize
    requires { place < length frame.old }
    ensures { Put frame.old place (b ∷ []) frame.new result }
{
    frame[place] = b;
    place + 1
}

// Two bytes and not an array of them, for speed: with one function for arrays of any length an ASCII
// frame took an eighth longer.
fn put_two(frame: &mut [u8], place: usize, first: u8, second: u8) -> usize
    requires { place + 2 ≤ length frame.old }
    ensures { Put frame.old place (first ∷ second ∷ []) frame.new result }
{
    frame[place] = first;
    frame[place + 1] = second;
    place + 2
}

// A byte as its framing has it on the line: "7Eh and 7Dh are sent as 7D 5E and 7D 5D"; "every byte
// as two characters, high digit first". For speed it is stored where it is told apart: with its one
// byte or two handed out first, a binary frame took a fifth longer.
fn put_coded(frame: &mut [u8], place: usize, b: u8, framing: Framing) -> usize
    requires { place + length (coded framing b) ≤ length frame.old }
    ensures { Put frame.old place (coded framing b) frame.new result }
{
    match (framing, b) {
        (Framing::Binary, 0x7E) => put_two(frame, place, 0x7D, 0x5E),
        (Framing::Binary, 0x7D) => put_two(frame, place, 0x7D, 0x5D),
        (Framing::Binary, _) => put_one(frame, place, b),
        (Framing::Ascii, _) => {
            let [high, low] = standard::two_digits(b);
            put_two(frame, place, high, low)
        }
    }
}

// "No stop byte", "then stop 0Dh".
fn put_stop(frame: &mut [u8], place: usize, framing: Framing) -> usize
    requires { place + length (stop_of framing) ≤ length frame.old }
    ensures { Put frame.old place (stop_of framing) frame.new result }
{
    match framing {
        Framing::Binary => place,
        Framing::Ascii => put_one(frame, place, 0x0D),
    }
}

// A good message, and the framing in which it becomes a frame.
#[derive(Clone, Copy)]
struct Frame<'a> {
    message: &'a [u8],
    framing: Framing,
    ghost good: { check_of message.now ≡ 0 },
}

impl Frame<'_> {
    // In binary, in one pass: the sums may need an escape too.
    #[tactic(auto, using(standard::proofs::Messages::good_few))]
    fn binary_length(&self) -> usize
        ensures { result ≡ length (frame_of Binary self.now.message.now) }
    {
        let n = self.message.len() as u8;
        let mut sums = sums::with(sums::NONE, n);
        let mut size = stuffed_length(n);
        for &b in self.message {
            sums = sums::with(sums, b);
            size += stuffed_length(b);
        }
        1 + size + stuffed_length(sums.one) + stuffed_length(sums.two)
    }

    // How long the frame is.
    #[tactic(auto, using(standard::proofs::Messages::good_few, crate::proofs::Pieces::ascii_size))]
    fn length(&self) -> usize
        ensures { result ≡ length (frame_of self.now.framing self.now.message.now) }
    {
        match self.framing {
            Framing::Binary => self.binary_length(),
            Framing::Ascii => 2 * self.message.len() + 8,
        }
    }

    // Whether it fits, or 9. Where the longest frame would fit, its own length need not be measured.
    #[tactic(auto, using(crate::proofs::Lengths::frame_most))]
    fn check_room(&self, place: usize, size: usize) -> Result<(), Refusal>
        ensures { number_in result ≡ room_refusal (length (frame_of self.now.framing self.now.message.now)) place size }
    {
        if place <= size && (LONGEST_FRAME <= size - place || self.length() <= size - place) {
            Ok(())
        } else {
            Err(Refusal::NoRoom)
        }
    }

    // "Length byte, message (type byte first), two sum bytes", between start and stop, at the
    // beginning of the part that it is lent; the sums are "over the length byte and all message
    // bytes", each before it is coded. What it says is the frame's length.
    #[tactic(auto, using(standard::proofs::Messages::good_few))]
    fn put(&self, out: &mut [u8]) -> usize
        requires { length (frame_of self.now.framing self.now.message.now) ≤ length out.old }
        ensures { Put out.old 0 (frame_of self.now.framing self.now.message.now) out.new result }
    {
        let Frame { message, framing } = *self;
        let n = message.len() as u8;
        let mut sums = sums::with(sums::NONE, n);
        out[0] = standard::start_of(framing);
        let mut next = put_coded(out, 1, n, framing);
        for &b in message {
            next = put_coded(out, next, b, framing);
            sums = sums::with(sums, b);
        }
        next = put_coded(out, next, sums.one, framing);
        next = put_coded(out, next, sums.two, framing);
        put_stop(out, next, framing)
    }
}

// The frame goes "into the part of the out buffer that starts at that place": once it is known to
// fit there, that part is lent to what puts it. What it says is the frame's length.
pub fn write(
    message: &[u8],
    framing: Framing,
    out: &mut [u8],
    place: usize,
) -> Result<usize, Refusal>
    ensures { Wrote message.now framing out.old place (written_in result) out.new }
{
    messages::check(message)?;
    let frame = Frame { message, framing };
    frame.check_room(place, out.len())?;
    Ok(frame.put(&mut out[place..]))
}
