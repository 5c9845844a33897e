// Document 01, "What the host replies": the reply to a verdict and its type byte.
#![tactic(auto)]

ghost use Rattle.std.specs.Prelude.{◌≡◌};
ghost use Rattle.standard.specs.Replies.{reply_number, good_reply, reply_of};

use standard::Reply;

// To a good message, by its number. Acknowledging an acknowledge would never stop.
fn good_reply(type_byte: u8) -> Reply
    ensures { reply_number result ≡ good_reply type_byte }
{
    match type_byte % 64 {
        0..=0x1B if type_byte / 128 == 1 => Reply::Acknowledge,
        0..=0x1F => Reply::Nothing,
        // "as a host serves no requests"
        _ => Reply::Rejected,
    }
}

// To every verdict and type byte; verdicts 1 to 8 and 15 are answered "flag set or not".
#[tactic(auto, using(standard::proofs::Messages::asked_is), unfolding(standard::specs::Replies::reply_of))]
pub fn reply(verdict: u8, type_byte: u8) -> Reply
    ensures { reply_number result ≡ reply_of verdict type_byte }
{
    match verdict {
        0 if messages::length_for(type_byte).is_some() => good_reply(type_byte),
        1..=5 | 7 | 15 => Reply::NegativeAcknowledge,
        6 | 8 => Reply::Rejected,
        _ => Reply::Nothing,
    }
}
