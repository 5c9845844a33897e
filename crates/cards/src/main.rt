// The bench cards of document 01 that are marked P, and two of ours, 14 and 15. Their table is
// specs/Cards.antt, and one statement covers it, proofs/Bench.antt. This program runs the same rows on
// the code, by the strict rule of escapes and then by the old one: for each verdict a line of card,
// verdict and reply, then for each zone that is heard a line of card, zone and short flags.
#![tactic(auto)]

use reader::Reader;
use standard::Framing;
use std::io;

// Each card's number, framing and bytes.
const CARDS: [(u8, Framing, &[u8]); 13] = [
    (1, Framing::Binary, b"\x7E\x01\x1D\x1E\x1F"),
    (2, Framing::Ascii, b"\x0A011D1E1F\x0D"),
    (
        3,
        Framing::Binary,
        b"\x7E\x07\x84\x09\x7D\x5E\x10\x58\x01\x00\x7C\xD1",
    ),
    (
        4,
        Framing::Binary,
        b"\x7E\x08\x84\x09\x7D\x5E\x10\x58\x00\x01\x00\x7D\x5D\x56",
    ),
    (
        5,
        Framing::Binary,
        b"\x7E\x0A\x05\x00\x01\x00\x00\x00\x00\x00\x00\x00\x10\xA8",
    ),
    (6, Framing::Binary, b"\x7E\x01\x1D\x1E\x20"),
    (7, Framing::Binary, b"\x7E\x7E\x01\x1D\x1E\x1F"),
    (8, Framing::Binary, b"\x7E\x01\x7D\x7E\x01\x1D\x1E\x1F"),
    (9, Framing::Binary, b"\x7E\x00"),
    (9, Framing::Binary, b"\x7E\x13"),
    (
        9,
        Framing::Binary,
        b"\x7E\x13\x22\x00\x00\x00\x00\x00\x00\x00\x00\x00\x00\x00\x00\x00\x00\x00\x00\x00\x00\x35\x06",
    ),
    (
        14,
        Framing::Binary,
        b"\x7E\x08\x84\x09\x7D\x5F\x10\x58\x00\x01\x00\x7D\x5D\x56",
    ),
    (15, Framing::Binary, b"\x7E\x7D\x20"),
];

fn line(rt: &impl Print, card: u8, first: u16, second: u8) -> io::Result<()> {
    println!(rt; "{card} {first} {second}")
}

// The verdicts of a line, call by call; at most one call for each byte.
fn verdicts(
    rt: &impl Print,
    card: u8,
    mut reader: Reader,
    bytes: &[u8],
    table: &mut [u8],
) -> io::Result<()> {
    let mut rest = bytes;
    for _ in bytes {
        let hearing = host::hear(reader, table, rest);
        if let Some(verdict) = hearing.said {
            line(
                rt,
                card,
                verdict.number as u16,
                standard::reply_number(hearing.reply),
            )?;
        }
        reader = hearing.reader;
        rest = rest.get(hearing.used..).unwrap_or_default();
    }
    Ok(())
}

// The zones that a table has heard.
fn zones(rt: &impl Print, card: u8, table: &[u8]) -> io::Result<()> {
    for zone in 0..=255 {
        if let Ok(1) = table::zone_heard(table, zone)
            && let Ok(short) = table::zone_short(table, zone)
        {
            line(rt, card, zone as u16 + 1, short)?;
        }
    }
    Ok(())
}

fn main(rt: HostRuntime) -> io::Result<()> {
    for (card, framing, bytes) in CARDS {
        for fresh in [Reader::fresh(framing), Reader::fresh_lenient(framing)] {
            let mut table = table::fresh();
            verdicts(&rt, card, fresh, bytes, &mut table)?;
            zones(&rt, card, &table)?;
        }
    }
    Ok(())
}
