// The overview of document 01: how many zones of each group and of the site are heard, how many of
// those are faulted, and the share. The table is known here by what it answers about a zone.
#![tactic(auto)]

ghost use Rattle.std.specs.Prelude.{◌≡◌, cond, ◌&&◌, suc, min, ltb};
ghost use Rattle.standard.specs.Table.{is_table};
ghost use Rattle.standard.specs.Overview.{heard_of, faulted_of, share_of, share_number, counted, run_of, seen_of, group_values, overview_values};

use standard::{Counts, Group, Overview, Refusal, Share};

const NOTHING: Counts = Counts {
    heard: 0,
    faulted: 0,
};

// f64 holds both counts exactly, so the division is what rounds, once.
fn share_of(counts: Counts) -> Share
    ensures { share_number result ≡ share_of counts.heard counts.faulted }
{
    if counts.heard == 0 {
        Share::NotHeard
    } else {
        Share::Share(counts.faulted as f64 / counts.heard as f64)
    }
}

// Counts, and the share that is made from them.
fn shared(counts: Counts) -> Group
    ensures { group_values result ≡ counted counts.heard counts.faulted }
{
    Group {
        heard: counts.heard,
        faulted: counts.faulted,
        share: share_of(counts),
    }
}

// The same of two numbers.
pub fn with_share(heard: u16, faulted: u16) -> Group
    ensures { group_values result ≡ counted heard faulted }
{
    shared(Counts { heard, faulted })
}

// "Among the heard": of two bits, without a branch that nobody can foresee. With `u8::min` a zone map
// took a third longer.
fn smaller(a: u8, b: u8) -> u8
    ensures { result ≡ min a b }
{
    if a < b { a } else { b }
}

// The counts of n zones, which on the line are `from` and those after it: nothing is heard where the
// table is refused, nor where the run goes beyond the 256 zones.
pub fn run(table: &[u8], from: u8, n: u8) -> Counts
    ensures { result ≡ run_of table.now from n }
{
    let mut counts = NOTHING;
    if table::check(table).is_err() || 256 < from as u16 + n as u16 {
        return counts;
    }
    for j in 0..n {
        let zone = from + j;
        let heard = table::zone_heard(table, zone).unwrap_or(0);
        let short = table::zone_short(table, zone).unwrap_or(0);
        counts.heard += heard as u16;
        counts.faulted += smaller(heard, short % 2) as u16;
    }
    counts
}

// Group index + 1, on the line the zones from 16 * index on: nothing is heard where the table is
// refused, nor above group 16.
pub fn group(table: &[u8], index: u8) -> Group
    ensures { group_values result ≡ cond (is_table table.now && ltb index 16) (counted (heard_of table.now (suc index)) (faulted_of table.now (suc index))) (counted 0 0) }
{
    if index < 16 {
        shared(run(table, 16 * index, 16))
    } else {
        shared(NOTHING)
    }
}

// All sixteen groups and the site, or why the table is refused.
pub fn view(table: &[u8]) -> Result<Overview, Refusal>
    ensures { overview_values result ≡ seen_of table.now }
{
    table::check(table)?;
    let mut groups = [shared(NOTHING); 16];
    let mut counts = NOTHING;
    for (index, place) in groups.iter_mut().enumerate() {
        let group = group(table, index as u8);
        counts.heard += group.heard;
        counts.faulted += group.faulted;
        *place = group;
    }
    Ok(Overview {
        groups,
        site: shared(counts),
    })
}
