// Zone maps as float grids (document 02, No. 8): the 256 zones as 16 rows of 16, and the four coarser
// levels of the map, each as a text header and rows of little-endian f32 in two lent buffers. The
// table is known here by what it answers about a run of zones.
#![tactic(auto)]

ghost use Rattle.std.specs.Prelude.{◌≡◌, ◌<◌, T, length};
ghost use Rattle.std.specs.Float.{binary32};
ghost use Rattle.standard.specs.Words.{first_of};
ghost use Rattle.standard.specs.Refusals.{number_in};
ghost use Rattle.standard.specs.Table.{table_bytes};
ghost use Rattle.standard.specs.Overview.{share_in};
ghost use Rattle.puts.specs.Out.{Puts};
ghost use Rattle.grid.specs.Grid.{wide, side, heard_cell, faulted_cell, share_number, bytes_of, row_of, cells_of, header_of, grid_tests, gridded_in, Grids};
ghost use Rattle.grid.specs.Cells.{is_number};

use puts::Out;
use standard::{Counts, Refusal};

// "Each coarser level, 8, 4, 2 and 1 cells wide", and the zones themselves.
#[derive(Clone, Copy)]
pub enum Level {
    Sixteen,
    Eight,
    Four,
    Two,
    One,
}

// How many bytes of each buffer are the grid's.
#[derive(Clone, Copy)]
pub struct Gridded {
    pub header: usize,
    pub cells: usize,
}

impl Level {
    // How many cells wide it is.
    fn wide(self) -> u8
        ensures { result ≡ wide self }
    {
        match self {
            Level::Sixteen => 16,
            Level::Eight => 8,
            Level::Four => 4,
            Level::Two => 2,
            Level::One => 1,
        }
    }

    // How many zones wide the block of a cell is.
    fn side(self) -> u8
        ensures { result ≡ side self }
    {
        16 / self.wide()
    }

    // The bytes of its header: 16 alone has two digits.
    #[tactic(auto, unfolding(crate::specs::Grid::header_of, standard::specs::Text::characters))]
    fn header_length(self) -> usize
        ensures { result ≡ length (header_of self) }
    {
        match self {
            Level::Sixteen => 91,
            Level::Eight | Level::Four | Level::Two => 89,
            Level::One => 90,
        }
    }
}

// A level of the map of a whole table.
#[derive(Clone, Copy)]
struct Map<'a> {
    table: &'a [u8],
    level: Level,
    ghost whole: { length table.now ≡ table_bytes },
}

impl Map<'_> {
    // The counts of the block of a row and a column: a run of zones in each of the block's rows.
    fn block(&self, row: u8, column: u8) -> Counts
        requires { (row < wide self.now.level) × (column < wide self.now.level) }
        ensures { result ≡ record { heard = heard_cell self.now.table.now self.now.level row column; faulted = faulted_cell self.now.table.now self.now.level row column } }
    {
        let side = self.level.side();
        let (top, left) = (side * row, side * column);
        let mut heard = 0;
        let mut faulted = 0;
        for i in 0..side {
            let run = overview::run(self.table, 16 * (top + i) + left, side);
            heard += run.heard;
            faulted += run.faulted;
        }
        Counts { heard, faulted }
    }

    // A row of cells, each of a block.
    fn put_row(&self, out: &mut Out, row: u8)
        requires { row < wide self.now.level }
        ensures { Puts out.old (row_of self.now.table.now self.now.level row) out.new }
    {
        for column in 0..self.level.wide() {
            let share = share_of(self.block(row, column));
            out.part(&bytes_of(share));
        }
    }

    // "Rows", the top one first.
    fn put_cells(&self, out: &mut Out)
        ensures { Puts out.old (cells_of self.now.table.now self.now.level) out.new }
    {
        for row in 0..self.level.wide() {
            self.put_row(out, row);
        }
    }
}

// "A block or zone with nothing heard is its own case": none. f32 holds both counts exactly, so the
// division is what rounds, once.
fn share_of(counts: Counts) -> Option<f32>
    ensures { share_number result ≡ share_in binary32 counts.heard counts.faulted }
{
    if counts.heard == 0 {
        return None;
    }
    Some(counts.faulted as f32 / counts.heard as f32)
}

// "Minus 9999 only on output, bytes 00 3C 1C C6."
fn bytes_of(share: Option<f32>) -> [u8; 4]
    requires { T (is_number (share_number share)) }
    ensures { result ≡ bytes_of (share_number share) }
{
    match share {
        None => [0x00, 0x3C, 0x1C, 0xC6],
        Some(x) => x.to_bits().to_le_bytes(),
    }
}

// "A text header", whose lines end with 0Ah.
fn put_header(out: &mut Out, level: Level)
    ensures { Puts out.old (header_of level) out.new }
{
    let wide = level.wide();
    let side = level.side();
    out.part(b"ncols ");
    out.decimal(wide);
    out.part(b"\nnrows ");
    out.decimal(wide);
    out.part(b"\nxllcorner 0\nyllcorner 0\ncellsize ");
    out.decimal(side);
    out.part(b"\nNODATA_value -9999\nbyteorder LSBFIRST\n");
}

// "Refusals: 11, then 9 if either buffer is short."
fn check(table: &[u8], level: Level, header: usize, cells: usize) -> Result<(), Refusal>
    ensures { number_in result ≡ first_of (grid_tests table.now level header cells) }
{
    table::check(table)?;
    let wide = level.wide() as usize;
    if header < level.header_length() || cells < 4 * wide * wide {
        return Err(Refusal::NoRoom);
    }
    Ok(())
}

// The header of a level and its cells at the beginnings of the two buffers, and how many bytes of
// each they are; or why they are refused, and both buffers as they were.
pub fn grid(
    table: &[u8],
    level: Level,
    header: &mut [u8],
    cells: &mut [u8],
) -> Result<Gridded, Refusal>
    ensures { Grids table.now level header.old cells.old (gridded_in result) header.new cells.new }
{
    check(table, level, header.len(), cells.len())?;
    let mut lines = Out::new(header, 0);
    put_header(&mut lines, level);
    let mut rows = Out::new(cells, 0);
    Map { table, level }.put_cells(&mut rows);
    Ok(Gridded {
        header: lines.place(),
        cells: rows.place(),
    })
}
