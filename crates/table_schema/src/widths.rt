ghost use Rattle.std.specs.Prelude.{◌≡◌, ◌≤◌, ◌↔◌, IsTrue, ℕ};
ghost use Rattle.table_schema.specs.Limits.{AreWidths};

use crate::rows::Row;

/// How many bits the bucket of each column has, 1 to 8; entries past the columns are 0.
#[derive(Clone, Copy, Debug, PartialEq, Eq)]
pub struct Widths {
    pub columns: u8,
    pub bits: [u8; 6],
    pub ghost legal: { AreWidths columns bits },
}

/// The most rows of a table.
const MOST_ROWS: u32 = 65_536;

/// The most cells of a table.
const MOST_CELLS: u64 = 4_194_304;

impl Widths {
    ghost use Rattle.table_schema.specs.Widths.{Fits, Holds, cells_of, code_length, column_bits, fits_in, largest_in};

    // How many numbers the code of a row has.
    fn code_length(&self) -> u64
        ensures value { result ≡ code_length (column_bits self.now) }
        ensures few { result ≤ 1537 }
    {
        let mut total: u64 = 1;
        for b in &self.bits[..self.columns as usize] {
            total += 1u64 << *b;
        }
        total
    }

    /// How many cells a table of this capacity has: for each row 2^bits for each column, and one more.
    pub fn cells(&self, capacity: u32) -> u64
        ensures { result ≡ cells_of (column_bits self.now) capacity }
    {
        capacity as u64 * self.code_length()
    }

    /// Whether a table of this capacity is within the limits: 1 to 65,536 rows and at most 4,194,304 cells.
    pub fn fits(&self, capacity: u32) -> bool
        ensures meaning { IsTrue result ↔ Fits (column_bits self.now) capacity }
        ensures value { result ≡ fits_in (column_bits self.now) capacity }
    {
        capacity >= 1 && capacity <= MOST_ROWS && self.cells(capacity) <= MOST_CELLS
    }

    /// The greatest capacity that fits. There is one, since a row has at most 1,537 cells.
    pub fn largest(&self) -> u32
        ensures fits { Fits (column_bits self.now) result }
        ensures greatest { (capacity : ℕ) → Fits (column_bits self.now) capacity → capacity ≤ result }
        ensures value { result ≡ largest_in (column_bits self.now) }
    {
        let most = MOST_CELLS / self.code_length();
        if most < MOST_ROWS as u64 {
            most as u32
        } else {
            MOST_ROWS
        }
    }

    /// Whether the row is one of these widths: it has as many columns, each bucket is below 2^bits, with 0
    /// past the columns, and its value is from -4,294,967,295 to 4,294,967,295.
    pub fn holds(&self, row: &Row) -> bool
        ensures { IsTrue result ↔ Holds self.now row.now }
    {
        if row.columns != self.columns || row.value < -4_294_967_295 || row.value > 4_294_967_295 {
            return false;
        }
        for i in 0..6 {
            if row.buckets[i] as u16 >= 1u16 << self.bits[i] {
                return false;
            }
        }
        true
    }
}
