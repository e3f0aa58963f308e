// The header and the rows of the table as octets, written at a place of a lent slice.
ghost use Rattle.std.specs.Prelude.{◌+◌, ◌≤◌, length};
ghost use Rattle.key_traffic.specs.Put.{Put};
ghost use Rattle.schedule_table.specs.Schedule.{header, row_octets};

use text::characters::LINE_FEED;
use text::put::{put_number, put_text};

// A row has at most this many octets.
pub const ROW_MAX: usize = 84;

// Writes the table's header at the front and answers the place after it.
pub fn put_header(out: &mut [u8]) -> usize
    requires { 34 ≤ length out.old }
    ensures { Put out.old 0 header result out.new }
{
    put_text(out, 0, b"generation,number,minted,deadline\n")
}

// Writes the row of a generation at a place and answers the place after it.
pub fn put_row(
    out: &mut [u8],
    at: usize,
    generation: u64,
    number: u64,
    minted: u64,
    deadline: u64,
) -> usize
    requires { at + 84 ≤ length out.old }
    ensures put { Put out.old at (row_octets generation number minted deadline) result out.new }
    ensures upper_bound { result ≤ at + 84 }
{
    let a = put_number(out, at, generation, b',');
    let b = put_number(out, a, number, b',');
    let c = put_number(out, b, minted, b',');
    put_number(out, c, deadline, LINE_FEED)
}
