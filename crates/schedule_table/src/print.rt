// The table, streamed: each call writes what fits into a lent slice and hands back a cursor.
ghost use Rattle.std.specs.Prelude.{◌≡◌, true, ◌+◌, ◌≤◌, length, None, Some};
ghost use Rattle.key_traffic.specs.Put.{Put};
ghost use Rattle.key_traffic.specs.Octets.{overlay};
ghost use Rattle.schedule_table.specs.Schedule.{asked_fits_of};
ghost use Rattle.schedule_table.specs.Print.{Steady, cursor_of, next_of, start_for, start_of, fill_of, printed_of, newer_row};

use crate::input::{Asked, read};
use crate::row::{ROW_MAX, put_header, put_row};
use key_association::listing::{Listing, listed};
use key_association::record::Assoc;
use key_association::roll::rolled;
use key_traffic::suites::SUITE_AES;
use key_traffic::traffic::SAID_MATERIAL;
use questions::limits::TEK_LIFE_MIN;
use text::put::put_text;

// Where the table stands: the record as the engine makes it, the generation of its newer key, the second of the last call, and
// how many clock calls are left.
#[derive(Clone, Copy)]
pub struct Cursor {
    pub half: u64,
    pub clock: u64,
    pub left: u64,
    pub generation: u64,
    pub held: Assoc,
}

// How many octets were written at the front of the slice, and the cursor after them.
#[derive(Clone, Copy)]
pub struct Printed {
    pub count: usize,
    pub cursor: Cursor,
}

// Lists one SAID.
fn first_cursor(a: Asked) -> Cursor
    requires { asked_fits_of a ≡ true }
    ensures { result ≡ cursor_of a }
{
    let half = a.life / 2;
    let listing = Listing {
        count: 1,
        saids: [0, 0, 0, 0],
        suites: [SUITE_AES, 0, 0, 0],
    };
    let material = [0u8; SAID_MATERIAL];
    let held = listed(listing, 0, half, a.from, &material, 0);
    Cursor {
        half,
        clock: a.from,
        left: (a.until - a.from) / half,
        generation: 1,
        held,
    }
}

// Calls the clock once, H after the last call.
fn next_cursor(c: Cursor) -> Cursor
    requires { Steady c × (1 ≤ c.left) }
    ensures { result ≡ next_of c }
{
    let clock = c.clock + c.half;
    let material = [0u8; SAID_MATERIAL];
    Cursor {
        clock,
        left: c.left - 1,
        generation: c.generation + 1,
        held: rolled(c.held, c.half, clock, &material, 0),
        ..c
    }
}

// `1` alone, with nothing left.
fn start_refused(out: &mut [u8]) -> Printed
    requires { 256 ≤ length out.old }
    ensures value { result ≡ printed_of (start_for None) }
    ensures out_after { out.new ≡ overlay out.old (start_for None).written }
{
    let count = put_text(out, 0, b"1\n");
    let cursor = first_cursor(Asked {
        life: TEK_LIFE_MIN,
        from: 0,
        until: 0,
    });
    Printed { count, cursor }
}

// The header and the rows of generations 0 and 1.
fn start_table(a: Asked, out: &mut [u8]) -> Printed
    requires { (asked_fits_of a ≡ true) × (256 ≤ length out.old) }
    ensures value { result ≡ printed_of (start_for (Some a)) }
    ensures out_after { out.new ≡ overlay out.old (start_for (Some a)).written }
    ensures count_in_bounds { result.count ≤ length out.old }
{
    let cursor = first_cursor(a);
    let older = cursor.held.older;
    let newer = cursor.held.newer;
    let p = put_header(out);
    let q = put_row(out, p, 0, older.number.0 as u64, a.from, older.deadline);
    let count = put_row(out, q, 1, newer.number.0 as u64, a.from, newer.deadline);
    Printed { count, cursor }
}

// Writes what comes first.
pub fn start(input: &[u8], out: &mut [u8]) -> Printed
    requires { 256 ≤ length out.old }
    ensures value { result ≡ printed_of (start_of input.now) }
    ensures out_after { out.new ≡ overlay out.old (start_of input.now).written }
    ensures count_in_bounds { (result.count ≤ length out.old) × Steady result.cursor }
{
    match read(input) {
        Some(a) => start_table(a, out),
        None => start_refused(out),
    }
}

// Writes the row of the cursor's newer key.
fn put_newer(out: &mut [u8], at: usize, c: Cursor) -> usize
    requires { at + 84 ≤ length out.old }
    ensures put { Put out.old at (newer_row c) result out.new }
    ensures upper_bound { result ≤ at + 84 }
{
    let newer = c.held.newer;
    put_row(
        out,
        at,
        c.generation,
        newer.number.0 as u64,
        c.clock,
        newer.deadline,
    )
}

// Calls the clock and writes a row for each call, as long as calls are left and any row would fit.
pub fn fill(c: Cursor, out: &mut [u8]) -> Printed
    requires { Steady c }
    ensures value { result ≡ printed_of (fill_of (length out.old) c) }
    ensures out_after { out.new ≡ overlay out.old (fill_of (length out.old) c).written }
    ensures count_in_bounds { (result.count ≤ length out.old) × Steady result.cursor }
{
    let mut cursor = c;
    let mut at: usize = 0;
    // as many turns as calls are left and rows have room: both are known only as it goes
    while (1 <= cursor.left) & (ROW_MAX <= out.len() - at) {
        cursor = next_cursor(cursor);
        at = put_newer(out, at, cursor);
    }
    Printed { count: at, cursor }
}
