// Prints what the schedule program prints for inputs at the edges of its form and limits: `1` for each that is refused.

#![tactic(auto)]

use schedule_io::print;
use std::io::Stdout;

// Prints for one input. That writing fails is not looked at.
fn show(to: &Stdout, input: &[u8]) {
    let _ = print(to, input);
}

// The numbers are out of their limits.
fn out_of_limits(to: &Stdout) {
    show(to, b"life,from,until\n1801,0,1800\n");
    show(to, b"life,from,until\n1798,0,1800\n");
    show(to, b"life,from,until\n604802,0,1800\n");
    show(to, b"life,from,until\n1800,1801,1800\n");
    show(to, b"life,from,until\n1800,0,1000000000001\n");
    show(to, b"life,from,until\n1800,0,18446744073709551616\n");
}

// A field is no number.
fn no_number(to: &Stdout) {
    show(to, b"life,from,until\n1800,x,1800\n");
    show(to, b"life,from,until\n1800,,1800\n");
    show(to, b"life,from,until\n1800, 0,1800\n");
    show(to, b"life,from,until\n1800,+0,1800\n");
    show(to, b"life,from,until\n1800,0,000000000000000001800\n");
}

// The lines are not a line of the names and one of three values.
fn other_lines(to: &Stdout) {
    show(to, b"");
    show(to, b"life,from,until");
    show(to, b"life,from,until\n");
    show(to, b"life,until,from\n1800,0,1800\n");
    show(to, b"life,from,until\r\n1800,0,1800\r\n");
    show(to, b"life,from,until\n1800,0,1800\r\n");
    show(to, b"life,from,until\n1800,0\n");
    show(to, b"life,from,until\n1800,0,1800,\n");
    show(to, b"life,from,until\n1800,0,1800\n1800,0,1800\n");
    show(to, b"life,from,until\n1800,0,1800\n\n");
}

// The last line end is missing; zeros stand before the numbers, in 20 digits; the longest life, at the last second.
fn accepted(to: &Stdout) {
    show(to, b"life,from,until\n1800,0,1800");
    show(to, b"life,from,until\n001800,00,00000000000000001800\n");
    show(to, b"life,from,until\n604800,1000000000000,1000000000000\n");
}

fn main(rt: HostRuntime) {
    let to = rt.stdout();
    out_of_limits(&to);
    no_number(&to);
    other_lines(&to);
    accepted(&to);
}
