// The two matrices: a row for each event, a column for each of the states A to F as 0 to 5, 6 for a blank.
ghost use Rattle.std.specs.Prelude.{◌≡◌};
ghost use Rattle.modem_transitions.specs.Transitions.{authorization_next_of, tek_next_of, entry_of};

use crate::states::BLANK;

// The states of either machine, A to F.
const STATES: usize = 6;

// Events 1 established, 2 Reject, 3 Reject with error 6, 4 Reply, 5 timeout, 6 grace, 7 Invalid, 8 reauth.
const AUTHORIZATION_NEXT: [[u8; STATES]; 8] = [
    [1, 6, 6, 6, 6, 6],
    [6, 4, 6, 4, 6, 6],
    [6, 5, 6, 5, 6, 6],
    [6, 2, 6, 2, 6, 6],
    [6, 1, 6, 3, 0, 6],
    [6, 6, 3, 6, 6, 6],
    [6, 6, 3, 3, 6, 6],
    [6, 6, 3, 6, 6, 6],
];

// Events 1 Stop, 2 Authorized, 3 Pend, 4 Complete, 5 TEK Invalid, 6 timeout, 7 refresh, 8 Key Reply, 9 Key Reject.
const TEK_NEXT: [[u8; STATES]; 9] = [
    [6, 0, 0, 0, 0, 0],
    [1, 6, 6, 6, 6, 6],
    [6, 2, 6, 6, 5, 6],
    [6, 6, 1, 6, 6, 4],
    [6, 6, 6, 1, 1, 2],
    [6, 1, 6, 6, 4, 6],
    [6, 6, 6, 4, 6, 6],
    [6, 3, 6, 6, 3, 6],
    [6, 0, 6, 6, 0, 6],
];

// The entry of a table for an event and a state; what has no row or no column has a blank.
fn entry(table: &[[u8; STATES]], event: u8, state: u8) -> u8
    ensures { result ≡ entry_of table.now event state }
{
    let event = event as usize;
    let state = state as usize;
    if (1 <= event) & (event <= table.len()) & (state < STATES) {
        table[event - 1][state]
    } else {
        BLANK
    }
}

// The state after an event; what is no event or no state has a blank.
pub fn authorization_next(event: u8, state: u8) -> u8
    ensures { result ≡ authorization_next_of event state }
{
    entry(&AUTHORIZATION_NEXT, event, state)
}

// The same of a TEK machine.
pub fn tek_next(event: u8, state: u8) -> u8
    ensures { result ≡ tek_next_of event state }
{
    entry(&TEK_NEXT, event, state)
}
