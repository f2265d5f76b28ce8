//! The engine for hosts in other languages: functions exported under C's calling convention over a batch record that
//! the host owns. A record goes in by value and comes back with the answer; a step also has the lent form, in which
//! the host lends its record and the step changes it; a list of jobs is inserted, and a turn taken, in that form alone.
#![tactic(auto)]

mod layout;
mod opening;
mod plans;
mod reading;
mod result;
mod step;
mod tallies;
mod turn;

// Each a C record: numbers and flags, and no Option or Result, which no exported function can answer with.

/// What a step on a lent batch answers: 0 or the number of its refusal, and the values handed to a run, 0 each where none is started.
#[repr(C)]
#[derive(Clone, Copy)]
pub struct Handed {
    pub refusal: u8,
    pub values: [i32; 4],
}

/// What inserting a list into a lent batch answers: 0, or the number of the refusal and which job of the list it was.
#[repr(C)]
#[derive(Clone, Copy)]
pub struct Inserted {
    pub refusal: u8,
    pub at: u8,
}

/// What answering a plan tells: 0 or the number of its refusal, and how many bytes the answer has, 0 where it is refused.
#[repr(C)]
#[derive(Clone, Copy)]
pub struct PlanAnswer {
    pub refusal: u8,
    pub length: usize,
}

/// What asking for the kept share tells: whether there is one, and its whole thousandths, 0 where there is none.
// C interface: an exported function cannot answer with an `Option`.
#[repr(C)]
#[derive(Clone, Copy)]
pub struct ShareAnswer {
    pub present: bool,
    pub thousandths: u64,
}

/// What a turn on a lent batch answers: 0 or the number of its refusal, and how many steps it took.
#[repr(C)]
#[derive(Clone, Copy)]
pub struct Turned {
    pub refusal: u8,
    pub count: u8,
}
