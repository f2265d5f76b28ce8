//! The refusals: why a call changes nothing, and the number that its caller is told.
#![tactic(auto)]

ghost use Rattle.std.specs.Prelude.{◌≡◌};
ghost use Rattle.refusal.specs.Refusal.{number_of, told};

/// Why a call is refused. Of the refusals that apply to a call the one with the lowest number is told, but the last goes
/// before all.
#[derive(Clone, Copy, PartialEq, Eq, Debug)]
pub enum Refusal {
    /// Opening: the heights are not 1 to 64.
    CellCount = 1,
    /// Sealing: the batch is sealed already.
    Sealed = 2,
    /// Inserting: 128 jobs are held.
    Full = 3,
    /// Inserting: the number of accesses is not 1 to 4.
    AccessCount = 4,
    /// The cell's number is not below the number of cells.
    NoSuchCell = 5,
    /// Inserting: an access has a mode above 3.
    NoSuchMode = 6,
    /// Inserting: two accesses have the same cell.
    RepeatedCell = 7,
    /// Inserting: there is no such kind, or the accesses are not those of the kind.
    Kind = 8,
    /// Sealing: the switch is neither 0 nor 1.
    Switch = 9,
    /// The batch is not sealed.
    NotSealed = 10,
    /// The job's number is not below the number of jobs.
    NoSuchJob = 11,
    /// Speculative runs are switched off.
    SpeculationOff = 12,
    /// The job's state is not one for the step.
    State = 13,
    /// Starting a speculative run: the job is ready.
    Ready = 14,
    /// The job is not ready, or a speculative run would take a value from a job without a stored report.
    NotReady = 15,
    /// A report's mark is neither 0 nor 1, or is 1 of a job without an uncertain write.
    Mark = 16,
    /// Starting the own run: the speculative run is valid.
    Valid = 17,
    /// Committing: the speculative run is invalid.
    Invalid = 18,
    /// The chooser: no step is allowed.
    NothingToDo = 19,
    /// The buffer has too few places.
    NoRoom = 20,
    /// There is no step of that number.
    NoSuchStep = 21,
    /// A sum of tallies is larger than its 32 bits hold.
    Overflow = 23,
    /// The record is out of form.
    OutOfForm = 32,
}

impl From<Refusal> for u8 {
    ghost from_gives = { λ refusal number. number ≡ number_of refusal };

    fn from(refusal: Refusal) -> u8
        ensures { result ≡ number_of refusal }
    {
        refusal as u8
    }
}

/// What the caller is told of the outcome of some tests: 0 where they are passed, else the number of the refusal.
pub fn told(outcome: Result<(), Refusal>) -> u8
    ensures { result ≡ told outcome }
{
    match outcome {
        Ok(()) => 0,
        Err(refusal) => refusal as u8,
    }
}
