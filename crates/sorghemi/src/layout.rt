//! How a batch record lies in memory, for hosts to compare with their own.

ghost use Rattle.std.specs.Prelude.{◌≡◌, get_or};
ghost use Rattle.sorghemi.specs.Layout.{layout};

/// The version of the list, then of each struct its size and the offsets of its fields in their order.
const NUMBERS: [u32; 110] = [
    // the version
    7,
    // Batch
    11912, 0, 1, 2, 3, 4, 260, 4360, 11528, 11656, 11784,
    // Run
    56, 0, 16, 32, 33, 40,
    // JobSet
    16, 0, 8,
    // Job
    32, 0, 1, 2, 12, 16,
    // Access
    2, 0, 1,
    // Report
    20, 0, 16,
    // Handed
    20, 0, 4,
    // Started
    11936, 0, 4, 24,
    // Answer
    11920, 0, 8,
    // Choice
    4, 0, 1, 2, 3,
    // CellAnswer
    8, 0, 4,
    // JobAnswer
    72, 0, 1, 2, 3, 4, 5, 8, 24, 40,
    // BatchAnswer
    6, 0, 1, 2, 3, 4, 5,
    // Outcome
    24, 0, 4, 20,
    // PlanAnswer
    16, 0, 8,
    // Tally
    20, 0, 4, 8, 12, 16,
    // TallyAnswer
    24, 0, 4,
    // ShareAnswer
    16, 0, 8,
    // SetAnswer
    3, 0, 1, 2,
    // SpeculationAnswer
    7, 0, 1, 4,
    // JobList
    4104, 0, 8,
    // Inserted
    2, 0, 1,
    // Taken
    20, 0, 1, 4,
    // StepList
    320, 0,
    // Turned
    2, 0, 1,
];

/// R95: the number at a place of the list that hosts compare their own with; 0 past its end.
#[unsafe(no_mangle)]
pub extern "C" fn sorghemi_layout(place: usize) -> u32
    ensures { result ≡ get_or layout place 0 }
{
    NUMBERS.get(place).copied().unwrap_or(0)
}
