// What an order is (document 01, "Order and file"; the maker: document 02, §4), whether it is accepted, and its orderings.
#![tactic(auto)]

pub mod accept; // refusals 1 to 7 and 13
pub mod callers; // the limits of a dock and of a screen
pub mod deadline; // a job's end, and the end cut off at minute 0
pub mod none; // the order of no processor and no job
pub mod orderings; // processors by falling memory, jobs by falling need
pub mod told; // refusals as numbers

// A dock's limits on processors and jobs; the arrays below are as long.
pub const MOST_PROCESSORS: u32 = 16;

pub const MOST_JOBS: u32 = 48;

// Makers are numbered from 1 to this.
pub const MOST_MAKERS: u32 = 16;

// An order: counts, and a column for each number of a processor or a job. It stands for the list of as many as it counts,
// zeros behind the end of an array.
#[derive(Clone, Copy)]
pub struct Order {
    pub processors: u32,
    pub memories: [u32; 16],
    pub jobs: u32,
    pub times: [u32; 48],
    pub dues: [i32; 48],
    pub needs: [u32; 48],
    pub makers: [u32; 48],
}

// Who calls the planner: the limits belong to the call (document 02, §10).
#[derive(Clone, Copy)]
pub enum Caller {
    Dock,
    Screen,
}

// The refusals but 10; where one carries a job or a processor, its number. Two have the caller, by whose limits they are numbered.
#[derive(Clone, Copy)]
pub enum Refusal {
    NoProcessor,
    TooManyProcessors(Caller),
    NoJob,
    TooManyJobs(Caller),
    TimeOutOfRange(u32),
    DueOutOfRange(u32),
    MakerOutOfRange(u32),
    FitsNoProcessor(u32),
    BoundOutOfRange,
    BufferTooShort,
    TooManyRows,
    BadFile,
    BookFull,
    ReadyOutOfRange(u32),
    BadWindow(u32),
    LowAboveHigh(u32),
}
