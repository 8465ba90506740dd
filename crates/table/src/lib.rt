// An accepted order as the running parts read it (document 01, "Why a bound is too tight" and "Plans"): classes, due times as leads,
// and the orderings of processors and jobs, made once.
#![tactic(auto)]

pub mod class; // the class of each job and of each processor
pub mod distinct; // the distinct members of a list, downwards
pub mod lead; // due times as leads
pub mod making; // the table of an order
pub mod passing; // the classes with their processors, in one pass
pub mod places; // values by place, and by input number

// The distinct members of a list, downwards; 0 beyond the count.
#[derive(Clone, Copy)]
pub struct Members {
    pub count: usize,
    pub at: [u32; 48],
}

// The classes of an order: how many, and of each its memory and its processors, class 1 first; 0 beyond the count.
#[derive(Clone, Copy)]
pub struct Listing {
    pub count: usize,
    pub memories: [u32; 16],
    pub procs: [u32; 16],
}

// The last class of the processors passed so far: its number, its memory and its processors; 0 each before the first.
#[derive(Clone, Copy)]
pub struct LastClass {
    pub number: usize,
    pub memory: u32,
    pub procs: u32,
}

// Counts of jobs (n), processors (m), classes (s) and distinct due times (q). The jobs lie by falling need, ties in input order (document
// 02, §8), and so by class: at each place a job's time, its class from 1, its lead (1,000,000 less the due time) and beside them, in
// by_need, its input number. The class of each processor; the processors of each class; the leads of the distinct due times, by rising due
// time; the processors' numbers by falling memory, ties in input order. 0 beyond the counts.
#[derive(Clone, Copy)]
pub struct Table {
    pub n: usize,
    pub m: usize,
    pub s: usize,
    pub q: usize,
    pub times: [u32; 48],
    pub classes: [u32; 48],
    pub leads: [u32; 48],
    pub kinds: [u32; 16],
    pub procs: [u32; 16],
    pub grid: [u32; 48],
    pub by_memory: [u32; 16],
    pub by_need: [u32; 48],
}
