// What amounts are asked for, and the filling under way. Both lend what the caller of `solve` lent.

// Times and classes of n jobs and of the idle job n, the jobs' caps in q stretches, and the rooms of m classes there.
#[derive(Clone, Copy)]
pub struct Instance<'a> {
    pub time: &'a [u32],
    pub class: &'a [usize],
    pub cap: &'a [u32],
    pub room: &'a [u32],
    pub n: usize,
    pub q: usize,
    pub m: usize,
}

// A filling under way: amounts and slacks of the stretches, what is left of the jobs, and their heights.
#[derive(Drop)]
pub struct Filling<'a> {
    pub w: &'a mut [u32],
    pub slack: &'a mut [u32],
    pub left: &'a mut [u32],
    pub height: &'a mut [usize],
}
