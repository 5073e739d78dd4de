// A register file with room for every field of every chip. The clock gate stands by itself, since a rule of the project has a guard borrow the plain gate field while the others are written; its place in the array is idle, so that a field's place is its number.
// No more is derived, for the time of a check: see `properties`.
#[derive(Clone, Copy)]
pub struct Registers {
    pub sclk_en: u32,
    pub values: [u32; 36],
}
