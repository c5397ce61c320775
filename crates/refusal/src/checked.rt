// A refusal's number and place: the error of every check and reader.

// The number is document 01's. It stays a number and is no enum: `parse_numbers::number`, `bac6_check::first_fault` and others that docs/ names take a refusal
// of any number and pass it on, and a type of 21 numbers would ask more of their callers.
#[derive(Clone, Copy, PartialEq, Eq)]
pub struct Refusal {
    pub number: u8,
    pub place: usize,
}
