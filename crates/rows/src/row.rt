// The name of a row as a listing shows it: four bytes, each from 21 to 7E hexadecimal in a draft.
#[derive(Clone, Copy, Default, PartialEq, Eq, Debug)]
pub struct Label {
    pub first: u8,
    pub second: u8,
    pub third: u8,
    pub fourth: u8,
}

// One task: at most so many memory and processor steps a job, its deadline, the least distance between two
// arrivals, its rank on each resource (the smaller goes first) and its label.
#[derive(Clone, Copy, Default, PartialEq, Eq, Debug)]
pub struct Row {
    pub memory: u32,
    pub compute: u32,
    pub deadline: u32,
    pub period: u32,
    pub memory_rank: u8,
    pub processor_rank: u8,
    pub label: Label,
}

pub mod rules;
