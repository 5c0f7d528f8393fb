// The values and the refusals of the entries' answers. specs/Answer.antt gives the paper's number and values for each case.

// Why something is refused, by its number: in the order of document 01's table "Refused, by number"; then the refusals of document 02.
#[derive(Clone, Copy, Debug, PartialEq, Eq)]
pub enum Refusal {
    SheetLength = 1,
    CodeLength = 2,
    FieldDegree = 3,
    Header = 4,
    Representative = 5,
    NoMessage = 6,
    Range = 7,
    CommonFactor = 8,
    Period = 9,
    Term = 10,
    BufferLength = 11,
    SpareBit = 12,
    NoneNear = 13,
    NoCodeword = 14,
    NoneWithMarks = 15,
    Shortening = 16,
    InterleavingDepth = 17,
}

// The record made of an accepted sheet: d, t and terms are those of its working certificate.
#[derive(Clone, Copy)]
pub struct Record {
    pub n: u16,
    pub k: u16,
    pub s: u16,
    pub working: u16,
    pub d: u16,
    pub t: u16,
    pub terms: u16,
}

// What decoding with marked places shows: in how many unmarked places the codeword and the received word differ, and the trial whose
// buffer holds the codeword. The trial is a number, 0 or 1, and no enum: C hands it to dunefork_shown_length, which takes any number.
#[derive(Clone, Copy)]
pub struct Shown {
    pub unmarked: usize,
    pub trial: usize,
}
