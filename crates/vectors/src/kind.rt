// The kinds of calls, in the order of their numbers.

#[derive(Clone, Copy, Debug, PartialEq, Eq)]
pub enum Kind {
    Judge,
    Encode,
    Read,
    Decode,
    DecodeAll,
    Card,
    DecodeMarked,
    Shown,
    EncodeShort,
    ReadShort,
    DecodeShort,
    DecodeBlock,
}

// A number past the last is taken for 10.
impl From<u8> for Kind {
    fn from(number: u8) -> Kind {
        match number {
            0 => Kind::Judge,
            1 => Kind::Encode,
            2 => Kind::Read,
            3 => Kind::Decode,
            4 => Kind::DecodeAll,
            5 => Kind::Card,
            6 => Kind::DecodeMarked,
            7 => Kind::Shown,
            8 => Kind::EncodeShort,
            9 => Kind::ReadShort,
            11 => Kind::DecodeBlock,
            _ => Kind::DecodeShort,
        }
    }
}
