// A code as the functions on words take it.
ghost use Rattle.codeword.specs.Codewords.{Usable};

// A cyclic code that has messages: its length, its dimension, the degree of its field, and the representatives of its cosets.
#[derive(Clone, Copy)]
pub struct CyclicCode<'a> {
    pub n: usize,
    pub k: usize,
    pub s: usize,
    pub representatives: &'a [u16],
    ghost usable: { Usable n k s representatives.now },
}
