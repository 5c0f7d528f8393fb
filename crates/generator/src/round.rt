// The tables of one round, filled into lent slices: the powers of ω and their logarithms. FieldTables of the field go five times round:
// `times_generator` asks its caller for room for one.
ghost use Rattle.std.specs.Prelude.{◌≡◌};
ghost use Rattle.field.specs.Tables.{RoundFillable};
ghost use Rattle.generator.specs.Coset.{OneRound};

use field::product::order;
use field::tables::fill_round;

#[derive(Clone, Copy)]
pub struct RoundTables<'a> {
    pub s: usize,
    pub powers: &'a [u16],
    pub logs: &'a [u16],
    ghost filled: { OneRound s powers.now logs.now },
}

impl<'a> RoundTables<'a> {
    pub fn fill(s: usize, powers: &'a mut [u16], logs: &'a mut [u16]) -> RoundTables<'a>
        requires { RoundFillable s powers.old logs.old }
        ensures { result.s ≡ s }
    {
        fill_round(s, order(s), powers, logs);
        RoundTables { s, powers, logs }
    }
}
