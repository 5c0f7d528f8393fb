// The tables of a degree: the powers of ω, once or five times round, and the logarithms.
ghost use Rattle.std.specs.Prelude.{◌≡◌, ◌-◌, ◌^◌};
ghost use Rattle.field.specs.Tables.{RoundFillable, Fillable, Powers, Powered, Logs, Tables, Filled};

use crate::product::{mask, order, times_x};

// The powers of ω alone, five rounds of them: all that sums of powers read.
#[derive(Clone, Copy)]
pub struct PowerTable<'a> {
    pub s: usize,
    pub powers: &'a [u16],
    ghost powered: { Powered s powers.now },
}

// The filled tables of degree s, in lent slices: what reads them knows what they hold.
#[derive(Clone, Copy)]
pub struct FieldTables<'a> {
    pub s: usize,
    pub powers: &'a [u16],
    pub logs: &'a [u16],
    ghost filled: { Tables s powers.now logs.now },
}

impl<'a> FieldTables<'a> {
    // The tables of degree s, filled into lent slices.
    pub fn fill(s: usize, powers: &'a mut [u16], logs: &'a mut [u16]) -> FieldTables<'a>
        requires { Fillable s powers.old logs.old }
        ensures { (result.s ≡ s) × Filled s logs.old result.powers.now result.logs.now }
    {
        fill(s, powers, logs);
        FieldTables { s, powers, logs }
    }

    // Without the logarithms.
    pub fn power_table(&self) -> PowerTable<'a>
        ensures { (result.s ≡ self.now.s) × (result.powers.now ≡ self.now.powers.now) }
    {
        PowerTable {
            s: self.s,
            powers: self.powers,
        }
    }
}

// The powers of ω once round, and their logarithms.
pub fn fill_round(s: usize, n: usize, powers: &mut [u16], logs: &mut [u16])
    requires { RoundFillable s powers.old logs.old × (n ≡ 2 ^ s - 1) }
    ensures { Powers s n powers.new × Logs s n logs.old logs.new }
{
    let m = mask(s);
    let mut x = 1u16;
    for i in 0..n {
        powers[i] = x;
        logs[usize::from(x)] = i as u16;
        x = times_x(m, s, x);
    }
}

// The powers come round after n: each entry is the one n before it. 0 has no logarithm; its entry says n.
pub fn fill(s: usize, powers: &mut [u16], logs: &mut [u16])
    requires { Fillable s powers.old logs.old }
    ensures { Filled s logs.old powers.new logs.new }
{
    let n = order(s);
    fill_round(s, n, powers, logs);
    logs[0] = n as u16;
    for i in n..5 * n {
        powers[i] = powers[i - n];
    }
}
