// Coprime numbers, and the degree of a mask.
ghost use Rattle.std.specs.Prelude.{◌≡◌, ◌<◌};
ghost use Rattle.binary.specs.Factor.{coprime as coprimeOf, degree as degree_of};

// x and y keep the divisors that a and b have in common: at the end y is 1 and there is no other, or y is 0 and x is the greatest.
// Where a is 1 nothing is divided.
pub fn coprime(a: usize, b: usize) -> bool
    ensures { result ≡ coprimeOf a b }
{
    let mut x = b;
    let mut y = a;
    while y > 1 {
        let r = x % y;
        x = y;
        y = r;
    }
    y == 1 || x == 1
}

pub fn degree(f: usize) -> usize
    requires { f < 65536 }
    ensures { result ≡ degree_of f }
{
    if f == 0 { 0 } else { f.ilog2() as usize }
}
