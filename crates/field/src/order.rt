// Steps modulo a length, and the degree of the field that holds the n-th roots of 1.
ghost use Rattle.std.specs.Prelude.{◌≡◌, ◌+◌, ◌*◌, ◌%◌, ◌<◌, ◌≤◌};
ghost use Rattle.field.specs.Field.{OddLength, order_of_two};

// 2 x modulo n, with no division.
pub fn twice(n: usize, x: usize) -> usize
    requires { OddLength n × (x < n) }
    ensures { result ≡ x * 2 % n }
{
    let d = x * 2;
    if d < n { d } else { d - n }
}

// (at + z) mod n, with no division.
pub fn step(n: usize, at: usize, z: usize) -> usize
    requires { (at < n) × (z < n) × (n ≤ 65535) }
    ensures { result ≡ (at + z) % n }
{
    let next = at + z;
    if next < n { next } else { next - n }
}

// s for a length n: x goes through 2, 4, 8, .. modulo n, and s counts, until x is 1.
pub fn order_of_two(n: usize) -> usize
    requires { OddLength n }
    ensures { result ≡ order_of_two n }
{
    let mut s: usize = 1;
    let mut x: usize = 2;
    while x != 1 {
        x = twice(n, x);
        s += 1;
    }
    s
}
