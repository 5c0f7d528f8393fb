// The defining set: cosets of the representatives marked in a lent array of zeros, one walk for each; refusal 5. A mark is a byte,
// 0 or 1: `marks` adds them up, and refusal 10 compares one with a term. n and its s come as two numbers: each caller has them of its own,
// from a header or a record, and a struct would be built again for each call.
ghost use Rattle.std.specs.Prelude.{◌≡◌, [], ◌<◌, ◌≤◌, length, get_or};
ghost use Rattle.field.specs.Search.{total};
ghost use Rattle.field.specs.Field.{OddLength, order_of_two};
ghost use Rattle.sheet.specs.Stage.{Marked, Marks, SetMarked};

// Marks the coset of r, in s turns of doubling, and counts the members met that are below r: none where r is the smallest.
fn mark(n: usize, s: usize, r: usize, zeros: &mut [u8]) -> usize
    requires { OddLength n × (s ≡ order_of_two n) × (r < n) × (n ≤ length zeros.old) }
    ensures { Marked n r zeros.old zeros.new result }
{
    let mut x = r;
    let mut low: usize = 0;
    for _j in 0..s {
        zeros[x] = 1;
        low += usize::from(x < r);
        x = field::order::twice(n, x);
    }
    low
}

// Refusal 5, with D marked where it is not drawn.
pub fn wrong_representative(n: usize, s: usize, representatives: &[u16], zeros: &mut [u8]) -> bool
    requires { OddLength n × (s ≡ order_of_two n) × Marks n [] zeros.old }
    ensures { SetMarked n representatives.now zeros.new result }
{
    let mut least: usize = 0;
    for r in representatives {
        let r = usize::from(*r);
        if n <= r || r < least || mark(n, s, r, zeros) != 0 {
            return true;
        }
        least = r + 1;
    }
    false
}

// How many of the first n are marked.
pub fn marks(n: usize, zeros: &[u8]) -> usize
    requires { (n ≤ length zeros.now) × (n ≤ 65535) }
    ensures { result ≡ total n (λ i. get_or zeros.now i 0) }
{
    let mut size: usize = 0;
    for z in &zeros[..n] {
        size += usize::from(*z);
    }
    size
}
