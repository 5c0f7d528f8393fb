// Polynomials over two elements packed 64 places to a number, the low number first, whatever the number of numbers. One pass,
// `double_add`, is the step of a product and of a division alike.
ghost use Rattle.std.specs.Prelude.{◌≡◌, ◌*◌, ◌/◌, ◌%◌, ◌^◌, ◌<◌, ◌≤◌, length, eqb};
ghost use Rattle.field.specs.Mask.{◌⊕◌, coefficient, clmul};
ghost use Rattle.binary.specs.Packed.{packed};

// x w, and g added where the selector is all ones, not 0. What comes up past the last number is dropped. The selector is a mask and no bool:
// it goes into each number by `&`, and the loop has no branch.
pub fn double_add(w: &mut [u64], g: &[u64], selector: u64)
    requires { (length w.old ≡ length g.now) × (selector ≡ selector % 2 * 18446744073709551615) }
    ensures { packed w.new ≡ (packed w.old * 2 % 2 ^ (64 * length g.now)) ⊕ selector % 2 * packed g.now }
{
    if w.len() == 2 {
        double_add_two(w, g, selector);
        return;
    }
    let mut carry = 0u64;
    for i in 0..w.len() {
        let x = w[i];
        w[i] = ((x << 1) + carry) ^ (g[i] & selector);
        carry = x >> 63;
    }
}

// The same for two numbers, with no loop: a compiler then keeps them out of memory. It stays beside the loop for speed: a bit into a
// register of two numbers takes 2.7 ns, and 3.2 ns by the loop.
fn double_add_two(w: &mut [u64], g: &[u64], selector: u64)
    requires { (length w.old ≡ 2) × (length g.now ≡ 2) × (selector ≡ selector % 2 * 18446744073709551615) }
    ensures { packed w.new ≡ (packed w.old * 2 % 2 ^ (64 * length g.now)) ⊕ selector % 2 * packed g.now }
{
    let x = w[0];
    w[0] = (x << 1) ^ (g[0] & selector);
    let y = w[1];
    w[1] = ((y << 1) + (x >> 63)) ^ (g[1] & selector);
}

// f g in place of 0, for a mask f of d places: by Horner's rule, its highest coefficient first. What comes up past the last number is
// dropped.
pub fn multiply(product: &mut [u64], f: u64, d: usize, g: &[u64])
    requires { (length product.old ≡ length g.now) × (packed product.old ≡ 0) × (f < 2 ^ d) × (d ≤ 64) }
    ensures { packed product.new ≡ clmul f (packed g.now) % 2 ^ (64 * length g.now) }
{
    for i in (0..d).rev() {
        double_add(product, g, ((f >> i) & 1) * 18446744073709551615);
    }
}

// What one slice holds handed over to the other, and 0 in its place. By a loop for speed: with the library's copy_from_slice and fill a
// generator of nine cosets takes 1.2 times as long to make.
pub fn hand_over(from: &mut [u64], to: &mut [u64])
    requires { length from.old ≡ length to.old }
    ensures { (packed to.new ≡ packed from.old) × (packed from.new ≡ 0) }
{
    for i in 0..from.len() {
        to[i] = from[i];
        from[i] = 0;
    }
}

// x^i in place of 0, or 0 where it lies past the last number.
pub fn power_of_x(w: &mut [u64], i: usize)
    requires { packed w.old ≡ 0 }
    ensures { packed w.new ≡ 2 ^ i % 2 ^ (64 * length w.old) }
{
    if i / 64 < w.len() {
        w[i / 64] = 1 << (i % 64);
    }
}

// The coefficient of x^i.
pub fn coefficient_at(w: &[u64], i: usize) -> u64
    requires { i / 64 < length w.now }
    ensures { result ≡ coefficient i (packed w.now) }
{
    (w[i / 64] >> (i % 64)) & 1
}

// Eight places from i on, as the low places of a number. `Layout::eight_places` of codeword is the same of bytes, whose places have an order
// of their own.
pub fn eight_places(w: &[u64], i: usize) -> u64
    requires { i / 64 < length w.now }
    ensures { result ≡ packed w.now / 2 ^ i % 256 }
{
    let at = i / 64;
    let low = w[at] >> (i % 64);
    if i % 64 <= 56 {
        return low & 255;
    }
    if at + 1 == w.len() {
        return low;
    }
    (low + (w[at + 1] << (64 - i % 64))) & 255
}

// Whether every coefficient is 0.
pub fn is_zero(w: &[u64]) -> bool
    ensures { result ≡ eqb (packed w.now) 0 }
{
    w.iter().all(|x| *x == 0)
}
