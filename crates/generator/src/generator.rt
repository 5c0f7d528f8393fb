// The generator, the product of the cosets' factors, in a packed slice: whatever stands there is multiplied by it.
ghost use Rattle.std.specs.Prelude.{◌≡◌, [], ◌∷◌, ◌-◌, ◌/◌, ◌^◌, length, IfSome};
ghost use Rattle.field.specs.Field.{Degree};
ghost use Rattle.document.specs.Generator.{generator};
ghost use Rattle.binary.specs.Packed.{packed};
ghost use Rattle.generator.specs.Coset.{CosetOf};
ghost use Rattle.generator.specs.Building.{Rising, Lengths, RoomWhereSmall, Multiplied};

use crate::coset::coset_factor;
use crate::round::RoundTables;
use binary::packed::{hand_over, multiply};
use field::product::order;

// Tables where they pay, for so many cosets: not those of a field above 256 elements, nor where filling them takes longer than they
// save.
fn fill_where_it_pays<'a>(
    s: usize,
    count: usize,
    powers: &'a mut [u16],
    logs: &'a mut [u16],
) -> Option<RoundTables<'a>>
    requires { Degree s × RoomWhereSmall s powers.old logs.old }
    ensures { IfSome result (λ t. t.s ≡ s) }
{
    if s > 8 || order(s) / (20 * s) >= count {
        return None;
    }
    Some(RoundTables::fill(s, powers, logs))
}

// The product times the factor of the coset of r. The other slice holds 0 before and after.
fn times_coset(
    product: &mut [u64],
    other: &mut [u64],
    n: usize,
    s: usize,
    r: usize,
    exponent: usize,
    tables: Option<&RoundTables>,
)
    requires { CosetOf n s r × (exponent ≡ (2 ^ s - 1) / n) × IfSome tables (λ t. t.now.s ≡ s) × (length other.old ≡ length product.old) × (packed other.old ≡ 0) }
    ensures { Multiplied (generator n (r ∷ [])) product.old product.new other.new }
{
    let f = coset_factor(n, s, r, exponent, tables);
    multiply(other, f.mask as u64, f.degree + 1, product);
    hand_over(other, product);
}

// The product times the generator of the code of length n with these representatives. The other slice holds 0 before and after.
pub fn times_generator(
    representatives: &[u16],
    n: usize,
    s: usize,
    product: &mut [u64],
    other: &mut [u64],
    powers: &mut [u16],
    logs: &mut [u16],
)
    requires { Lengths n s × Rising n representatives.now × (length other.old ≡ length product.old) × (packed other.old ≡ 0) × RoomWhereSmall s powers.old logs.old }
    ensures { Multiplied (generator n representatives.now) product.old product.new other.new }
{
    let tables = fill_where_it_pays(s, representatives.len(), powers, logs);
    let exponent = order(s) / n;
    // By the index, which the wrong program root_of_index takes for the representative.
    for i in (0..representatives.len()).rev() {
        let r = representatives[i] as usize;
        times_coset(product, other, n, s, r, exponent, tables.as_ref());
    }
}
