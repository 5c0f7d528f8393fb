// The factor of a coset, the product of x - α^i over it, with no polynomial over the field: it is a mask of degree at most s, so it
// is its own value at ω, the product of ω + α^i over the coset, plus the field's mask where its degree is s.
ghost use Rattle.std.specs.Prelude.{◌≡◌, ◌-◌, ◌/◌, ◌^◌, ◌<◌, IfSome, IfNone};
ghost use Rattle.field.specs.Field.{Degree, order_of_two, ω, field_power};
ghost use Rattle.generator.specs.Coset.{CosetOf, CosetWalked, FromValue, Factored};

use crate::round::RoundTables;
use field::order::{step, twice};
use field::power::power;
use field::product::{mask, multiply, order};

#[derive(Clone, Copy)]
pub struct Factor {
    pub mask: u16,
    pub degree: usize,
}

// The mask of a degree up to s that has this value at ω.
fn from_value(s: usize, value: u16, degree: usize) -> Factor
    requires { Degree s }
    ensures { FromValue s value degree result.mask result.degree }
{
    let mask = if degree == s { value ^ mask(s) } else { value };
    Factor { mask, degree }
}

// `CosetOf` and the exponent stand in each contract below: a struct of n, s, r and the exponent would be built anew for every coset, and
// opened at once.

// By products of elements. Each member's root is the square of the one before. The exponent is that of α as a power of ω.
fn factor_by_products(n: usize, s: usize, r: usize, exponent: usize) -> Factor
    requires { CosetOf n s r × (exponent ≡ (2 ^ s - 1) / n) }
    ensures { Factored n s r result.mask result.degree }
{
    let mut root = power(s, 2, r * exponent);
    let mut value = 1u16;
    let mut degree: usize = 0;
    let mut x = r;
    loop {
        value = multiply(s, root ^ 2, value);
        degree += 1;
        x = twice(n, x);
        if x == r {
            return from_value(s, value, degree);
        }
        root = multiply(s, root, root);
    }
}

// How many members the coset of r has.
fn members(n: usize, r: usize) -> usize
    requires { CosetOf n (order_of_two n) r }
    ensures { CosetWalked n (order_of_two n) r result }
{
    let mut degree: usize = 0;
    let mut x = r;
    loop {
        degree += 1;
        x = twice(n, x);
        if x == r {
            return degree;
        }
    }
}

// The logarithm of an element. 0 has none.
fn logarithm(tables: &RoundTables, element: u16) -> Option<usize>
    requires { element < 2 ^ tables.now.s }
    ensures power { IfSome result (λ k. (k < 2 ^ tables.now.s - 1) × (field_power tables.now.s ω k ≡ element)) }
    ensures zero { IfNone result (element ≡ 0) }
{
    if element == 0 {
        return None;
    }
    Some(tables.logs[element as usize] as usize)
}

// By sums of logarithms. One of the elements may be 0, which has no logarithm: then the value is 0 too.
fn factor_by_logarithms(n: usize, r: usize, exponent: usize, tables: &RoundTables) -> Factor
    requires { CosetOf n tables.now.s r × (exponent ≡ (2 ^ tables.now.s - 1) / n) }
    ensures { Factored n tables.now.s r result.mask result.degree }
{
    let end = order(tables.s);
    let mut sum: usize = 0;
    let mut degree: usize = 0;
    let mut x = r;
    'walk: loop {
        let element = tables.powers[x * exponent] ^ 2;
        let Some(logarithm) = logarithm(tables, element) else {
            return from_value(tables.s, 0, members(n, r));
        };
        sum = step(end, sum, logarithm);
        degree += 1;
        x = twice(n, x);
        if x == r {
            return from_value(tables.s, tables.powers[sum], degree);
        }
    }
}

// The factor of the coset of r, by the tables of one round where they are filled.
pub fn coset_factor(
    n: usize,
    s: usize,
    r: usize,
    exponent: usize,
    tables: Option<&RoundTables>,
) -> Factor
    requires { CosetOf n s r × (exponent ≡ (2 ^ s - 1) / n) × IfSome tables (λ t. t.now.s ≡ s) }
    ensures { Factored n s r result.mask result.degree }
{
    match tables {
        Some(tables) => factor_by_logarithms(n, r, exponent, tables),
        None => factor_by_products(n, s, r, exponent),
    }
}
