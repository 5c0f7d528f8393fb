// Figures of the field of 2^s elements for every degree: products, powers, logarithms, inverses, the table of
// polynomials and the order of 2. tools/field_figures.py makes the same figures with none of this code.
#![tactic(auto)]

// the checksum of a row of values
mod checksum;

// products by shifts and by tables
mod products;

// powers, logarithms and inverses
mod elements;

// primitive polynomials, by a walk
mod walk;

// the lines of figures
mod lines;

ghost use Rattle.std.specs.Prelude.{ℕ};
ghost use Rattle.field.specs.Field.{Degree};

use std::io;

fn main(rt: HostRuntime) -> io::Result<()> {
    degree_lines(|s| lines::product_line(&rt, s))?;
    degree_lines(|s| lines::element_line(&rt, s))?;
    degree_lines(|s| lines::polynomial_line(&rt, s))?;
    lines::length_line(&rt)
}

// A line for every degree of the table.
fn degree_lines<F: Fn(usize) -> io::Result<()>>(line: F) -> io::Result<()>
    requires { (s : ℕ) → Degree s → F.pre line s }
{
    for s in 2..=12 {
        line(s)?;
    }
    Ok(())
}
