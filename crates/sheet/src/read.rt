// What a sheet of document 01's kind states, read from its bytes: its representatives and certificates, in lent slices.
// `Counted short sheet.now` stands in each contract here: it is a fact of the sheet's bytes, which are read by their places; a struct of them
// would be opened for that in each.
ghost use Rattle.std.specs.Prelude.{◌≡◌, ◌≤◌, ◌<◌, ◌*◌, length};
ghost use Rattle.document.specs.Sheet.{certificate_at};
ghost use Rattle.document.specs.Short.{short, stated};
ghost use Rattle.document.proofs.Stated.{Counted};
ghost use Rattle.sheet.specs.Stage.{certificate_as, RepresentativesRead, CertificatesRead};

use crate::header::{byte, number};
use crate::types::Certificate;

// How many representatives.
pub fn representative_count(sheet: &[u8]) -> usize
    requires { Counted short sheet.now }
    ensures { (result ≡ length (stated sheet.now).representatives) × (result ≤ short.most_representatives) }
{
    byte(sheet, 3)
}

// The representatives, to the front of a slice.
pub fn read_representatives(sheet: &[u8], representatives: &mut [u16])
    requires { Counted short sheet.now × (length (stated sheet.now).representatives ≤ length representatives.old) }
    ensures { RepresentativesRead (stated sheet.now) representatives.new }
{
    let count = byte(sheet, 3);
    for (i, r) in representatives[..count].iter_mut().enumerate() {
        *r = u16::from(sheet[10 + i]);
    }
}

// Certificate i.
pub fn read_certificate(sheet: &[u8], i: usize) -> Certificate
    requires { Counted short sheet.now × (i < length (stated sheet.now).certificates) }
    ensures { certificate_as result ≡ certificate_at (stated sheet.now) i }
{
    let at = 10 + byte(sheet, 3) + 8 * i;
    let b = byte(sheet, at) as u16;
    let z = byte(sheet, at + 1) as u16;
    let f = number(sheet, at + 2) as u16;
    let h = byte(sheet, at + 4) as u16;
    let zero = byte(sheet, at + 5) as u16;
    let terms = number(sheet, at + 6) as u16;
    Certificate {
        b,
        z,
        f,
        h,
        zero,
        terms,
    }
}

// All certificates, to the front of a slice; how many there are. The slice is lent, as there is no heap; the caller cuts off so many.
pub fn read_certificates(sheet: &[u8], certificates: &mut [Certificate]) -> usize
    requires { Counted short sheet.now × (4 ≤ length certificates.old) }
    ensures { CertificatesRead (stated sheet.now) certificates.new result }
{
    let count = byte(sheet, 6);
    for (i, c) in certificates[..count].iter_mut().enumerate() {
        *c = read_certificate(sheet, i);
    }
    count
}
