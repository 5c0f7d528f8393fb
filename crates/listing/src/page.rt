// The listing of a sheet in a lent slice: five kinds of lines where it is accepted, and one where it is refused.
ghost use Rattle.std.specs.Prelude.{◌+◌, ◌*◌, ◌<◌, ◌≤◌, length};
ghost use Rattle.document.specs.Card.{refused_line};
ghost use Rattle.listing.specs.Wrote.{Wrote, Adds};
ghost use Rattle.sheet.specs.Stage.{certificate_as};
ghost use Rattle.listing.specs.Text.{Ranges, code_texts};
ghost use Rattle.listing.specs.Accepted.{Rated, certificate_row, certificate_rows, CertificatesRated, Listable, PageListed};

use crate::piece::Page;
use certificate::check::distance_of;
use sheet::types::Certificate;

impl<'a> Page<'a> {
    // The lines of the code itself.
    fn code_lines(&mut self, n: usize, k: usize, s: usize, zeros: &[u8], generator: &[u64])
        requires { (self.old.end + 6 * n + 38 ≤ length self.old.out.now) × Ranges n k s zeros.now generator.now }
        ensures { Adds (code_texts n k s zeros.now generator.now) self.old self.new × (self.new.end ≤ self.old.end + 6 * n + 38) }
    {
        self.code_line(n, k, s);
        self.zeros_line(n, zeros);
        self.generator_line(generator, n - k);
    }

    // The line of certificate i.
    fn put_certificate(&mut self, i: usize, c: Certificate)
        requires { (self.old.end + 35 ≤ length self.old.out.now) × (i < 1000) × Rated (certificate_as c) }
        ensures { Adds (certificate_row (certificate_as c) i) self.old self.new × (self.new.end ≤ self.old.end + 35) }
    {
        self.certificate_line(i, usize::from(c.terms), distance_of(c));
    }

    // The lines of the certificates.
    fn certificate_lines(&mut self, certificates: &[Certificate])
        requires { (self.old.end + 35 * length certificates.now ≤ length self.old.out.now) × CertificatesRated certificates.now }
        ensures { Adds (certificate_rows certificates.now) self.old self.new × (self.new.end ≤ self.old.end + 35 * length certificates.now) }
    {
        for (i, c) in certificates.iter().enumerate() {
            self.put_certificate(i, *c);
        }
    }
}

// The listing of what an accepted sheet states; its length. The numbers are those of its record, `zeros` marks D. They come
// one by one: of a Record the listing would not read d and terms, which it has of each certificate.
pub fn write_accepted(
    n: usize,
    k: usize,
    s: usize,
    working: usize,
    t: usize,
    certificates: &[Certificate],
    zeros: &[u8],
    generator: &[u64],
    out: &mut [u8],
) -> usize
    requires { Listable n k s working t certificates.now zeros.now generator.now × (6 * n + 35 * length certificates.now + 65 ≤ length out.old) }
    ensures { PageListed n k s working t certificates.now zeros.now generator.now out.old out.new result }
{
    let mut page = Page { out, end: 0 };
    page.code_lines(n, k, s, zeros, generator);
    page.certificate_lines(certificates);
    page.radius_line(t, working);
    page.end
}

// The listing of a refused sheet; its length.
pub fn write_refused(number: usize, out: &mut [u8]) -> usize
    requires { (number < 10000) × (13 ≤ length out.old) }
    ensures { Wrote (refused_line number) 0 out.old out.new result }
{
    let mut page = Page { out, end: 0 };
    page.put_field(b"refused", number);
    page.put(b'\n');
    page.end
}
