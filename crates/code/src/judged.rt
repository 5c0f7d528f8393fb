// A sheet judged and read, for every entry: refusals 1 to 10 in turn; of a sheet that draws none the record and the representatives.
ghost use Rattle.std.specs.Prelude.{◌≡◌, ◌≤◌, ◌<◌, length, IfOk, IfErr};
ghost use Rattle.document.specs.Answer.{refused, number_of, judged_as};
ghost use Rattle.document.specs.Short.{short, judge_of};
ghost use Rattle.code.specs.Stating.{HeaderPassed, StatedJudged, JudgedInto, SheetAccepted};

use codeword::code::CyclicCode;
use decoder::stated::StatedCode;
use document::types::{Record, Refusal};
use judging::judge::judge_code;
use sheet::header::{code_length, wrong_code_length, wrong_header, wrong_length};
use sheet::read::{
    read_certificate, read_certificates, read_representatives, representative_count,
};
use sheet::types::Certificate;

// A sheet that draws none of refusals 1 to 10, with its record, and its representatives in a lent slice.
#[derive(Clone, Copy)]
pub struct AcceptedSheet<'a> {
    pub sheet: &'a [u8],
    pub numbers: Record,
    pub representatives: &'a [u16],
    ghost accepted: { SheetAccepted short sheet.now numbers representatives.now },
}

impl<'a> AcceptedSheet<'a> {
    // Its code, as messages are encoded and read out by it.
    pub fn code(&self) -> CyclicCode<'a>
        ensures n { result.n ≡ self.now.numbers.n }
        ensures k { result.k ≡ self.now.numbers.k }
        ensures representatives { result.representatives.now ≡ self.now.representatives.now }
    {
        CyclicCode {
            n: self.numbers.n as usize,
            k: self.numbers.k as usize,
            s: self.numbers.s as usize,
            representatives: self.representatives,
        }
    }

    // Its code, as words are decoded by it: with the certificate at work.
    pub fn stated_code(&self) -> StatedCode<'a>
        ensures n { result.n ≡ self.now.numbers.n }
        ensures t { result.t ≡ self.now.numbers.t }
        ensures terms { result.certificate.terms < 1024 }
        ensures representatives { result.representatives.now ≡ self.now.representatives.now }
    {
        StatedCode {
            n: self.numbers.n as usize,
            s: self.numbers.s as usize,
            t: self.numbers.t as usize,
            certificate: read_certificate(self.sheet, self.numbers.working as usize),
            representatives: self.representatives,
        }
    }
}

// Refusals 5 to 10 of what a sheet states that draws none of 1 to 4; its representatives are copied.
fn judge_stated(
    sheet: &[u8],
    n: usize,
    s: usize,
    representatives: &mut [u16],
) -> Result<Record, Refusal>
    requires { HeaderPassed short sheet.now n s × (short.most_representatives ≤ length representatives.old) }
    ensures { StatedJudged short sheet.now representatives.new (judged_as result) }
{
    let mut zeros = [0u8; 128];
    let mut certificates = [Certificate::default(); 4];
    let certificate_count = read_certificates(sheet, &mut certificates);
    read_representatives(sheet, representatives);
    let count = representative_count(sheet);
    judge_code(
        1023,
        n,
        s,
        &representatives[..count],
        &certificates[..certificate_count],
        &mut zeros,
    )
}

// The sheet's bytes to its record, or to the first refusal of 1 to 10; the representatives of an accepted one are copied to the front of
// a slice.
pub fn judge_into(sheet: &[u8], representatives: &mut [u16]) -> Result<Record, Refusal>
    requires { short.most_representatives ≤ length representatives.old }
    ensures { JudgedInto short sheet.now representatives.new (judged_as result) }
{
    if wrong_length(sheet) {
        return Err(Refusal::SheetLength);
    }
    let n = code_length(sheet);
    if wrong_code_length(n) {
        return Err(Refusal::CodeLength);
    }
    let s = field::order::order_of_two(n);
    if 12 < s {
        return Err(Refusal::FieldDegree);
    }
    if wrong_header(sheet) {
        return Err(Refusal::Header);
    }
    judge_stated(sheet, n, s, representatives)
}

// The sheet, where it draws none of refusals 1 to 10; its representatives are copied to `room`.
pub fn accept<'a>(sheet: &'a [u8], room: &'a mut [u16]) -> Result<AcceptedSheet<'a>, Refusal>
    requires { short.most_representatives ≤ length room.old }
    ensures sheet { IfOk result (λ a. a.sheet.now ≡ sheet.now) }
    ensures accepted { IfOk result (λ a. SheetAccepted short sheet.now a.numbers a.representatives.now) }
    ensures refused { IfErr result (λ r. refused (number_of r) ≡ judge_of sheet.now) }
{
    let numbers = judge_into(sheet, room)?;
    let count = representative_count(sheet);
    Ok(AcceptedSheet {
        sheet,
        numbers,
        representatives: &room[..count],
    })
}
