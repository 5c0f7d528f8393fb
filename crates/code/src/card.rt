// The listing of a sheet, from its record where it is accepted.
ghost use Rattle.std.specs.Prelude.{◌≡◌, [], length};
ghost use Rattle.document.specs.Answer.{replied_as};
ghost use Rattle.document.specs.Card.{accepted_lines};
ghost use Rattle.document.specs.Short.{stated, card_of};
ghost use Rattle.sheet.specs.Stage.{Marks};
ghost use Rattle.codeword.specs.Codewords.{Coded};
ghost use Rattle.listing.specs.Wrote.{Wrote};

use crate::judged::{AcceptedSheet, accept};
use crate::refusal::refusal_number;
use binary::packed::power_of_x;
use document::types::Refusal;
use generator::generator::times_generator;
use listing::page::{write_accepted, write_refused};
use sheet::cosets::wrong_representative;
use sheet::read::read_certificates;
use sheet::types::Certificate;

// D of an accepted sheet marked in place of zeros.
fn mark_set(n: usize, s: usize, representatives: &[u16], zeros: &mut [u8])
    requires { Coded n s representatives.now × Marks n [] zeros.old }
    ensures { Marks n representatives.now zeros.new }
{
    wrong_representative(n, s, representatives, zeros);
}

// The listing of what an accepted sheet states, with its record's numbers and its certificates.
fn card_accepted(accepted: &AcceptedSheet, out: &mut [u8]) -> usize
    requires { length out.old ≡ 1024 }
    ensures { Wrote (accepted_lines (stated accepted.now.sheet.now)) 0 out.old out.new result }
{
    let a = accepted.numbers;
    let n = a.n as usize;
    let s = a.s as usize;
    let mut certificates = [Certificate::default(); 4];
    let count = read_certificates(accepted.sheet, &mut certificates);
    let mut generator = [0u64; 2];
    let mut other = [0u64; 2];
    let mut powers = [0u16; 255];
    let mut logs = [0u16; 256];
    let mut zeros = [0u8; 128];
    power_of_x(&mut generator, 0);
    times_generator(
        accepted.representatives,
        n,
        s,
        &mut generator,
        &mut other,
        &mut powers,
        &mut logs,
    );
    mark_set(n, s, accepted.representatives, &mut zeros);
    write_accepted(
        n,
        a.k as usize,
        s,
        a.working as usize,
        a.t as usize,
        &certificates[..count],
        &zeros,
        &generator,
        out,
    )
}

// The listing of any sheet, refused ones too, into a lent buffer of 1,024 bytes, which holds every listing; its length.
pub fn card(sheet: &[u8], out: &mut [u8]) -> Result<usize, Refusal>
    ensures { (replied_as result, out.new) ≡ card_of sheet.now out.old }
{
    if out.len() != 1024 {
        return Err(Refusal::BufferLength);
    }
    let mut room = [0u16; 32];
    match accept(sheet, &mut room) {
        Ok(accepted) => Ok(card_accepted(&accepted, out)),
        Err(r) => Ok(write_refused(refusal_number(r), out)),
    }
}
