// The header of document 01's sheets: its numbers, and the conditions of refusals 1, 2 and 4.
ghost use Rattle.std.specs.Prelude.{◌≡◌, ◌+◌, ◌<◌, ◌≤◌, length};
ghost use Rattle.document.specs.Sheet.{wrong_length, wrong_code_length, wrong_header};
ghost use Rattle.document.specs.Short.{byte_at, number_at, short, stated};

pub fn byte(sheet: &[u8], i: usize) -> usize
    requires { i < length sheet.now }
    ensures { (result ≡ byte_at sheet.now i) × (result < 256) }
{
    usize::from(sheet[i])
}

// A 16-bit number, low byte first.
pub fn number(sheet: &[u8], i: usize) -> usize
    requires { i + 1 < length sheet.now }
    ensures { (result ≡ number_at sheet.now i) × (result < 65536) }
{
    usize::from(u16::from_le_bytes([sheet[i], sheet[i + 1]]))
}

// Refusal 1.
pub fn wrong_length(sheet: &[u8]) -> bool
    ensures { result ≡ wrong_length short sheet.now }
{
    let len = sheet.len();
    len < 10 || 74 < len || number(sheet, 0) != len
}

// n.
pub fn code_length(sheet: &[u8]) -> usize
    requires { 10 ≤ length sheet.now }
    ensures { (result ≡ (stated sheet.now).n) × (result < 256) }
{
    byte(sheet, 2)
}

// Refusal 2.
pub fn wrong_code_length(n: usize) -> bool
    ensures { result ≡ wrong_code_length short n }
{
    n % 2 == 0 || n < 3 || 127 < n
}

// Refusal 4.
pub fn wrong_header(sheet: &[u8]) -> bool
    requires { 10 ≤ length sheet.now }
    ensures { result ≡ wrong_header short sheet.now }
{
    let reps = byte(sheet, 3);
    let certs = byte(sheet, 6);
    32 < reps
        || number(sheet, 4) != 10
        || certs < 1
        || 4 < certs
        || byte(sheet, 7) != 0
        || number(sheet, 8) != 10 + reps
        || sheet.len() != 10 + reps + 8 * certs
}
