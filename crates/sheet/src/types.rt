// A certificate as the sheet states it: 16-bit numbers in every kind of sheet.
#[derive(Clone, Copy, Default)]
pub struct Certificate {
    pub b: u16,
    pub z: u16,
    pub f: u16,
    pub h: u16,
    pub zero: u16,
    pub terms: u16,
}
