// Text in a lent slice: a page, and the pieces that are written on it, each where the last one ends.
ghost use Rattle.std.specs.Prelude.{[], ◌∷◌, ◌++◌, ◌+◌, ◌<◌, ◌≤◌, length};
ghost use Rattle.document.specs.Card.{decimal, spaced};
ghost use Rattle.listing.specs.Wrote.{Adds};

// A lent slice, and how much of it is written: a String or Vec would ask for a heap. Each piece asks for the room that it takes, so no fact of
// the page alone says it.
#[derive(Drop)]
pub struct Page<'a> {
    pub out: &'a mut [u8],
    pub end: usize,
}

impl<'a> Page<'a> {
    pub fn put(&mut self, byte: u8)
        requires { self.old.end < length self.old.out.now }
        ensures { Adds (byte ∷ []) self.old self.new }
    {
        self.out[self.end] = byte;
        self.end += 1;
    }

    pub fn put_text(&mut self, text: &[u8])
        requires { self.old.end + length text.now ≤ length self.old.out.now }
        ensures { Adds text.now self.old self.new }
    {
        let end = self.end + text.len();
        self.out[self.end..end].copy_from_slice(text);
        self.end = end;
    }

    // In decimal digits: those of x / 10, and the last one. By Display, as `InlineText::<4>::of(x)`, a number takes three times as long
    // and 3 KB more of code; `write!` answers a Result, and `write_accepted` cannot fail.
    pub fn put_decimal(&mut self, x: usize)
        requires { self.old.end + length (decimal x) ≤ length self.old.out.now }
        ensures { Adds (decimal x) self.old self.new }
    {
        if x < 10 {
            self.put(b'0' + x as u8);
        } else {
            self.put_decimal(x / 10);
            self.put(b'0' + (x % 10) as u8);
        }
    }

    // One space, and a number.
    pub fn put_spaced(&mut self, x: usize)
        requires { (self.old.end + 5 ≤ length self.old.out.now) × (x < 10000) }
        ensures { Adds (spaced x) self.old self.new × (self.new.end ≤ self.old.end + 5) }
    {
        self.put(b' ');
        self.put_decimal(x);
    }

    // A word, one space, and a number.
    pub fn put_field(&mut self, word: &[u8], x: usize)
        requires { (self.old.end + length word.now + 5 ≤ length self.old.out.now) × (x < 10000) }
        ensures { Adds (word.now ++ spaced x) self.old self.new × (self.new.end ≤ self.old.end + length word.now + 5) }
    {
        self.put_text(word);
        self.put_spaced(x);
    }
}
