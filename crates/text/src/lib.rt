// Lines for people: words, numbers in decimal and bytes in hex, written from a place on as far as the lent bytes go.
#![tactic(auto)]

ghost use Rattle.std.specs.Prelude.{◌≡◌, [], ◌∷◌, ◌<◌};
ghost use Rattle.text.specs.Text.{hex_base, digits_of, decimal, field, value_text, hex_digit, hex_byte, hex_text, Printed};
ghost use Rattle.text.specs.Pages.{with_text};

// Lent bytes, and the place in them where the next text goes.
#[derive(Drop)]
pub struct Page<'a> {
    pub bytes: &'a mut [u8],
    pub place: usize,
}

#[tactic(auto, using(crate::proofs::Laws::writing))]
impl Page<'_> {
    // One byte.
    #[tactic(auto, unfolding(crate::specs::Pages::with_text))]
    fn byte(&mut self, b: u8)
        ensures { self.new ≡ with_text self.old (b ∷ []) }
    {
        if self.place < self.bytes.len() {
            self.bytes[self.place] = b;
            self.place += 1;
        }
    }

    // Words, as bytes.
    pub fn words(&mut self, words: &[u8])
        ensures { self.new ≡ with_text self.old words.now }
    {
        for b in words {
            self.byte(*b);
        }
    }

    // The digits of a number, the highest first, of which there are at most `places`.
    fn digits(&mut self, n: usize, places: usize)
        ensures { self.new ≡ with_text self.old (digits_of places n) }
    {
        if places == 0 {
            return;
        }
        if n >= 10 {
            self.digits(n / 10, places - 1);
        }
        self.byte(b'0' + (n % 10) as u8);
    }

    // A number in decimal.
    pub fn decimal(&mut self, n: usize)
        ensures { self.new ≡ with_text self.old (decimal n) }
    {
        self.digits(n, 20);
    }

    // Words, and then a number in decimal.
    pub fn field(&mut self, words: &[u8], n: usize)
        ensures { self.new ≡ with_text self.old (field words.now n) }
    {
        self.words(words);
        self.decimal(n);
    }

    // A value, with its sign where it is below zero.
    pub fn value(&mut self, v: i32)
        ensures { self.new ≡ with_text self.old (value_text v) }
    {
        if v < 0 {
            self.words(b"-");
        }
        self.decimal(v.unsigned_abs() as usize);
    }

    // A space and a byte in two digits.
    fn hex_byte(&mut self, b: u8)
        ensures { self.new ≡ with_text self.old (hex_byte b) }
    {
        self.words(&[b' ', hex_digit(b / HEX), hex_digit(b % HEX)]);
    }

    // Bytes, each in two digits and a space before it.
    pub fn hex(&mut self, bytes: &[u8])
        ensures { self.new ≡ with_text self.old (hex_text bytes.now) }
    {
        for b in bytes {
            self.hex_byte(*b);
        }
    }
}

// How many numbers a hex digit says.
const HEX: u8 = 16;

// The digit of a number below that.
#[tactic(auto, unfolding(crate::specs::Text::hex_digit))]
fn hex_digit(n: u8) -> u8
    requires { n < hex_base }
    ensures { result ≡ hex_digit n }
{
    if n < 10 { b'0' + n } else { b'A' + (n - 10) }
}

// Words, as bytes, and the place after them.
#[tactic(auto, unfolding(crate::specs::Pages::with_text))]
pub fn put_words(out: &mut [u8], at: usize, words: &[u8]) -> usize
    ensures { Printed out.old at words.now result out.new }
{
    let mut page = Page {
        bytes: out,
        place: at,
    };
    page.words(words);
    page.place
}

// A number in decimal.
#[tactic(auto, unfolding(crate::specs::Pages::with_text))]
pub fn put_decimal(out: &mut [u8], at: usize, n: usize) -> usize
    ensures { Printed out.old at (decimal n) result out.new }
{
    let mut page = Page {
        bytes: out,
        place: at,
    };
    page.decimal(n);
    page.place
}

// Words, and then a number in decimal.
#[tactic(auto, unfolding(crate::specs::Pages::with_text))]
pub fn put_field(out: &mut [u8], at: usize, words: &[u8], n: usize) -> usize
    ensures { Printed out.old at (field words.now n) result out.new }
{
    let mut page = Page {
        bytes: out,
        place: at,
    };
    page.field(words, n);
    page.place
}

// A value, with its sign where it is below zero.
#[tactic(auto, unfolding(crate::specs::Pages::with_text))]
pub fn put_value(out: &mut [u8], at: usize, v: i32) -> usize
    ensures { Printed out.old at (value_text v) result out.new }
{
    let mut page = Page {
        bytes: out,
        place: at,
    };
    page.value(v);
    page.place
}

// Bytes, each in two digits and a space before it.
#[tactic(auto, unfolding(crate::specs::Pages::with_text))]
pub fn put_hex(out: &mut [u8], at: usize, bytes: &[u8]) -> usize
    ensures { Printed out.old at (hex_text bytes.now) result out.new }
{
    let mut page = Page {
        bytes: out,
        place: at,
    };
    page.hex(bytes);
    page.place
}
