// A place in a buffer, where text is put.
ghost use Rattle.std.specs.Prelude.{◌≡◌, [], ◌∷◌, ◌+◌, ◌*◌, ◌<◌, ◌≤◌, length};
ghost use Rattle.text.specs.Decimal.{decimal, last_digits, Places};
ghost use Rattle.text.specs.Puts.{Put};
ghost use Rattle.text.specs.Grown.{Grown};
ghost use Rattle.text.specs.Answer.{fields_text, answer_line};

// Text goes into `out` from `at` on. The methods are inlined, so that a cursor stays in registers: without it a line costs a twentieth more.
#[derive(Drop)]
pub struct Cursor<'a> {
    pub out: &'a mut [u8],
    pub at: usize,
}

impl<'a> Cursor<'a> {
    #[inline(always)]
    fn put_byte(&mut self, b: u8)
        requires { self.old.at < length self.old.out.now }
        ensures { Grown self.old (b ∷ []) self.new }
    {
        self.out[self.at] = b;
        self.at += 1;
    }

    // A number in decimal.
    #[inline(always)]
    fn put_number(&mut self, n: u64)
        requires { self.old.at + 20 ≤ length self.old.out.now }
        ensures { Grown self.old (decimal n) self.new × (self.new.at ≤ self.old.at + 20) }
    {
        if n < 10 {
            self.put_byte(b'0' + n as u8);
            return;
        }
        let k = places(n);
        self.at = put_digits(self.out, self.at, n, k);
    }

    // A comma and a number.
    #[inline(always)]
    fn put_field(&mut self, v: u64)
        requires { self.old.at + 21 ≤ length self.old.out.now }
        ensures { Grown self.old (44 ∷ decimal v) self.new × (self.new.at ≤ self.old.at + 21) }
    {
        self.put_byte(b',');
        self.put_number(v);
    }

    // A whole line: the numbers, parted by commas.
    #[inline(always)]
    pub fn put_line(&mut self, line: u64, answer: u64, values: &[u64])
        requires { self.old.at + (42 + 21 * length values.now) ≤ length self.old.out.now }
        ensures { Grown self.old (answer_line line answer values.now) self.new }
    {
        self.put_number(line);
        self.put_field(answer);
        for v in values {
            self.put_field(*v);
        }
        self.put_byte(b'\n');
    }
}

// How many digits n has.
fn places(n: u64) -> usize
    ensures { Places n result }
{
    let mut power = 10;
    for k in 1..19 {
        if n < power {
            return k;
        }
        power *= 10;
    }
    if n < power { 19 } else { 20 }
}

// The last k digits of n, put from the last ones backwards, two a turn. By hand: the kit's `itoa` would be one more library to trust.
fn put_digits(out: &mut [u8], at: usize, n: u64, k: usize) -> usize
    requires { at + k ≤ length out.old }
    ensures { Put out.old at (last_digits k n) out.new result × (result ≡ at + k) }
{
    let mut rest = n;
    let mut i = k;
    while 2 <= i {
        let two = (rest % 100) as u8;
        rest /= 100;
        i -= 2;
        out[at + i + 1] = b'0' + two % 10;
        out[at + i] = b'0' + two / 10;
    }
    if i == 1 {
        out[at] = b'0' + (rest % 10) as u8;
    }
    at + k
}
