// Text, numbers and lists written to a page, never beyond its end.
#![tactic(auto)]

ghost use Rattle.std.specs.Prelude.{◌≡◌, ℕ, List, ◌∷◌, ◌++◌, ◌+◌, ◌%◌, ◌<◌, map, length, drop};
ghost use Rattle.walk_text.specs.Page.{SameSlice, page, written};
ghost use Rattle.walk_text.specs.Numbers.{decimal, commas};

// A lent page, and the place where the next text goes.
#[derive(Drop)]
pub struct Page<'a> {
    pub bytes: &'a mut [u8],
    pub next: usize,
}

// What prints as a number.
pub trait Number: Copy {
    ghost value: { Self → ℕ };

    fn value(self) -> usize
        ensures { result ≡ value self };
}

impl Number for u8 {
    ghost value = { λ n. n };

    fn value(self) -> usize {
        self as usize
    }
}

impl Number for u32 {
    ghost value = { λ n. n };

    fn value(self) -> usize {
        self as usize
    }
}

impl Page<'_> {
    // A text, cut at the page's end.
    pub fn text(&mut self, text: &[u8])
        ensures slice { SameSlice self.old.bytes self.new.bytes }
        ensures laid { page self.new.bytes.now self.new.next ≡ written text.now (page self.old.bytes.now self.old.next) }
    {
        self.next = put_text(self.bytes, self.next, text);
    }

    pub fn number(&mut self, n: usize)
        ensures slice { SameSlice self.old.bytes self.new.bytes }
        ensures laid { page self.new.bytes.now self.new.next ≡ written (decimal n) (page self.old.bytes.now self.old.next) }
    {
        self.next = put_number(self.bytes, self.next, n);
    }

    pub fn list<T: Number>(&mut self, list: &[T])
        ensures slice { SameSlice self.old.bytes self.new.bytes }
        ensures laid { page self.new.bytes.now self.new.next ≡ written (commas (map T.value list.now)) (page self.old.bytes.now self.old.next) }
    {
        self.next = put_list(self.bytes, self.next, list);
    }
}

// A text from a place on, cut at the end. Returns the place behind it. Byte by byte, and on past a full page: a loop that ended there would be compiled to a copy of a counted length, a call, which costs more than most texts, short as they are.
pub fn put_text(out: &mut [u8], at: usize, text: &[u8]) -> usize
    ensures { page out.new result ≡ written text.now (page out.old at) }
{
    if at >= out.len() {
        return out.len();
    }
    let mut to = at;
    for byte in text {
        if to >= out.len() {
            continue;
        }
        out[to] = *byte;
        to += 1;
    }
    to
}

// The last digit of n.
fn digit(n: usize) -> u8
    ensures { result ≡ 48 + n % 10 }
{
    b'0' + (n % 10) as u8
}

// n in decimal at the end of the text. Returns where it begins.
fn spell(n: usize, text: &mut [u8; 20]) -> usize
    requires { length text.old ≡ 20 }
    ensures { (result < 20) × (length text.new ≡ 20) × (drop result text.new ≡ decimal n) }
{
    let mut i = 19;
    let mut rest = n;
    // no `for`: how many digits there are shows as they come
    while rest >= 10 {
        text[i] = digit(rest);
        rest /= 10;
        i -= 1;
    }
    text[i] = digit(rest);
    i
}

pub fn put_number(out: &mut [u8], at: usize, n: usize) -> usize
    ensures { page out.new result ≡ written (decimal n) (page out.old at) }
{
    let mut text = [0; 20];
    let from = spell(n, &mut text);
    put_text(out, at, &text[from..])
}

// A number with a comma before it.
fn put_further(out: &mut [u8], at: usize, n: usize) -> usize
    ensures { page out.new result ≡ written (44 ∷ decimal n) (page out.old at) }
{
    let to = put_text(out, at, b",");
    put_number(out, to, n)
}

pub fn put_list<T: Number>(out: &mut [u8], at: usize, list: &[T]) -> usize
    ensures { page out.new result ≡ written (commas (map T.value list.now)) (page out.old at) }
{
    let Some((first, rest)) = list.split_first() else {
        return put_text(out, at, b"");
    };
    let mut to = put_number(out, at, first.value());
    for n in rest {
        to = put_further(out, to, n.value());
    }
    to
}
