// What a program says: messages from templates, the columns of a table, numbers in decimal. Nothing is read or written here.
#![tactic(auto)]

mod columns;

ghost use Rattle.std.specs.Prelude.{◌≡◌, cond, [], ◌∷◌, map, ◌-◌, ◌≤◌, eqb, get_or, length, take};
ghost use Rattle.words.specs.Message.{shown as Message·shown};
ghost use Rattle.words.specs.Message.{decimal, piece, message, added, place_after, Added};

// A text in a buffer that is lent, put together piece by piece: `at` is the place behind the last piece. What of a piece has no room is cut off.
// A buffer and a place, and no String: the program uses no heap.
#[derive(Drop)]
pub struct Text<'a> {
    pub bytes: &'a mut [u8],
    pub at: usize,
    pub ghost within: { at ≤ length bytes.now },
}

// A character of a name; a question mark for a control character.
#[tactic(auto, unfolding(crate::specs::Message::shown))]
fn shown(c: u8) -> u8
    ensures { result ≡ Message·shown c }
{
    if c.is_ascii_control() {
        return b'?';
    }
    c
}

// Number k of those given; 0 past their end.
fn value_at(values: &[u64], k: usize) -> u64
    ensures { result ≡ get_or values.now k 0 }
{
    values.get(k).copied().unwrap_or(0)
}

// Puts a character at a place, where there is room, and returns the place after it.
fn put(text: &mut [u8], at: usize, c: u8) -> usize
    ensures { Added text.old at (c ∷ []) text.new result }
{
    if at < text.len() {
        text[at] = c;
        return at + 1;
    }
    at
}

// Adds characters from a place on, as far as there is room, and returns the place after them. So do those below.
fn add(text: &mut [u8], at: usize, words: &[u8]) -> usize
    ensures { Added text.old at words.now text.new result }
{
    if text.len() <= at {
        return at;
    }
    let count = words.len().min(text.len() - at);
    text[at..at + count].copy_from_slice(&words[..count]);
    at + count
}

// Adds the characters of a name.
fn add_shown(text: &mut [u8], at: usize, name: &[u8]) -> usize
    ensures { Added text.old at (map Message·shown name.now) text.new result }
{
    let mut end = at;
    for c in name {
        end = put(text, end, shown(*c));
    }
    end
}

// Adds a number in decimal.
fn add_decimal(text: &mut [u8], at: usize, number: u64) -> usize
    ensures { Added text.old at (decimal number) text.new result }
{
    let mut digits = [0; 20];
    let n = io::decimal(number, &mut digits);
    add(text, at, &digits[..n])
}

// Adds an s, unless there is one of what is named.
fn add_plural(text: &mut [u8], at: usize, number: u64) -> usize
    ensures { Added text.old at (cond (eqb number 1) [] (115 ∷ [])) text.new result }
{
    if number != 1 {
        return put(text, at, b's');
    }
    at
}

// Adds what a character of a template stands for, when k numbers are given before it.
fn add_piece(text: &mut [u8], at: usize, c: u8, values: &[u64], k: usize, name: &[u8]) -> usize
    ensures { Added text.old at (piece values.now name.now k c) text.new result }
{
    match c {
        b'#' => add_decimal(text, at, value_at(values, k)),
        b'~' => add_plural(text, at, value_at(values, k.saturating_sub(1))),
        b'@' => add_shown(text, at, name),
        _ => put(text, at, c),
    }
}

// Adds what a template says with numbers and a name, from any place on and as far as there is room, and returns the place after it.
pub fn add_message(
    text: &mut [u8],
    at: usize,
    template: &[u8],
    values: &[u64],
    name: &[u8],
) -> usize
    ensures { (result ≡ place_after (length text.old) at
        (message template.now values.now name.now))
        × (text.new ≡ added text.old at
        (message template.now values.now name.now)) }
{
    let mut end = at;
    let mut k = 0;
    for c in template {
        end = add_piece(text, end, *c, values, k, name);
        k += (*c == b'#') as usize;
    }
    end
}

impl<'a> Text<'a> {
    // A text with nothing in it.
    pub fn new(bytes: &'a mut [u8]) -> Self
        ensures place { result.at ≡ 0 }
        ensures lent { result.bytes.now ≡ bytes.old }
        ensures same_buffer { result.bytes.ghost_name ≡ bytes.entry.ghost_name }
    {
        Text { at: 0, bytes }
    }

    // What the text says.
    pub fn as_slice(&self) -> &[u8]
        ensures { result.now ≡ take self.now.at self.now.bytes.now }
    {
        &self.bytes[..self.at]
    }

    // Adds what a template says with numbers and a name.
    pub fn add_message(&mut self, template: &[u8], values: &[u64], name: &[u8])
        ensures same_buffer { self.new.bytes.ghost_name ≡ self.old.bytes.ghost_name }
        ensures same_length { length self.new.bytes.now ≡ length self.old.bytes.now }
        ensures adds { Added self.old.bytes.now self.old.at (message template.now values.now name.now)
            self.new.bytes.now self.new.at }
    {
        self.at = add_message(self.bytes, self.at, template, values, name);
    }

    // Adds what a template says with numbers.
    pub fn add_values(&mut self, template: &[u8], values: &[u64])
        ensures same_buffer { self.new.bytes.ghost_name ≡ self.old.bytes.ghost_name }
        ensures same_length { length self.new.bytes.now ≡ length self.old.bytes.now }
        ensures adds { Added self.old.bytes.now self.old.at (message template.now values.now [])
            self.new.bytes.now self.new.at }
    {
        self.add_message(template, values, b"");
    }

    // The same with a name and no number.
    pub fn add_name(&mut self, template: &[u8], name: &[u8])
        ensures same_buffer { self.new.bytes.ghost_name ≡ self.old.bytes.ghost_name }
        ensures same_length { length self.new.bytes.now ≡ length self.old.bytes.now }
        ensures adds { Added self.old.bytes.now self.old.at (message template.now (0 ∷ []) name.now)
            self.new.bytes.now self.new.at }
    {
        self.add_message(template, &[0], name);
    }
}
