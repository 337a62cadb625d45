// The columns of a table.
ghost use Rattle.std.specs.Prelude.{◌≡◌, ◌++◌, ◌-◌, length, map, replicate};
ghost use Rattle.words.specs.Message.{Added, decimal, shown};

use crate::{Text, add, add_shown, put};

// Adds a space for each character that `count` of them lack of a column of so many.
fn add_spaces(text: &mut [u8], at: usize, count: usize, width: usize) -> usize
    ensures { Added text.old at (replicate (width - count) 32) text.new result }
{
    let mut end = at;
    for i in count..width {
        end = put(text, end, b' ');
    }
    end
}

impl Text<'_> {
    // Adds a number at the right of a column of so many characters.
    pub fn add_right(&mut self, width: usize, number: u64)
        ensures same_buffer { self.new.bytes.ghost_name ≡ self.old.bytes.ghost_name }
        ensures same_length { length self.new.bytes.now ≡ length self.old.bytes.now }
        ensures adds { Added self.old.bytes.now self.old.at
            (replicate (width - length (decimal number)) 32 ++ decimal number) self.new.bytes.now self.new.at }
    {
        let mut digits = [0; 20];
        let count = io::decimal(number, &mut digits);
        let at = add_spaces(self.bytes, self.at, count, width);
        self.at = add(self.bytes, at, &digits[..count]);
    }

    // Adds a word at the left of a column of so many characters.
    pub fn add_left(&mut self, width: usize, word: &[u8])
        ensures same_buffer { self.new.bytes.ghost_name ≡ self.old.bytes.ghost_name }
        ensures same_length { length self.new.bytes.now ≡ length self.old.bytes.now }
        ensures adds { Added self.old.bytes.now self.old.at
            (map shown word.now ++ replicate (width - length word.now) 32) self.new.bytes.now self.new.at }
    {
        let at = add_shown(self.bytes, self.at, word);
        self.at = add_spaces(self.bytes, at, word.len(), width);
    }
}
