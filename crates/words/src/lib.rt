// Words as numbers, their places in a table of numbers, and their letters.
#![tactic(auto)]

ghost use Rattle.std.specs.Prelude.{◌≡◌, length};
ghost use Rattle.text.specs.Writing.{Wrote};
ghost use Rattle.words.specs.Words.{word_number, place_of, found, letters};

// A word as one number, by which it is looked up: its letters as digits in base 32, a being 1, the first of them the lowest, with a 1 behind
// the last. A text that is longer than every word, or has a byte that is no small letter, is none: a clause's value stands where its word may
// stand, and is not read here.
pub fn word_code(word: &[u8]) -> Option<u64>
    ensures { result ≡ word_number word.now }
{
    if 9 < word.len() {
        return None;
    }
    let mut code = 1;
    for b in word.iter().rev() {
        if !b.is_ascii_lowercase() {
            return None;
        }
        code = u64::from(b - b'a' + 1) + 32 * code;
    }
    Some(code)
}

// Which of some numbers it is, from 0.
pub fn place_of(numbers: &[u64], n: u64) -> Option<usize>
    ensures { result ≡ found (place_of n numbers.now) (length numbers.now) }
{
    numbers.iter().position(|&m| n == m)
}

// The letters of a word, by its number, at a place of a buffer, as far as the buffer reaches; the place behind them is told.
pub fn put_word(out: &mut [u8], at: usize, code: u64) -> usize
    ensures { Wrote out.old at (letters code) out.new result }
{
    let mut e = at;
    let mut left = code;
    while 1 < left {
        e = text::put_byte(out, e, 96 + ((left % 32) as u8));
        left = left / 32;
    }
    e
}
