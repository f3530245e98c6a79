// Lines, fields, words and numbers out of bytes, and texts into a lent buffer.
// A writer writes its text at a place, as far as the buffer reaches, and answers the place behind it: run over an empty slice it counts.
#![tactic(auto)]

ghost use Rattle.std.specs.Prelude.{◌≡◌, [], ◌∷◌, ◌+◌, ◌*◌, ◌≤◌, min, leb, length, get_or};
ghost use Rattle.node.specs.Lists.{all_of};
ghost use Rattle.rules.specs.Answers.{done};
ghost use Rattle.text.specs.Parts.{line_byte, place_from, fields_of, equal};
ghost use Rattle.text.specs.Numbers.{is_digit, unsigned_form, digit_value, ceiling, natural_of, number_of, ranged_of};
ghost use Rattle.text.specs.Results.{fault_number, signed_of, amount, number_told, ranged_told, value_told, value_answer};
ghost use Rattle.text.specs.Values.{plus_of, minus_of, int_of, value_of, letter_of, value_text};
ghost use Rattle.text.specs.Writing.{Wrote, digits, int_text, number_line};

use node::{ProcessNumber, Value};

// Past every range: a value is held here, so a number may have any length.
const CEILING: u64 = 4294967296;

// Why a number or a value can't be read.
#[derive(Clone, Copy, PartialEq, Eq, Debug)]
pub enum Fault {
    // A wrong number form or letter: 11.
    Malformed,
    // A number out of its range: 12.
    OutOfRange,
}

impl Fault {
    // The number that a text's writer is told.
    pub fn number(self) -> u8
        ensures { result ≡ fault_number self }
    {
        match self {
            Fault::Malformed => 11,
            Fault::OutOfRange => 12,
        }
    }
}

// A number as it is read: its sign and its value, held at the ceiling (`signed_of`).
#[derive(Clone, Copy, PartialEq, Eq, Debug)]
pub enum Number {
    Plus(u64),
    Minus(u64),
}

impl Number {
    // The number as one integer.
    fn amount(self) -> i128
        ensures { result ≡ amount self }
    {
        match self {
            Number::Plus(m) => i128::from(m),
            Number::Minus(m) => -i128::from(m),
        }
    }
}

// The first place of `byte` at or after `from`; the length where there is none, so that the bytes before the answer are a part in any case.
pub fn find(s: &[u8], from: usize, byte: u8) -> usize
    ensures { result ≡ place_from byte from s.now }
{
    for k in from..s.len() {
        if s[k] == byte {
            return k;
        }
    }
    s.len()
}

// The end of the line that begins at `from`: the first place of byte 10 at or after it, the length where there is none.
pub fn line_end(s: &[u8], from: usize) -> usize
    ensures { result ≡ place_from line_byte from s.now }
{
    find(s, from, b'\n')
}

// Whether a text is a word.
pub fn same(s: &[u8], word: &[u8]) -> bool
    ensures { result ≡ equal s.now word.now }
{
    s == word
}

// Field k of a line; empty where there is none.
pub fn field(line: &[u8], k: usize) -> &[u8]
    ensures { result.now ≡ get_or (fields_of line.now) k [] }
{
    line.split(|&b| b == b',').nth(k).unwrap_or(&[])
}

// How many fields a line has; the empty line has one.
pub fn count_fields(line: &[u8]) -> usize
    ensures { result ≡ length (fields_of line.now) }
{
    line.split(|&b| b == b',').count()
}

// A number of any length, with or without a minus.
pub fn read_number(s: &[u8]) -> Result<Number, Fault>
    ensures { number_told result ≡ number_of s.now }
{
    if s == b"-0".as_slice() {
        return Err(Fault::Malformed);
    }
    let n = match s.strip_prefix(b"-") {
        Some(rest) => natural(rest).map(Number::Minus),
        None => natural(s).map(Number::Plus),
    };
    n.ok_or(Fault::Malformed)
}

// A number that can't be negative, low to high.
pub fn read_ranged(s: &[u8], low: u8, high: u8) -> Result<u8, Fault>
    ensures { ranged_told result ≡ ranged_of (number_of s.now) low high }
{
    match read_number(s)? {
        Number::Plus(n) if u64::from(low) <= n && n <= u64::from(high) => Ok(n as u8),
        _ => Err(Fault::OutOfRange),
    }
}

// A letter, `i`, `a` or `p`, and its number.
pub fn read_value(s: &[u8]) -> Result<Value, Fault>
    ensures { value_told result ≡ value_answer (value_of s.now) }
{
    let Some((letter, rest)) = s.split_first() else {
        return Err(Fault::Malformed);
    };
    match letter {
        b'i' => int_value(read_number(rest)?),
        b'a' => Ok(Value::Atom(read_ranged(rest, 0, 255)?)),
        b'p' => Ok(Value::Pid(ProcessNumber(read_ranged(rest, 1, 16)?))),
        _ => Err(Fault::Malformed),
    }
}

// Places are counted up to the largest usize and stay there.
pub fn put_byte(out: &mut [u8], at: usize, b: u8) -> usize
    ensures { Wrote out.old at (b ∷ []) out.new result }
{
    if at < out.len() {
        out[at] = b;
    }
    at.saturating_add(1)
}

// A text that has room is stored at once.
pub fn put_bytes(out: &mut [u8], at: usize, s: &[u8]) -> usize
    ensures { Wrote out.old at s.now out.new result }
{
    let end = at.saturating_add(s.len());
    if end <= out.len() {
        store(&mut out[at..end], s);
    } else if at < out.len() {
        let n = out.len() - at;
        store(&mut out[at..], &s[..n]);
    }
    end
}

// A number in base ten. Its digits are counted first, so that they are stored where they stay, from the last on; a number that has no room,
// or is wider than any of a listing, is written digit by digit.
pub fn put_number(out: &mut [u8], at: usize, n: u64) -> usize
    ensures { Wrote out.old at (digits n) out.new result }
{
    if let Ok(m) = u32::try_from(n) {
        let end = at.saturating_add(width(m));
        if end <= out.len() {
            store_digits(&mut out[at..end], m);
            return end;
        }
    }
    clip_number(out, at, n)
}

// An integer in base ten, with a minus where it is below 0.
pub fn put_int(out: &mut [u8], at: usize, z: i32) -> usize
    ensures { Wrote out.old at (int_text z) out.new result }
{
    let n = z.unsigned_abs() as u64;
    if z < 0 {
        let e = put_byte(out, at, b'-');
        return put_number(out, e, n);
    }
    put_number(out, at, n)
}

pub fn put_value(out: &mut [u8], at: usize, v: Value) -> usize
    ensures { Wrote out.old at (value_text v) out.new result }
{
    let e = put_byte(out, at, letter_of(v));
    match v {
        Value::Int(z) => put_int(out, e, z),
        Value::Atom(a) => put_number(out, e, a as u64),
        Value::Pid(i) => put_number(out, e, i.0 as u64),
    }
}

// A key, a number and byte 10.
pub fn put_number_line(out: &mut [u8], at: usize, key: &[u8], n: u64) -> usize
    ensures { Wrote out.old at (number_line key.now n) out.new result }
{
    let e = put_bytes(out, at, key);
    let e = put_number(out, e, n);
    put_byte(out, e, b'\n')
}

// A text into as many bytes as it has. The library's copy would ask a program in C for `memmove`. The loop goes over the text: of a key its
// length is known where it is written, so that it is a move of a few words there.
fn store(places: &mut [u8], s: &[u8])
    requires { length places.old ≡ length s.now }
    ensures { places.new ≡ s.now }
{
    for (k, b) in s.iter().enumerate() {
        places[k] = *b;
    }
}

// How many digits a number has.
fn width(n: u32) -> usize
    ensures { result ≡ length (digits n) }
{
    match n.checked_ilog10() {
        None => 1,
        Some(k) => k as usize + 1,
    }
}

// A number into as many bytes as it has digits, the last digit first.
fn store_digits(places: &mut [u8], n: u32)
    requires { length places.old ≡ length (digits n) }
    ensures { places.new ≡ digits n }
{
    let mut m = n;
    for k in (1..places.len()).rev() {
        places[k] = b'0' + ((m % 10) as u8);
        m /= 10;
    }
    places[0] = b'0' + (m as u8);
}

// A number as far as it has room.
fn clip_number(out: &mut [u8], at: usize, n: u64) -> usize
    ensures { Wrote out.old at (digits n) out.new result }
{
    if n < 10 {
        return put_byte(out, at, b'0' + (n as u8));
    }
    let e = clip_number(out, at, n / 10);
    put_byte(out, e, b'0' + ((n % 10) as u8))
}

// The value with one digit more, held at the ceiling.
fn held(n: u64, b: u8) -> u64
    requires { n ≤ ceiling }
    ensures { result ≡ min (n * 10 + digit_value b) ceiling }
{
    (n * 10 + u64::from(b.saturating_sub(b'0'))).min(CEILING)
}

// The value of digits, held at the ceiling. Their form and their value are read in one pass.
fn digits_value(s: &[u8]) -> Option<u64>
    ensures { result ≡ natural_of (all_of is_digit s.now) s.now }
{
    let mut n = 0;
    for b in s {
        if !b.is_ascii_digit() {
            return None;
        }
        n = held(n, *b);
    }
    Some(n)
}

// The value of 0, or of digits of which the first is not 0.
fn natural(s: &[u8]) -> Option<u64>
    ensures { result ≡ natural_of (unsigned_form s.now) s.now }
{
    let first = *s.first()?;
    if first == b'0' {
        return (s.len() == 1).then_some(0);
    }
    digits_value(s)
}

// The value `i` of a number that was read.
fn int_value(n: Number) -> Result<Value, Fault>
    ensures { value_told result ≡ value_answer (int_of (done (signed_of n))) }
{
    match i32::try_from(n.amount()) {
        Ok(z) => Ok(Value::Int(z)),
        Err(_) => Err(Fault::OutOfRange),
    }
}

fn letter_of(v: Value) -> u8
    ensures { result ≡ letter_of v }
{
    match v {
        Value::Int(_) => b'i',
        Value::Atom(_) => b'a',
        Value::Pid(_) => b'p',
    }
}
