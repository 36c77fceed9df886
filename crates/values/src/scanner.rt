//! The integers of a record.

ghost use Rattle.std.specs.Prelude.{◌≡◌, ◌≤◌, ◌∷◌, ◌+◌, ◌-◌, ◌*◌, IfOk, IfSome, neg_ℤ, pos, true};
ghost use Rattle.std.specs.Char.{is_ascii_digit};
ghost use Rattle.ast.specs.Input.{cut_at, integer_in, integer_of, integers_of};
ghost use Rattle.values.specs.Scanning.{kept, magnitude_in, part_onto, parts_onto, passing};
ghost use Rattle.values.specs.Scanning.{piece_length, pieces, word_onto, words_onto};
ghost use Rattle.values.specs.declared.scanner.Separator.TheVariants.{Blank, Comma};

use std::alloc::AllocError;

/// What parts the integers of a record.
#[derive(Clone, Copy)]
pub enum Separator {
    Comma,
    /// A space or a tab.
    Blank,
}

fn separates(separator: Separator, byte: u8) -> bool
    ensures { result ≡ passing separator byte }
{
    match separator {
        Separator::Comma => byte == b',',
        Separator::Blank => byte == b' ' || byte == b'\t',
    }
}

/// How many bytes stand before the first separator.
fn length_before(separator: Separator, text: &[u8]) -> usize
    ensures { result ≡ piece_length (passing separator) text.now }
{
    let mut n = 0;
    while n < text.len() && !separates(separator, text[n]) {
        n += 1;
    }
    n
}

/// The piece before the first separator, and what is behind that separator.
#[tactic(auto, using(crate::proofs::Scanning::cut_behind, crate::proofs::Scanning::cut_nowhere))]
fn cut<'t>(separator: Separator, text: &'t [u8]) -> (&'t [u8], Option<&'t [u8]>)
    ensures { cut_at (passing separator) text.now ≡ result.0.now ∷ pieces separator result.1 }
{
    let end = length_before(separator, text);
    if end < text.len() {
        (&text[..end], Some(&text[end + 1..]))
    } else {
        (text, None)
    }
}

/// A number with one digit more.
fn with_digit(number: u64, digit: u8) -> u128
    requires { is_ascii_digit digit ≡ true }
    ensures { result ≡ number * 10 + (digit - 48) }
{
    u128::from(number) * 10 + u128::from(digit - b'0')
}

/// The number that digits write, if it is at most the limit; `None` also where something else
/// stands among them, or there are none.
fn magnitude(limit: u64, digits: &[u8]) -> Option<u64>
    ensures value { result ≡ magnitude_in limit digits.now }
    ensures within { IfSome result (λ n. n ≤ limit) }
{
    if digits.is_empty() {
        return None;
    }
    let mut value: u64 = 0;
    for digit in digits {
        if !digit.is_ascii_digit() {
            return None;
        }
        let longer = with_digit(value, *digit);
        if longer > u128::from(limit) {
            return None;
        }
        value = longer as u64;
    }
    Some(value)
}

/// A number below zero.
fn opposite(magnitude: u64) -> i64
    requires { magnitude ≤ 9223372036854775808 }
    ensures { result ≡ neg_ℤ (pos magnitude) }
{
    (0 - i128::from(magnitude)) as i64
}

/// The integer of digits behind a minus.
#[tactic(auto, using(crate::proofs::Scanning::negative_some, crate::proofs::Scanning::negative_none))]
fn negative(digits: &[u8]) -> Option<i64>
    ensures { result ≡ integer_of (λ n. neg_ℤ (pos n)) digits.now }
{
    match magnitude(9_223_372_036_854_775_808, digits) {
        Some(number) => Some(opposite(number)),
        None => None,
    }
}

/// The integer of digits behind a plus or no sign.
#[tactic(auto, using(crate::proofs::Scanning::positive_some, crate::proofs::Scanning::positive_none))]
fn positive(digits: &[u8]) -> Option<i64>
    ensures { result ≡ integer_of (λ n. pos n) digits.now }
{
    match magnitude(9_223_372_036_854_775_807, digits) {
        Some(number) => Some(number as i64),
        None => None,
    }
}

/// The integer that a word writes, if it is one of 64 bits.
fn integer(word: &[u8]) -> Option<i64>
    ensures { result ≡ integer_in word.now }
{
    match word {
        [b'-', digits @ ..] => negative(digits),
        [b'+', digits @ ..] => positive(digits),
        _ => positive(word),
    }
}

/// Appends the integer of a word, none of an empty one; whether it is one.
fn add_word(word: &[u8], integers: &mut Vec<i64>) -> Result<bool, AllocError>
    ensures { IfOk result (λ is_formed. word_onto integers.old.items word.now
        ≡ kept is_formed integers.new.items) }
{
    if word.is_empty() {
        return Ok(true);
    }
    match integer(word) {
        None => Ok(false),
        Some(number) => {
            integers.push(number)?;
            Ok(true)
        }
    }
}

/// Appends the integers of a part; whether all its words are integers.
fn add_words(part: &[u8], integers: &mut Vec<i64>) -> Result<bool, AllocError>
    ensures { IfOk result (λ is_formed.
        words_onto integers.old.items (cut_at (passing Blank) part.now)
        ≡ kept is_formed integers.new.items) }
{
    let mut rest = Some(part);
    while let Some(text) = rest {
        let (word, behind) = cut(Separator::Blank, text);
        if !add_word(word, integers)? {
            return Ok(false);
        }
        rest = behind;
    }
    Ok(true)
}

/// Appends the integers of a part; whether it is well formed: a part beside a comma has an integer.
fn add_part(beside_comma: bool, part: &[u8], integers: &mut Vec<i64>) -> Result<bool, AllocError>
    ensures { IfOk result (λ is_formed. part_onto beside_comma integers.old.items part.now
        ≡ kept is_formed integers.new.items) }
{
    let before = integers.len();
    let is_formed = add_words(part, integers)?;
    Ok(is_formed && !(beside_comma && integers.len() <= before))
}

/// Appends the integers of the parts behind a comma.
fn add_parts(parts: Option<&[u8]>, integers: &mut Vec<i64>) -> Result<bool, AllocError>
    ensures { IfOk result (λ is_formed.
        parts_onto true integers.old.items (pieces Comma parts.entry)
        ≡ kept is_formed integers.new.items) }
{
    let mut rest = parts;
    while let Some(text) = rest {
        let (part, behind) = cut(Separator::Comma, text);
        if !add_part(true, part, integers)? {
            return Ok(false);
        }
        rest = behind;
    }
    Ok(true)
}

/// Puts the integers of a record in the place of those there; whether the record is well formed.
///
/// # Errors
///
/// `AllocError` where memory is refused.
pub fn scan(text: &[u8], integers: &mut Vec<i64>) -> Result<bool, AllocError>
    ensures { IfOk result (λ is_formed. integers_of text.now ≡ kept is_formed integers.new.items) }
{
    integers.clear();
    let (part, behind) = cut(Separator::Comma, text);
    if !add_part(behind.is_some(), part, integers)? {
        return Ok(false);
    }
    add_parts(behind, integers)
}
