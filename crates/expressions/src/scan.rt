//! The characters of a text.

ghost use Rattle.std.specs.Prelude.{◌≡◌, ◌≤◌, length, drop, option_map};
ghost use Rattle.std.specs.List.{prefix_len};
ghost use Rattle.expressions.specs.Characters.{is_digit, is_letter, is_alphanumeric, begins_with};
ghost use Rattle.expressions.specs.Characters.{begins_digit, begins_letter, after};

/// Whether a mark is a digit.
pub fn is_digit(mark: u8) -> bool
    ensures { result ≡ is_digit mark }
{
    b'0' <= mark && mark <= b'9'
}

fn is_letter(mark: u8) -> bool
    ensures { result ≡ is_letter mark }
{
    b'A' <= mark && mark <= b'Z'
}

fn is_alphanumeric(mark: u8) -> bool
    ensures { result ≡ is_alphanumeric mark }
{
    is_letter(mark) || is_digit(mark)
}

/// Whether the text begins with a mark.
pub fn begins_with(text: &[u8], mark: u8) -> bool
    ensures { result ≡ begins_with mark text.now }
{
    match text.first() {
        Some(first) => *first == mark,
        None => false,
    }
}

/// Whether the text begins with a digit.
pub fn begins_digit(text: &[u8]) -> bool
    ensures { result ≡ begins_digit text.now }
{
    match text.first() {
        Some(first) => is_digit(*first),
        None => false,
    }
}

/// Whether the text begins with a letter.
pub fn begins_letter(text: &[u8]) -> bool
    ensures { result ≡ begins_letter text.now }
{
    match text.first() {
        Some(first) => is_letter(*first),
        None => false,
    }
}

/// How many digits the text begins with.
pub fn digits(text: &[u8]) -> usize
    ensures bound { result ≤ length text.now }
    ensures value { result ≡ prefix_len is_digit text.now }
{
    let mut count = 0;
    while count < text.len() && is_digit(text[count]) {
        count += 1;
    }
    count
}

/// How many letters and digits the text begins with.
pub fn letters_and_digits(text: &[u8]) -> usize
    ensures bound { result ≤ length text.now }
    ensures value { result ≡ prefix_len is_alphanumeric text.now }
{
    let mut count = 0;
    while count < text.len() && is_alphanumeric(text[count]) {
        count += 1;
    }
    count
}

/// The text behind its first marks.
fn behind(text: &[u8], count: usize) -> &[u8]
    ensures { result.now ≡ drop count text.now }
{
    text.get(count..).unwrap_or(b"")
}

/// The text after a word, where that stands first.
pub fn after<'a>(text: &'a [u8], word: &[u8]) -> Option<&'a [u8]>
    ensures { option_map (λ x. x.now) result ≡ after word.now text.now }
{
    if text.starts_with(word) {
        Some(behind(text, word.len()))
    } else {
        None
    }
}
