//! The names that a statement mentions, in the order of its text.

use crate::squeezed::{PROGRAM, Squeezed};
use crate::tokens::past;
use ast::{LONGEST_NAME, Name};
use std::alloc::{AllocError, Global};

/// What stands before the names of a statement.
const KEYWORDS: [&[u8]; 8] = [
    PROGRAM,
    b"INTEGER",
    b"DIMENSION",
    b"PARAMETER",
    b"PRINT",
    b"READ",
    b"WRITE",
    b"ELSEIF",
];

/// Words that are no names where they stand in a statement that is one.
const WORDS: [&[u8]; 7] = [
    b"IF", b"ELSEIF", b"THEN", b"PRINT", b"READ", b"WRITE", b"STOP",
];

/// A name in a statement.
#[derive(Clone, Copy)]
pub struct Mention {
    pub name: Name,
    /// The number, from 0, of its first character among those of the statement.
    pub place: usize,
    /// How many subscripts or arguments stand behind it.
    pub count: usize,
    /// In how many parentheses it stands.
    pub depth: usize,
    /// Whether an equals sign stands behind it and its subscripts.
    pub is_given: bool,
}

/// What has been read of a statement.
#[derive(Drop)]
struct Scanner {
    found: Vec<Mention>,
    /// The number of the character that is read next among those of the statement.
    place: usize,
    /// The letters and digits that were read last.
    word: Vec<u8>,
    /// For each open parenthesis the number of the name before it, if there is one.
    opened: Vec<Option<usize>>,
    /// The number of the name whose parenthesis was closed by the character that was read last.
    closed: Option<usize>,
    /// Whether an operator in points has begun and not ended.
    is_operator: bool,
}

/// The names of a statement that is one.
pub fn mentions(alloc: Global, statement: &Squeezed) -> Result<Vec<Mention>, AllocError> {
    let text = without_keyword(statement);
    let before = statement.text.len().saturating_sub(text.len());
    let mut scanner = Scanner {
        found: Vec::new(alloc),
        place: statement.front.saturating_add(before),
        word: Vec::new(alloc),
        opened: Vec::new(alloc),
        closed: None,
        is_operator: false,
    };
    for byte in text {
        scanner.take(*byte)?;
        scanner.place = scanner.place.saturating_add(1);
    }
    scanner.end_word()?;
    Ok(scanner.found)
}

/// The text of a statement behind its keyword, or behind the label of a DO; of an assignment all.
pub fn without_keyword(statement: &Squeezed) -> &[u8] {
    let text = statement.text.as_slice();
    if statement.is_loop() {
        return behind_label(text);
    }
    if statement.is_assignment() {
        return text;
    }
    match KEYWORDS.iter().find(|keyword| text.starts_with(keyword)) {
        Some(keyword) => past(text, keyword.len()),
        None => text,
    }
}

/// The text of a DO behind its label and the comma that may follow it.
pub fn behind_label(text: &[u8]) -> &[u8] {
    let rest = past(text, 2);
    let label = rest
        .iter()
        .take_while(|byte| byte.is_ascii_digit() || **byte == b',');
    past(rest, label.count())
}

/// The name that letters and digits are, if they are one.
fn named(word: &[u8]) -> Option<Name> {
    match word.first() {
        Some(b'A'..=b'Z') if word.len() <= LONGEST_NAME && !WORDS.contains(&word) => {
            Some(Name::padded(word))
        }
        _ => None,
    }
}

impl Scanner {
    fn take(&mut self, byte: u8) -> Result<(), AllocError> {
        if self.is_operator {
            self.is_operator = byte != b'.';
            return Ok(());
        }
        if byte.is_ascii_alphanumeric() {
            self.closed = None;
            self.word.push(byte)?;
            return Ok(());
        }
        let named = self.end_word()?;
        let given = named.or(self.closed);
        self.closed = None;
        match byte {
            b'.' => self.is_operator = true,
            b'(' => {
                self.opened.push(named)?;
                self.count_one();
            }
            b'=' => {
                if let Some(mention) = self.mention(given) {
                    mention.is_given = true;
                }
            }
            b',' => self.count_one(),
            b')' => self.closed = self.opened.pop().unwrap_or(None),
            _ => {}
        }
        Ok(())
    }

    /// Ends the word that was read last: its number among the names, if it is one.
    fn end_word(&mut self) -> Result<Option<usize>, AllocError> {
        let name = named(&self.word);
        let start = self.place.saturating_sub(self.word.len());
        self.word.clear();
        let Some(name) = name else {
            return Ok(None);
        };
        let number = self.found.len();
        self.found.push(Mention {
            name,
            place: start,
            count: 0,
            depth: self.opened.len(),
            is_given: false,
        })?;
        Ok(Some(number))
    }

    /// The name of a number, if there is one.
    fn mention(&mut self, number: Option<usize>) -> Option<&mut Mention> {
        self.found.get_mut(number?)
    }

    /// Counts a subscript or an argument of the name before the innermost parenthesis.
    fn count_one(&mut self) {
        let innermost = self.opened.last().copied().flatten();
        if let Some(mention) = self.mention(innermost) {
            mention.count = mention.count.saturating_add(1);
        }
    }
}
