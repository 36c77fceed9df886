//! Names of variables.

/// A name: one to six letters and digits, the first a letter, filled with blanks to six characters.
///
/// Names compare in byte order, in which a blank goes before digits and digits before letters, so
/// a name goes before the longer ones that it begins.
#[derive(Clone, Copy, PartialEq, Eq, PartialOrd, Ord, Hash)]
pub struct Name {
    /// The characters, in upper case.
    pub letters: [u8; 6],
}

impl Name {
    ghost use Rattle.std.specs.Prelude.{◌≡◌, ◌≤◌, length};
    ghost use Rattle.ast.specs.Name.{padded, trimmed};

    /// The name with these characters, six at most.
    pub fn padded(text: &[u8]) -> Name
        requires { length text.now ≤ 6 }
        ensures { result.letters ≡ padded text.now }
    {
        let mut letters = [b' '; 6];
        letters[..text.len()].copy_from_slice(text);
        Name { letters }
    }

    /// The characters without the blanks that fill the name on the right.
    pub fn trimmed(&self) -> &[u8]
        ensures { result.now ≡ trimmed self.now.letters }
    {
        let mut length = self.letters.len();
        while length > 0 && self.letters[length - 1] == b' ' {
            length -= 1;
        }
        &self.letters[..length]
    }
}
