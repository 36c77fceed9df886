//! A statement as its lines give it.

ghost use Rattle.std.specs.Prelude.{◌≡◌, ◌≤◌, ◌%◌, true, length};
ghost use Rattle.fixed_form.specs.Limits.{greatest_line, longest_text, text_width};
ghost use Rattle.fixed_form.specs.Limits.{is_label_or_none};

use ast::Line;

/// A statement as its lines give it.
#[derive(Drop)]
pub struct Labelled {
    /// The label, 1 to 99999, where the statement has one.
    pub label: Option<u32>,
    /// The number of its initial line, from 1 to 65535.
    pub line: Line,
    /// Columns 7 to 72 of its lines, joined: of the initial line and of at most 19 continuation
    /// lines, each filled with blanks to 66 bytes.
    pub text: Vec<u8>,
    pub ghost label_in_range: { is_label_or_none label ≡ true },
    pub ghost line_from_one: { 1 ≤ line },
    pub ghost line_in_range: { line ≤ greatest_line },
    pub ghost text_of_lines: { length text.items % text_width ≡ 0 },
    pub ghost text_of_one_line: { text_width ≤ length text.items },
    pub ghost text_in_range: { length text.items ≤ longest_text },
}
