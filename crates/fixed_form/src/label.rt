//! Columns 1 to 5 of an initial line.

ghost use Rattle.std.specs.Prelude.{◌≡◌, ◌≤◌, length};
ghost use Rattle.fixed_form.specs.Limits.{last_label_column};
ghost use Rattle.fixed_form.specs.Line.{without_blanks};
ghost use Rattle.fixed_form.specs.Steps.{field_of};

/// What stands in the label's columns.
#[derive(Clone, Copy)]
pub enum LabelField {
    Blank,
    Label(u32),
    Malformed,
}

/// What the first columns of a line, five at most, say of its label.
#[tactic(auto, using(crate::proofs::Digits::grows, crate::proofs::Digits::few_digits, crate::proofs::Digits::field_of_start))]
pub fn read_label(field: &[u8]) -> LabelField
    requires { length field.now ≤ last_label_column }
    ensures { result ≡ field_of (without_blanks field.now) }
{
    let mut label: u32 = 0;
    let mut is_blank = true;
    for character in field {
        match *character {
            b' ' => {}
            b'0'..=b'9' => {
                label = 10 * label + u32::from(*character - b'0');
                is_blank = false;
            }
            _ => return LabelField::Malformed,
        }
    }
    if is_blank {
        LabelField::Blank
    } else if label > 0 {
        LabelField::Label(label)
    } else {
        LabelField::Malformed
    }
}
