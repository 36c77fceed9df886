//! Numbers in shortest decimal.

ghost use Rattle.std.specs.Prelude.{◌≡◌, ◌≤◌, ◌^◌, nat_lt, if◌then◌else◌, Some, None, option_map};
ghost use Rattle.std.specs.Prelude.{length};
ghost use Rattle.std.specs.List.{prefix_len};
ghost use Rattle.schedules.specs.Reading.{number_at, value};
ghost use Rattle.schedules.specs.Refusals.{is_digit, is_shortest};

fn is_digit(mark: u8) -> bool
    ensures { result ≡ is_digit mark }
{
    b'0' <= mark && mark <= b'9'
}

/// How many digits a text begins with.
fn digits(text: &[u8]) -> usize
    ensures bound { result ≤ length text.now }
    ensures value { result ≡ prefix_len is_digit text.now }
{
    let mut count = 0;
    while count < text.len() && is_digit(text[count]) {
        count += 1;
    }
    count
}

/// Whether digits write a number, with no zero before it.
fn is_shortest(digits: &[u8]) -> bool
    ensures { result ≡ is_shortest digits.now }
{
    match digits {
        [] => false,
        [_] => true,
        [first, ..] => *first != b'0',
    }
}

/// The number that digits write, where it has at most 128 bits.
fn value(digits: &[u8]) -> Option<u128>
    ensures { result ≡ (if nat_lt (value digits.now) (2 ^ 128) then Some (value digits.now) else
        None) }
{
    let mut total: u128 = 0;
    for digit in digits {
        let next = u128::from(digit.saturating_sub(b'0'));
        total = match total.checked_mul(10) {
            Some(tenfold) => match tenfold.checked_add(next) {
                Some(sum) => sum,
                None => return None,
            },
            None => return None,
        };
    }
    Some(total)
}

/// The number in shortest decimal that a text begins with, if there is one, and what stands after
/// it. The number is None where it has more than 128 bits.
pub fn number(text: &[u8]) -> Option<(Option<u128>, &[u8])>
    ensures { option_map (λ x. (x.0, x.1.now)) result ≡ number_at text.now }
{
    let count = digits(text);
    if is_shortest(&text[..count]) {
        Some((value(&text[..count]), &text[count..]))
    } else {
        None
    }
}
