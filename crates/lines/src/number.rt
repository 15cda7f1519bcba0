// Numbers in a field: one to five digits.
ghost use Rattle.std.specs.Prelude.{◌≡◌, ◌<◌, ◌≤◌, length, if◌then◌else◌, Some, None};
ghost use Rattle.std.specs.Str.Parse.{digits_value_after};
ghost use Rattle.std.specs.Str.{all_ascii_digits};
ghost use Rattle.lines.specs.Format.{numeral};

// Goes on from the digits before `rest`, whose number is `value`.
fn digits_after(value: u32, rest: &[u8]) -> Option<u32>
    requires { (value < 10) × (length rest.now ≤ 4) }
    ensures { result ≡ (if all_ascii_digits rest.now then Some (digits_value_after 10 value rest.now) else None) }
{
    let mut value = value;
    for byte in rest {
        match *byte {
            digit @ b'0'..=b'9' => value = value * 10 + u32::from(digit - b'0'),
            _ => return None,
        }
    }
    Some(value)
}

pub fn parse_number(field: &[u8]) -> Option<u32>
    ensures { result ≡ numeral field.now }
{
    match field {
        [b'0'] => Some(0),
        [first @ b'1'..=b'9', rest @ ..] if rest.len() <= 4 => digits_after(
            u32::from(*first - b'0'),
            rest,
        ),
        _ => None,
    }
}
