// Readings in metres.
ghost use Rattle.std.specs.Prelude.{◌≡◌, ◌^◌, ◌<◌, ◌≤◌, true, length};
ghost use Rattle.std.specs.Str.{all_ascii_digits};
ghost use Rattle.judge.specs.Metres.{decimal, thousandths};
ghost use Rattle.judge.specs.Gauge.{is_whole, is_fraction, following, leading_digits, reading_of};

// How many digits a text starts with.
fn digit_count(text: &[u8]) -> usize
    ensures value { result ≡ leading_digits text.now }
    ensures within { result ≤ length text.now }
{
    text.iter().take_while(|b| b.is_ascii_digit()).count()
}

// The number that a few digits write.
fn number_of(digits: &[u8]) -> u32
    requires written { all_ascii_digits digits.now ≡ true }
    requires few { length digits.now ≤ 4 }
    ensures value { result ≡ decimal digits.now }
    ensures small { result < 10 ^ 4 }
{
    digits
        .iter()
        .fold(0, |number, digit| number * 10 + (*digit - b'0') as u32)
}

// Whether digits can stand before the point: no zero leads but one that stands alone.
fn is_whole(digits: &[u8]) -> bool
    ensures { result ≡ is_whole digits.now }
{
    match digits {
        [_] => true,
        [] | [b'0', ..] => false,
        _ => digits.len() <= 4,
    }
}

// Whether a text can stand behind the point.
fn is_fraction(text: &[u8]) -> bool
    ensures { result ≡ is_fraction text.now }
{
    (1..=3).contains(&text.len()) && text.iter().all(|b| b.is_ascii_digit())
}

// What digits behind the point count, in millimetres.
fn thousandths_of(fraction: &[u8]) -> u32
    requires { is_fraction fraction.now ≡ true }
    ensures value { result ≡ thousandths fraction.now }
    ensures small { result < 10 ^ 6 }
{
    let number = number_of(fraction);
    match fraction.len() {
        1 => number * 100,
        2 => number * 10,
        _ => number,
    }
}

// A reading in millimetres, by its metres and what follows their digits.
fn with_fraction(metres: u32, rest: &[u8]) -> Option<u32>
    requires { metres < 10 ^ 4 }
    ensures { result ≡ following metres rest.now }
{
    match rest {
        [] => Some(metres * 1000),
        [b'.', fraction @ ..] if is_fraction(fraction) => Some(
            metres * 1000 + thousandths_of(fraction),
        ),
        _ => None,
    }
}

// A reading in metres, in millimetres: none where the text is no reading.
pub fn millimetres_of(text: &[u8]) -> Option<u32>
    ensures { result ≡ reading_of text.now }
{
    let (digits, rest) = text.split_at(digit_count(text));
    if is_whole(digits) {
        with_fraction(number_of(digits), rest)
    } else {
        None
    }
}
