// The classes of characters, and the number that digits write.
ghost use Rattle.std.specs.Prelude.{◌≡◌, ◌≤◌, length, take_while};
ghost use Rattle.std.specs.Char.{digit_value};
ghost use Rattle.core_chars.specs.Characters.{is_blank, is_lower, is_upper, is_digit, is_octal, is_hex, is_capital, is_name_char, is_sign, is_exponent_mark, is_in_line};

pub fn is_blank(c: char) -> bool
    ensures { result ≡ is_blank c }
{
    c == ' ' || c == '\t' || c == '\n' || c == '\x0c' || c == '\r'
}

pub fn is_lower(c: char) -> bool
    ensures { result ≡ is_lower c }
{
    'a' <= c && c <= 'z'
}

pub fn is_upper(c: char) -> bool
    ensures { result ≡ is_upper c }
{
    'A' <= c && c <= 'Z'
}

/// A decimal digit.
pub fn is_digit(c: char) -> bool
    ensures { result ≡ is_digit c }
{
    '0' <= c && c <= '9'
}

pub fn is_octal(c: char) -> bool
    ensures { result ≡ is_octal c }
{
    '0' <= c && c <= '7'
}

pub fn is_hex(c: char) -> bool
    ensures { result ≡ is_hex c }
{
    is_digit(c) || 'A' <= c && c <= 'F' || 'a' <= c && c <= 'f'
}

pub fn is_capital(c: char) -> bool
    ensures { result ≡ is_capital c }
{
    is_upper(c) || ('À' <= c && c <= 'Þ') && c != '×' || c == '_'
}

pub fn is_name_char(c: char) -> bool
    ensures { result ≡ is_name_char c }
{
    is_lower(c)
        || '@' <= c && c <= 'Z'
        || is_digit(c)
        || c == '_'
        || ('À' <= c && c <= 'ÿ') && c != '×' && c != '÷'
}

/// `+` or `-`.
pub fn is_sign(c: char) -> bool
    ensures { result ≡ is_sign c }
{
    c == '+' || c == '-'
}

pub fn is_exponent_mark(c: char) -> bool
    ensures { result ≡ is_exponent_mark c }
{
    c == 'e' || c == 'E'
}

/// The value of a digit or a letter as a digit; 36 for any other character.
pub fn digit(c: char) -> u32
    ensures value { result ≡ digit_value c }
    ensures bound { result ≤ 36 }
{
    match c {
        '0'..='9' => c as u32 - 48,
        'A'..='Z' => c as u32 - 55,
        'a'..='z' => c as u32 - 87,
        _ => 36,
    }
}

pub fn name_len(text: &[char]) -> usize
    ensures len { result ≡ length (take_while is_name_char text.now) }
    ensures fits { result ≤ length text.now }
{
    text.iter().take_while(|c| is_name_char(**c)).count()
}

/// How many decimal digits stand at the front.
pub fn digits_len(text: &[char]) -> usize
    ensures len { result ≡ length (take_while is_digit text.now) }
    ensures fits { result ≤ length text.now }
{
    text.iter().take_while(|c| is_digit(**c)).count()
}

pub fn octal_len(text: &[char]) -> usize
    ensures len { result ≡ length (take_while is_octal text.now) }
    ensures fits { result ≤ length text.now }
{
    text.iter().take_while(|c| is_octal(**c)).count()
}

pub fn hex_len(text: &[char]) -> usize
    ensures len { result ≡ length (take_while is_hex text.now) }
    ensures fits { result ≤ length text.now }
{
    text.iter().take_while(|c| is_hex(**c)).count()
}

pub fn line_len(text: &[char]) -> usize
    ensures len { result ≡ length (take_while is_in_line text.now) }
    ensures fits { result ≤ length text.now }
{
    text.iter().take_while(|c| **c != '\n').count()
}
