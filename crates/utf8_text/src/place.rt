// Places and bytes behind characters.
ghost use Rattle.std.specs.Prelude.{◌≡◌, ◌+◌, ◌*◌, ◌^◌, ◌<◌, ◌≤◌, length};
ghost use Rattle.utf8_text.specs.Places.{past, place_after, byte_len};

use erl_base::Place;

/// The place after a character that stands at `place`. A line end, LF alone, begins the next line; columns count
/// characters.
pub fn past(c: char, place: Place) -> Place
    requires line { place.line < 2 ^ 63 }
    requires column { place.column < 2 ^ 63 }
    ensures { result ≡ past c place }
{
    if c == '\n' {
        Place {
            line: place.line + 1,
            column: 1,
        }
    } else {
        Place {
            line: place.line,
            column: place.column + 1,
        }
    }
}

/// The place after the characters, of which the first stands at `place`.
pub fn place_after(chars: &[char], place: Place) -> Place
    requires line { place.line + length chars.now < 2 ^ 63 }
    requires column { place.column + length chars.now < 2 ^ 63 }
    requires counted { 1 ≤ place.column }
    ensures place { result ≡ place_after chars.now place }
    ensures line { result.line ≤ place.line + length chars.now }
    ensures column { result.column ≤ place.column + length chars.now }
    ensures counted { 1 ≤ result.column }
{
    let mut at = place;
    for c in chars {
        at = past(*c, at);
    }
    at
}

/// How many bytes the characters take in UTF-8: one to four each.
pub fn byte_len(chars: &[char]) -> u64
    ensures value { result ≡ byte_len chars.now }
    ensures bound { result ≤ 4 * length chars.now }
{
    let mut bytes = 0u64;
    for c in chars {
        bytes += c.len_utf8() as u64;
    }
    bytes
}
