use std::alloc::{AllocError, Global};

/// How far an escape was read: a half has its first digit.
#[derive(Clone, Copy)]
enum Escape {
    Outside,
    Begun,
    Half(u32),
}

/// The bytes that a text of a row writes.
pub fn bytes_of(alloc: Global, text: &str) -> Result<Vec<u8>, AllocError> {
    let mut bytes = Vec::new(alloc);
    let mut escape = Escape::Outside;
    for byte in text.as_bytes() {
        let digit = char::from(*byte).to_digit(16);
        escape = match (escape, digit) {
            (Escape::Outside, _) if *byte == b'~' => Escape::Begun,
            (Escape::Outside, _) => {
                bytes.push(*byte)?;
                Escape::Outside
            }
            (Escape::Begun, Some(high)) => Escape::Half(high),
            (Escape::Half(high), Some(low)) => {
                bytes.push((high.wrapping_mul(16).wrapping_add(low) & 0xff) as u8)?;
                Escape::Outside
            }
            (Escape::Begun | Escape::Half(_), None) => Escape::Outside,
        };
    }
    Ok(bytes)
}
