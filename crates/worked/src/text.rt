// The numbers and bytes that the words of a line spell, `-` for none.
ghost use Rattle.std.specs.Prelude.{◌<◌, ◌≤◌, length, IfSome};

// The number that decimal digits spell, where it fits 64 bits.
pub(crate) fn decimal(word: &[u8]) -> Option<usize> {
    match word {
        b"-" => Some(0),
        [] => None,
        digits => digits.iter().try_fold(0usize, |n, digit| {
            let value = char::from(*digit).to_digit(10)?;
            n.checked_mul(10)?.checked_add(value as usize)
        }),
    }
}

// The bytes that hex digits spell, put at the start of the room, where they have room there.
pub(crate) fn unhex<'a>(word: &[u8], room: &'a mut [u8]) -> Option<&'a mut [u8]>
    ensures { IfSome result (λ bytes. length bytes.now ≤ length room.old) }
{
    if let b"-" = word {
        return Some(&mut room[..0]);
    }
    let (pairs, rest) = word.as_chunks::<2>();
    if pairs.is_empty() || !rest.is_empty() {
        return None;
    }
    let bytes = room.get_mut(..pairs.len())?;
    for (byte, [high, low]) in bytes.iter_mut().zip(pairs) {
        *byte = nibble(*high)? * 16 + nibble(*low)?;
    }
    Some(bytes)
}

// What a hex digit counts.
fn nibble(digit: u8) -> Option<u8>
    ensures { IfSome result (λ n. n < 16) }
{
    let value = char::from(digit).to_digit(16)?;
    Some(value as u8)
}
