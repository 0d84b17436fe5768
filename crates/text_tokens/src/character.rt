ghost use Rattle.std.specs.Prelude.{◌≡◌, ◌+◌, ◌≤◌, ◌<◌, length, slice_get};
ghost use Rattle.std.specs.Option.{option_copied};
ghost use Rattle.text_tokens.specs.Character as text;

// A character at the front of some bytes is its code and how many of them spell it. That the code
// is a Unicode scalar value is looked at last, in `quoted_character`.

/// The bits of a character with six more from the continuation byte at a place.
fn continued(bytes: &[u8], at: usize, bits: u32) -> Option<u32>
    requires { bits < 65536 }
    ensures { result ≡ text.continued (slice_get bytes.now at) bits }
{
    let byte = *bytes.get(at)?;
    if byte >= 128 && byte <= 191 {
        Some(bits * 64 + u32::from(byte - 128))
    } else {
        None
    }
}

/// The code of these bits, unless fewer bytes can spell it.
fn from_bits(least: u32, size: usize, bits: u32) -> Option<(u32, usize)>
    ensures { result ≡ text.from_bits least size bits }
{
    if bits < least {
        None
    } else {
        Some((bits, size))
    }
}

fn two_bytes(first: u8, bytes: &[u8]) -> Option<(u32, usize)>
    requires { 192 ≤ first }
    ensures { result ≡ text.two_bytes first bytes.now }
{
    let bits = continued(bytes, 0, u32::from(first - 192))?;
    from_bits(128, 2, bits)
}

fn three_bytes(first: u8, bytes: &[u8]) -> Option<(u32, usize)>
    requires { 224 ≤ first }
    ensures { result ≡ text.three_bytes first bytes.now }
{
    let bits = continued(bytes, 0, u32::from(first - 224))?;
    let bits = continued(bytes, 1, bits)?;
    from_bits(2048, 3, bits)
}

fn four_bytes(first: u8, bytes: &[u8]) -> Option<(u32, usize)>
    requires { 240 ≤ first }
    ensures { result ≡ text.four_bytes first bytes.now }
{
    let bits = continued(bytes, 0, u32::from(first - 240))?;
    let bits = continued(bytes, 1, bits)?;
    let bits = continued(bytes, 2, bits)?;
    from_bits(65536, 4, bits)
}

/// The code at the front, in UTF-8.
pub fn utf8_code(bytes: &[u8]) -> Option<(u32, usize)>
    ensures { result ≡ text.utf8_code bytes.now }
{
    let (first, rest) = bytes.split_first()?;
    let first = *first;
    if first < 128 {
        Some((u32::from(first), 1))
    } else if first < 192 {
        None
    } else if first < 224 {
        two_bytes(first, rest)
    } else if first < 240 {
        three_bytes(first, rest)
    } else if first < 248 {
        four_bytes(first, rest)
    } else {
        None
    }
}
