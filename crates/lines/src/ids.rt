// The id that a word names.
ghost use Rattle.std.specs.Prelude.{◌≡◌};
ghost use Rattle.lines.specs.Ids.{id_in};

// An id, where the word is one to five digits; 0, which is no thing's, where these stand for more than 65535.
pub fn id_in(word: &[u8]) -> Option<u16>
    ensures { result ≡ id_in word.now }
{
    if word.is_empty() || 5 < word.len() {
        return None;
    }
    let mut n: u32 = 0;
    for &byte in word {
        if !byte.is_ascii_digit() {
            return None;
        }
        n = 10 * n + (byte - b'0') as u32;
    }
    Some(u16::try_from(n).unwrap_or(0))
}
