ghost use Rattle.std.specs.Prelude.{◌≡◌};
ghost use Rattle.show_text.specs.Digits.{word_of_digits, page_of_digits};

use page_words::Words;

/// The number of sixteen hexadecimal digits, the greatest first and in either case; none where the
/// digits aren't so.
pub fn word_from_hex(digits: &[u8]) -> Option<u64>
    ensures value { result ≡ word_of_digits digits.now }
{
    let mut bytes = [0; 8];
    hex::decode_to_slice(digits, &mut bytes).ok()?;
    Some(u64::from_be_bytes(bytes))
}

/// The page whose 4,096 bytes are given in order by 8,192 hexadecimal digits, in either case; none
/// where the digits aren't so. Its MSR word is 0.
pub fn page_from_hex(digits: &[u8]) -> Option<Words>
    ensures value { result ≡ page_of_digits digits.now }
{
    let mut bytes = [0; 4096];
    hex::decode_to_slice(digits, &mut bytes).ok()?;
    Some(ghcb_layout::page_from_bytes(&bytes))
}
