ghost use Rattle.std.specs.Prelude.{◌≡◌, Some, None, MatchResult, option_map};
ghost use Rattle.hex.specs.Hex.{decode_sized};

/// The seed that 64 hexadecimal digits spell.
pub fn read_seed(text: &[u8]) -> Option<[u8; 32]>
    /// The seed is that of 64 hexadecimal digits, and none otherwise.
    ensures { MatchResult (decode_sized text.now 32) (λ bytes. result
        ≡ Some bytes) (λ _. result ≡ None) }
{
    let mut seed = [0; 32];
    match hex::decode_to_slice(text, &mut seed) {
        Ok(()) => Some(seed),
        Err(_) => None,
    }
}
