ghost use Rattle.std.specs.Prelude.{◌≡◌, ◌+◌, ◌==◌, [], ◌∷◌, MatchOption, IfSome, length};
ghost use Rattle.std.specs.List.{slice_split};

/// Cuts `bytes` at the first byte `at`, which neither part keeps; `None` where there is none.
pub fn cut(bytes: &[u8], at: u8) -> Option<(&[u8], &[u8])>
    ensures parts { MatchOption result
        (slice_split (λ b. b == at) bytes.now ≡ bytes.now ∷ [])
        (λ r. slice_split (λ b. b == at) bytes.now
        ≡ r.0.now ∷ slice_split (λ b. b == at) r.1.now) }
    ensures shorter { IfSome result (λ r. length r.0.now + length r.1.now + 1 ≡ length bytes.now) }
{
    for (i, byte) in bytes.iter().enumerate() {
        if *byte == at {
            return Some((&bytes[..i], &bytes[i + 1..]));
        }
    }
    None
}
