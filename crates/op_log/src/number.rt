// Whole numbers as a log keeps them.
ghost use Rattle.std.specs.Prelude.{◌≡◌, ◌≤◌, ◌++◌, ℕ, ℤ, List, length, take, Some, IfSome, FitsSigned};
ghost use Rattle.std.specs.Int.{w64};
ghost use Rattle.op_log.specs.Changes.{number_text};

/// The number in the first eight bytes. `None`: there are fewer.
#[tactic(auto, unfolding(crate::specs::Changes::number_text))]
pub(crate) fn number_at(bytes: &[u8]) -> Option<i64>
    ensures found { IfSome result (λ n. FitsSigned w64 n × (take 8 bytes.now ≡ number_text n)
        × (8 ≤ length bytes.now)) }
    ensures only { (n : ℤ) (rest : List ℕ) → FitsSigned w64 n → bytes.now ≡ number_text n ++ rest
        → result ≡ Some n }
{
    match bytes {
        [a, b, c, d, e, f, g, h, ..] => Some(i64::from_le_bytes([*a, *b, *c, *d, *e, *f, *g, *h])),
        _ => None,
    }
}
