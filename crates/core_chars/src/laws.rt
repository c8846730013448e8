// What the value of digits amounts to. The function does nothing: the law is its contract.
ghost use Rattle.std.specs.Prelude.{◌≡◌, ℕ, ◌^◌, ◌<◌, decimal};
ghost use Rattle.core_chars.specs.Characters.{value_from};

/// The digits that write a number have its value.
pub fn digits_have_their_value()
    ensures { (n : ℕ) → n < 10 ^ 64 → value_from 10 0 (decimal n) ≡ n }
{}
