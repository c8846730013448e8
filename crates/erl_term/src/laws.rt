ghost use Rattle.std.specs.Prelude.{IsTrue, Some, ◌≡◌, ◌↔◌, ℕ, suc, ◌-◌, ◌%◌, ◌^◌, ◌<◌, pos, negsuc, Bool, true, false, List};
ghost use Rattle.std.specs.Cmp.{IsTotalOrder};
ghost use Rattle.std.specs.declared.cmp.Ordering.TheVariants.{Equal};
ghost use Rattle.erl_term.specs.Term as Plain;
ghost use Rattle.erl_term.specs.TermOrder as Order;
ghost use Rattle.erl_term.specs.TermOrder.{same_term};
ghost use Rattle.erl_term.specs.Terms.{put, value_at};
ghost use Rattle.erl_term.specs.WellFormed.{maps_rise};
ghost use Rattle.erl_term.specs.BitString.{low_bits, number, ordered};

/// The order of terms is total: it is the same from both sides, goes on over three, and equal terms stand alike to all.
#[tactic(auto, using(crate::proofs::OrderLaws::total))]
pub fn order_is_total()
    ensures { IsTotalOrder Order.compare }
{}

/// Two terms are one exactly where neither is below the other.
#[tactic(auto, using(crate::proofs::OrderLaws::apart))]
pub fn order_tells_terms_apart()
    ensures { (a b : Plain.Term) → (Order.compare a b ≡ Equal) ↔ (a ≡ b) }
{}

/// The number whose bits are built is read back: modulo its power, or within a sign's range, in both orders of bytes.
#[tactic(auto, using(crate::proofs::BitNumbers::reads))]
pub fn bits_hold_their_number()
    ensures unsigned { (k n : ℕ) → number false false (low_bits k (pos n)) ≡ pos (n % 2 ^ k) }
    ensures below_zero { (k n : ℕ) → number false false (low_bits k (negsuc n)) ≡ pos (2 ^ k - 1 - n % 2 ^ k) }
    ensures positive { (k n : ℕ) → n < 2 ^ k → number true false (low_bits (suc k) (pos n)) ≡ pos n }
    ensures negative { (k n : ℕ) → n < 2 ^ k → number true false (low_bits (suc k) (negsuc n)) ≡ negsuc n }
    ensures little { (signed : Bool) (bs : List Bool) → number signed true (ordered true bs) ≡ number signed false bs }
{}

/// What is put into a map is found there, every other key keeps its value, and a map with distinct rising keys stays
/// one.
#[tactic(auto, using(crate::proofs::MapLaws::puts))]
pub fn maps_keep_what_is_put()
    ensures found { (k v : Plain.Term) (ps : Plain.Pairs) → value_at (put k v ps) k ≡ Some v }
    ensures others { (k v m : Plain.Term) (ps : Plain.Pairs) → same_term m k ≡ false
        → value_at (put k v ps) m ≡ value_at ps m }
    ensures rising { (k v : Plain.Term) (ps : Plain.Pairs) → IsTrue (maps_rise k) → IsTrue (maps_rise v)
        → IsTrue (maps_rise (Plain.map ps)) → IsTrue (maps_rise (Plain.map (put k v ps))) }
{}
