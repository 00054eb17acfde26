//! Laws of instances, chains and program hashes, for proofs about what is made of them.

ghost use Rattle.std.specs.Prelude.{◌≡◌, ◌↔◌, ◌+◌, ◌-◌, ◌*◌, ◌%◌, ◌<◌, ◌≤◌, ◌^◌, ℕ, List, [], ◌∷◌, ◌++◌, All, length};
ghost use Rattle.builtin_hash.specs.Instances.{AreWords, IsInstance, instance_of};
ghost use Rattle.goldi_field.specs.Numbers.{prime};
ghost use Rattle.builtin_hash.specs.Chains.{chain_from, chain_of, chain_start, group_at, words_after};
ghost use Rattle.builtin_hash.specs.Programs.{hash_text, program_hash_of, words_in_text};

/// An instance gives eight 32-bit words, and these alone make its other twelve numbers an instance.
pub fn instance_laws()
    ensures words { (h d : List ℕ) → AreWords (instance_of h d) }
    ensures parts { (h d o : List ℕ) → AreWords h → length d ≡ 4 → All (λ n. n < prime) d → length o ≡ 8
        → IsInstance (h ++ d ++ o) ↔ (o ≡ instance_of h d) }
{}

/// A chain takes one instance for each group of four numbers, from words that tell its length.
pub fn chain_laws()
    ensures start { (m n : ℕ) → chain_start m ≡ chain_start n → m ≡ n }

    // Each group of a list is one instance, until all its numbers are taken.
    ensures next { (words list : List ℕ) (k : ℕ) → 4 * k < length list
        → words_after words list (k + 1) ≡ instance_of (words_after words list k) (group_at list k) }
    ensures last { (words list : List ℕ) (k : ℕ) → length list ≤ 4 * k
        → words_after words list k ≡ chain_from words list }

    // What follows whole groups goes on from their words; a group more is an instance more.
    ensures append { (words front back : List ℕ) → length front % 4 ≡ 0
        → chain_from words (front ++ back) ≡ chain_from (chain_from words front) back }
    ensures longer { (words front : List ℕ) (a b c d : ℕ) → length front % 4 ≡ 0
        → chain_from words (front ++ a ∷ b ∷ c ∷ d ∷ [])
        ≡ instance_of (chain_from words front) (a ∷ b ∷ c ∷ d ∷ []) }

    ensures words { (list : List ℕ) → length list < 2 ^ 32 → AreWords (chain_of list) }
    ensures words_so_far { (words list : List ℕ) (k : ℕ) → AreWords words
        → AreWords (words_after words list k) }
{}

/// A program's hash goes on from its header's instance over its code, and its text reads back.
pub fn program_hash_laws()
    ensures header { (main mask : ℕ) (code : List ℕ) → program_hash_of main mask code
        ≡ chain_from (instance_of (chain_start (length code + 4)) (1 ∷ main ∷ length code ∷ mask ∷ [])) code }
    ensures words { (main mask : ℕ) (code : List ℕ) → length code < 2 ^ 32 - 4
        → AreWords (program_hash_of main mask code) }
    ensures text { (words : List ℕ) → AreWords words → words_in_text (hash_text words) ≡ words }
{}
