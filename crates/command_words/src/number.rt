ghost use Rattle.std.specs.Prelude.{ℕ, IfNone, IfSome};
ghost use Rattle.command_words.specs.Numbers.{IsNumberIn};

use crate::limits::MOST_DIGITS;

/// The number from `least` to `most` that the word is: one to ten decimal digits.
pub fn number_in(word: &str, least: u32, most: u32) -> Option<u32>
    ensures found { IfSome result (λ number. IsNumberIn least most word.now number) }
    ensures none { IfNone result ((number : ℕ) → ¬ (IsNumberIn least most word.now number)) }
{
    if word.len() > MOST_DIGITS || word.starts_with('+') {
        return None;
    }
    let Ok(number) = word.parse::<u32>() else {
        return None;
    };
    if least <= number && number <= most {
        Some(number)
    } else {
        None
    }
}
