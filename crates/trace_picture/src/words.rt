//! The words.

ghost use Rattle.std.specs.Prelude.{◌≡◌, ◌<◌, ◌^◌, ℕ, IfSome, Some, codes, IsTrue, ◌↔◌};
ghost use Rattle.std.specs.Fmt.{decimal};
ghost use Rattle.trace_picture.specs.Asked.{words_for, FitsAsked};
ghost use Rattle.trace_picture.specs.declared.words.Asked.{Asked};

use itoa::Buffer;
use xt_base::Name;

/// What the words ask for.
#[derive(Clone, Copy)]
pub(crate) enum Asked {
    /// A picture of all.
    All,
    /// A picture of the file of this number alone.
    One(u64),
}

/// The number below 2^64 of which these are the decimal digits.
fn read_number(text: &str) -> Option<u64>
    ensures found { IfSome result (λ n. text.now ≡ decimal n) }
    ensures only { (n : ℕ) → n < 2 ^ 64 → text.now ≡ decimal n → result ≡ Some n }
{
    let Ok(number) = text.parse::<u64>() else {
        return None;
    };
    let mut buffer = Buffer::new();
    if buffer.format(number).as_bytes() == text.as_bytes() {
        Some(number)
    } else {
        None
    }
}

/// What is asked for by these words, if anything is.
pub(crate) fn read_words(words: &[Name]) -> Option<Asked>
    ensures found { IfSome result (λ asked. words.now ≡ words_for asked) }
    ensures only { (asked : Asked) → FitsAsked asked → words.now ≡ words_for asked →
        result ≡ Some asked }
{
    match words {
        [] => Some(Asked::All),
        [option, number] if option.as_str().as_bytes() == b"--file".as_slice() => {
            match read_number(number.as_str()) {
                Some(number) => Some(Asked::One(number)),
                None => None,
            }
        }
        _ => None,
    }
}
