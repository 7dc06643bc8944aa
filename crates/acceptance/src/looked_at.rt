// What a caller does with digit strings: compares two, and goes through one.
ghost use Rattle.std.specs.Ordering.{int_eq};
ghost use Rattle.std.specs.Prelude.{◌≡◌, true, ◌↔◌, not, count_by, take, pos};
ghost use Rattle.acceptance.specs.Strings.{non_zero_among};

// Whether two strings are one.
pub fn equal_digits(a: &[i8], b: &[i8]) -> bool
    ensures { (result ≡ true) ↔ (a.now ≡ b.now) }
{
    a == b
}

// How many of the first n digits are not 0.
pub fn nonzero_among(digits: &[i8], n: usize) -> usize
    ensures { result ≡ non_zero_among digits.now n }
{
    counted(digits, n)
}

// The same, in the words of std, which a chain's proof needs.
fn counted(digits: &[i8], n: usize) -> usize
    ensures { result ≡ count_by (λ d. not (int_eq d (pos 0))) (take n digits.now) }
{
    digits.iter().take(n).filter(|d| **d != 0).count()
}
