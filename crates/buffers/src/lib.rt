// Arrays of which a part is used: bytes put at the front of a lent one, how much of one is used, and whether nothing is.
#![tactic(auto)]

ghost use Rattle.std.specs.Prelude.{◌≡◌, ◌≤◌, ◌++◌, not, length, take, drop, take_while};
ghost use Rattle.std.specs.List.{list_all};

// Copies all of `from` to the front of `to`, and answers how many bytes that were.
pub fn copy(from: &[u8], to: &mut [u8]) -> usize
    requires { length from.now ≤ length to.old }
    ensures { (result ≡ length from.now) × (to.new ≡ take (length from.now) from.now ++ drop (length from.now) to.old) }
{
    let len = from.len();
    to[..len].copy_from_slice(from);
    len
}

// How many elements stand before the first that is empty.
pub fn used<T: PartialEq + Copy>(xs: &[T], empty: T) -> usize
    ensures { result ≡ length (take_while (λ x. not (T.eq x empty)) xs.now) }
{
    xs.iter().take_while(|x| **x != empty).count()
}

// Whether all elements are empty.
pub fn unused<T: PartialEq + Copy>(xs: &[T], empty: T) -> bool
    ensures { result ≡ list_all (λ x. T.eq x empty) xs.now }
{
    xs.iter().all(|x| *x == empty)
}
