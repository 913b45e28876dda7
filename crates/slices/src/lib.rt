// Parts of what was lent, of any type: the first elements, what follows them, and a part in the midst. A length or a place past the end is cut at
// the end, so each function answers for every number.
#![tactic(auto)]

ghost use Rattle.std.specs.Prelude.{◌≡◌, take, drop};

// The first n elements; all where there are fewer.
pub fn front<T>(s: &[T], n: usize) -> &[T]
    ensures { result.now ≡ take n s.now }
{
    s.get(..n).unwrap_or(s)
}

// What follows the first n elements; nothing where there are no more.
pub fn after<T>(s: &[T], n: usize) -> &[T]
    ensures { result.now ≡ drop n s.now }
{
    s.get(n..).unwrap_or(&[])
}

// The n elements from `from` on, or as many as there are.
pub fn part<T>(s: &[T], from: usize, n: usize) -> &[T]
    ensures { result.now ≡ take n (drop from s.now) }
{
    front(after(s, from), n)
}
