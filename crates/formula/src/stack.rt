// One token over the stack. Of the array's 32 terms the first `depth` are held, the last of them on top. The array with its depth beside is the one
// that the scope document names: fixed memory, no heap. Table and rows go one by one, as they are lent: a struct would be made at each public call and
// opened at each read.
ghost use Rattle.std.specs.Prelude.{◌≡◌, length};
ghost use Rattle.rules.specs.Formula as rule;
ghost use Rattle.rules.specs.Table.{kinds_of, rows_of};
ghost use Rattle.formula.specs.Shown.{made, term_of, unary_of, binary_of, landed_of, pushed_of, one_of, two_of, next_by};

use crate::terms::{Term, binary_term, kind_term, unary_term};
use error::Error;
use tokens::{Binary, Token, Unary};

// What a step that isn't refused does: it puts a term over the first `at` terms.
#[derive(Clone, Copy)]
pub(crate) struct Put {
    pub at: usize,
    pub term: Term,
}

// The stack that a run begins with. Of its terms none is held.
pub(crate) fn empty() -> [Term; 32]
    ensures { length result ≡ 32 }
{
    [Term::Number; 32]
}

// A term that was made is put over the first `at`.
fn landed(at: usize, m: Result<Term, Error>) -> Result<Put, Error>
    ensures { result ≡ landed_of at m }
{
    Ok(Put { at, term: m? })
}

// A number or a kind: at most 32 terms are held together; 50 for one more. This and the next two differ in the test, the place and the term: of one
// function for the three the term would be a closure, so that it isn't made before the test.
#[tactic(auto, unfolding(crate::specs::Shown::pushed_of))]
fn pushed(depth: usize, place: usize, m: Result<Term, Error>) -> Result<Put, Error>
    ensures { result ≡ pushed_of depth place m }
{
    if depth < 32 {
        return landed(depth, m);
    }
    Err(Error::Malformed(place))
}

// A power or the absolute value takes the top term; 50 where there is none.
#[tactic(auto, unfolding(crate::specs::Shown::one_of))]
fn unary_step(t: &[u32], top: Term, depth: usize, place: usize, u: Unary) -> Result<Put, Error>
    ensures { result ≡ one_of depth place (made (rule.unary_term (kinds_of t.now) (unary_of u) (term_of top))) }
{
    if 0 < depth {
        return landed(depth - 1, unary_term(t, u, top));
    }
    Err(Error::Malformed(place))
}

// An operation or a comparison takes two terms, of which the top one is the right; 50 where there are fewer.
#[tactic(auto, unfolding(crate::specs::Shown::two_of))]
fn binary_step(
    t: &[u32],
    rows: &[u32],
    left: Term,
    top: Term,
    depth: usize,
    place: usize,
    b: Binary,
) -> Result<Put, Error>
    ensures { result ≡ two_of depth place (made (rule.binary_term (kinds_of t.now) (rows_of rows.now) (binary_of b) (term_of left) (term_of top))) }
{
    if 1 < depth {
        return landed(depth - 2, binary_term(t, rows, b, left, top));
    }
    Err(Error::Malformed(place))
}

// One token, which stands at this place; `top` is the top term, `left` the one below, where so many are held. The two go by themselves, since an array
// that is handed over and back is copied, some 250 instructions; depth and place too, since each step reads them apart, so a struct is no plainer.
#[tactic(auto, unfolding(crate::specs::Shown::made, crate::specs::Shown::next_by))]
pub(crate) fn step(
    t: &[u32],
    rows: &[u32],
    left: Term,
    top: Term,
    depth: usize,
    place: usize,
    token: Token,
) -> Result<Put, Error>
    ensures { result ≡ next_by (kinds_of t.now) (rows_of rows.now) token depth place left top }
{
    match token {
        Token::Number => pushed(depth, place, Ok(Term::Number)),
        Token::Kind(k) => pushed(depth, place, kind_term(t, k)),
        Token::Unary(u) => unary_step(t, top, depth, place, u),
        Token::Binary(b) => binary_step(t, rows, left, top, depth, place, b),
        Token::Unreadable => Err(Error::Malformed(place)),
    }
}
