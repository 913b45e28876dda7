// Where a formula is malformed. Every step gives one term, so of the terms held together only their number counts: the depth.
ghost use Rattle.std.specs.Prelude.{◌≡◌};
ghost use Rattle.rules.specs.Formula.{malformed_at};
ghost use Rattle.rules.specs.Token.{tokens_in, good_length};
ghost use Rattle.tokens.specs.Shown.{grown, kept, joined, after, malformed_in};

use crate::token::{Token, token_at, token_count};

// The depth after a token, none where it is out of place. A number or kind is one term more; at most 32 are held together.
#[tactic(auto, unfolding(crate::specs::Shown::grown))]
fn one_more(depth: usize) -> Option<usize>
    ensures { result ≡ grown depth }
{
    if depth < 32 {
        return Some(depth + 1);
    }
    None
}

// A power and the absolute value take one term and give one. This and the next differ in two numbers of two lines: one function of the terms taken would
// need a bound on them and be no plainer.
#[tactic(auto, unfolding(crate::specs::Shown::kept))]
fn as_many(depth: usize) -> Option<usize>
    ensures { result ≡ kept depth }
{
    if 0 < depth {
        return Some(depth);
    }
    None
}

// An operation and a comparison take two terms and give one.
#[tactic(auto, unfolding(crate::specs::Shown::joined))]
fn one_less(depth: usize) -> Option<usize>
    ensures { result ≡ joined depth }
{
    if 1 < depth {
        return Some(depth - 1);
    }
    None
}

// One token. What an exponent is doesn't count here: one over the limits is unreadable already.
fn depth_after(token: Token, depth: usize) -> Option<usize>
    ensures { result ≡ after token depth }
{
    match token {
        Token::Number => one_more(depth),
        Token::Kind(_) => one_more(depth),
        Token::Unary(_) => as_many(depth),
        Token::Binary(_) => one_less(depth),
        Token::Unreadable => None,
    }
}

// The first token that is out of place, or the token count where the end leaves several terms: the tokens one by one, with the depth before each.
fn walked(bytes: &[u8]) -> Option<usize>
    ensures { result ≡ malformed_at (tokens_in bytes.now) }
{
    let n = token_count(bytes);
    let mut depth: usize = 0;
    for k in 0..n {
        match depth_after(token_at(bytes, k), depth) {
            Some(d) => {
                depth = d;
            }
            None => {
                return Some(k);
            }
        }
    }
    if depth == 1 {
        return None;
    }
    Some(n)
}

// 1 to 128 tokens of 12 bytes each, and no byte left over.
#[tactic(auto, unfolding(rules::specs::Token::good_length))]
pub fn good_length(bytes: &[u8]) -> bool
    ensures { result ≡ good_length bytes.now }
{
    let n = bytes.len();
    (n % 12 == 0) & (12 <= n) & (n <= 1536)
}

// A bad length is told before any token is looked at, so that no more than 128 are.
#[tactic(auto, unfolding(crate::specs::Shown::malformed_in))]
pub fn malformed(bytes: &[u8]) -> Option<usize>
    ensures { result ≡ malformed_in bytes.now }
{
    if good_length(bytes) {
        return walked(bytes);
    }
    Some(0)
}
