// The operations that combine two kinds, and the codes of their tokens.
ghost use Rattle.std.specs.Prelude.{◌≡◌};
ghost use Rattle.std.specs.Option.{option_map};
ghost use Rattle.rules.specs.Arithmetic as rule;
ghost use Rattle.rules.specs.Refusal.{code_of};
ghost use Rattle.error.specs.Shown.{op_as, op_of};

use dimension::ProductOp;

// The codes of the tokens that are no operation's; the operations have theirs by name. A code goes out in a refusal, as a number.
pub const EXACT: u8 = 8;

pub const INEXACT: u8 = 9;

pub const ABSOLUTE: u8 = 10;

pub const COMPARE: u8 = 11;

// What two kinds are combined by.
#[derive(Clone, Copy)]
pub enum Op {
    Add,
    Sub,
    Product(ProductOp),
}

impl Op {
    // The operation whose token has this code, 2 to 7; none for any other. No `TryFrom`, here, and no `From` below: an operation of a row has a second
    // number, its word in a table, so the name has to say which is meant, and of a code that is none there is nothing to tell in an error.
    #[tactic(auto, unfolding(rules::specs::Arithmetic::op_by))]
    pub fn from_code(code: u8) -> Option<Op>
        ensures { result ≡ option_map op_as (rule.op_by code) }
    {
        match code {
            2 => Some(Op::Add),
            3 => Some(Op::Sub),
            4 => Some(Op::Product(ProductOp::Mul)),
            5 => Some(Op::Product(ProductOp::Div)),
            6 => Some(Op::Product(ProductOp::Dot)),
            7 => Some(Op::Product(ProductOp::Wedge)),
            _ => None,
        }
    }

    // The code of its token.
    pub fn code(self) -> u8
        ensures { result ≡ rule.op_code (op_of self) }
    {
        match self {
            Op::Add => 2,
            Op::Sub => 3,
            Op::Product(op) => op_code(op),
        }
    }
}

// A product as the code of its token.
pub fn op_code(op: ProductOp) -> u8
    ensures { result ≡ code_of op }
{
    match op {
        ProductOp::Mul => 4,
        ProductOp::Div => 5,
        ProductOp::Dot => 6,
        ProductOp::Wedge => 7,
    }
}
