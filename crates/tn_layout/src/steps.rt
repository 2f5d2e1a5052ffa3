ghost use Rattle.std.specs.Prelude.{◌≡◌, ℕ, ◌+◌, ◌<◌};
ghost use Rattle.tn_prefix.specs.Coding.{coding_length};

use std::marker::Model;
use std::sync::ledger::{Blank, Book, Ledger, Share};
use tn_prefix::length;

/// How many lengths of operands were computed. It takes no bytes, contracts alone read it, and in this
/// crate `length_counted` alone adds to it.
#[derive(Drop)]
pub struct Steps<L: Ledger> {
    book: Book<L>,
    share: Share<L>,
}

impl<L: Ledger> Model for Steps<L> {
    ghost Value = { ℕ };

    ghost view = { λ s. s.book.total };

    ghost invariant = { λ s. 0 < s.share.parts };
}

impl<L: Ledger> Steps<L> {
    /// No steps yet, of a ledger that no other counter has.
    pub fn new(blank: Blank) -> Steps<L>
        requires name { blank.name ≡ L.name }
        requires parts { blank.parts ≡ L.parts }
        requires some { 0 < blank.parts }
        ensures { result ≡ 0 }
    {
        let (book, share) = blank.open::<L>();
        Steps { book, share }
    }

    fn add_one(&mut self)
        ensures { self.new ≡ self.old + 1 }
    {
        self.book.add(&mut self.share, 1);
    }
}

/// How many bytes the coding of an operand has, which is one step.
pub fn length_counted<L: Ledger>(e: i32, steps: &mut Steps<L>) -> u8
    ensures length { result ≡ coding_length e }
    ensures step { steps.new ≡ steps.old + 1 }
{
    steps.add_one();
    length(e)
}
