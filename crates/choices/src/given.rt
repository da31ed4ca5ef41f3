// What a search works with. Its facts: the board is proper, and what is read there is right.
ghost use Rattle.choices.specs.Choices.{ProperLists};
ghost use Rattle.choices.specs.Props.{proper_prop, right_prop};
ghost use Rattle.choices.specs.Tables.{source_of, RightIn};

use crate::Tables;
use pads::Lists;

// The lists of a board, and where its figures and totals are read.
#[derive(Clone, Copy)]
pub struct Search<'a> {
    pub lists: Lists<'a>,
    pub tables: Tables<'a>,
    ghost proper: { ProperLists lists.order.now (source_of tables lists.ports) lists.lo.now lists.hi.now } by { proper_prop _ _ _ _ },
    ghost right: { RightIn tables lists.order.now lists.lo.now lists.hi.now lists.ports } by { right_prop _ _ _ _ _ },
}
