//! The summary of a page: which of the numbers that may ask see nothing of it.
ghost use Rattle.std.specs.Prelude.{◌≡◌, max};
ghost use Rattle.sorted_pages.specs.Summaries.{AreOver, BitsHide, IsRaised, IsSummary, is_passed};

use crate::held::{Held, Reader};
use crate::page::Page;
use crate::versioned::Versioned;

// What numbers see of the values of a page. From `last` on, the number of their last change, they see something where one shows, and below
// it the held ones see nothing whose bit is set in `hidden`.
#[derive(Clone, Copy)]
pub(crate) struct Summary {
    pub(crate) last: u64,
    pub(crate) shows: bool,
    pub(crate) hidden: u64,
}

impl Summary {
    // The summary of a page, of whose values none has changed after the number `last`. The numbers below it whose bits are in `known` see
    // nothing of the page.
    pub(crate) fn of<V: Versioned>(held: &Held, page: &Page<V>, last: u64, known: u64) -> Summary
        requires over { AreOver V.hides V.shows V.last last page.now.0 }
        requires known { BitsHide V.hides held.now last page.now.0 known }
        ensures summary { IsSummary V.hides V.shows V.last held.now page.now.0 result }
        ensures last { result.last ≡ last }
    {
        Summary {
            last,
            shows: page.shows(),
            hidden: held.bits_hiding(page.entries(), last, known),
        }
    }

    // The summary once a value of the page has changed with the number: held numbers below it, but not below the change before, see now
    // what they saw of the page as it was.
    pub(crate) fn raised(self, held: &Held, number: u64, shows: bool) -> Summary
        ensures last { result.last ≡ max self.last number }
        ensures shows { result.shows ≡ shows }
        ensures hidden { IsRaised held.now self result }
    {
        if number <= self.last {
            return Summary { shows, ..self };
        }
        let newest = held.bits_between(self.last, number);
        let hidden = if self.shows {
            self.hidden & !newest
        } else {
            self.hidden | newest
        };
        Summary {
            last: number,
            shows,
            hidden,
        }
    }

    // Does a range of the reader pass over the page?
    pub(crate) fn is_passed(self, reader: Reader) -> bool
        ensures { result ≡ is_passed reader self }
    {
        if reader.number < self.last {
            self.hidden & reader.bit != 0
        } else {
            !self.shows
        }
    }
}
