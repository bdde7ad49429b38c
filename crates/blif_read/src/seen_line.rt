// Logical lines whose tokens were gone over, so that their number and their ends are known.
ghost use Rattle.std.specs.Prelude.{◌≡◌, [], length};
ghost use Rattle.std.specs.List.{list_any};
ghost use Rattle.blif_read.specs.Faults.{is_control};
ghost use Rattle.blif_read.specs.Statements.{word};
ghost use Rattle.blif_read.specs.Code.Ends.{AreEnds, first_of, last_after};

use crate::ends::{Ends, ends_of};
use crate::lines::LogicalLine;
use crate::token_list::Tokens;
use crate::words::Statement;
use std::marker::Model;

/// A logical line, and what one walk over its tokens has kept of them.
#[derive(Drop)]
pub struct SeenLine<'a> {
    line: LogicalLine<'a>,
    ends: Ends<'a>,
}

impl<'a> Model for SeenLine<'a> {
    ghost use Rattle.blif_read.specs.Lines.{Line};
    ghost use Rattle.blif_read.specs.Code.Ends.{AreEnds};

    ghost Value = { Line };

    ghost view = { λ s. s.line };

    ghost invariant = { λ s. AreEnds s.ends s.line.tokens };
}

impl<'a> SeenLine<'a> {
    /// The line, over the tokens of which this goes once.
    pub fn of(line: LogicalLine<'a>) -> Self
        ensures { result ≡ line.entry }
    {
        let ends = ends_of(line.tokens());
        SeenLine { line, ends }
    }

    /// The number of its first physical line, counted from 1.
    pub fn number(&self) -> u64
        ensures { result ≡ self.now.number }
    {
        self.line.number()
    }

    /// The statement that it is.
    pub fn statement(&self) -> Statement
        ensures { result ≡ word self.now }
    {
        self.line.statement()
    }

    /// Its tokens.
    pub fn tokens(&self) -> Tokens<'a>
        ensures { result ≡ self.now.tokens }
    {
        self.line.tokens()
    }

    /// How many tokens it has.
    pub fn count(&self) -> usize
        ensures { result ≡ length self.now.tokens }
    {
        self.ends.count
    }

    /// A token has a control byte.
    pub fn has_control(&self) -> bool
        ensures { result ≡ list_any (list_any is_control) self.now.tokens }
    {
        self.ends.control
    }

    /// Its first token, which is empty where it has none.
    pub fn first(&self) -> &'a [u8]
        ensures { result.now ≡ first_of self.now.tokens }
    {
        self.ends.first
    }

    /// Its last token, which is empty where it has none.
    pub fn last(&self) -> &'a [u8]
        ensures { result.now ≡ last_after [] self.now.tokens }
    {
        self.ends.last
    }
}
