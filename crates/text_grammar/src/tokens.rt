//! A cursor over the items of a text.
//!
//! Contracts see a cursor as the list of the items that are left. A call that reads a part takes the part's items and leaves
//! those behind them; each says so by `Reads`, which also gives its fault: the kind of the item that is refused, and the count
//! of items that are left from it on. After a fault the cursor stands where reading stopped, and is of no more use. Each call
//! takes constant time, but for those that compare or copy a word, which take time linear in that word.

ghost use Rattle.std.specs.Prelude.{◌≡◌, ◌&&◌, length, drop, Option, Some, None, Err, ◌==◌, option_map, slice_get};
ghost use Rattle.text_grammar.specs.Part.{Reads, refusal, starts, flag, item_now};
ghost use Rattle.text_grammar.specs.Terminals as t;

use crate::fault::{Kind, ReadError};
use crate::item::{Item, Symbol, Token};
use std::alloc::Global;
use std::marker::Model;
use tb_base::Name;

/// The items that are still to be read.
#[derive(Drop)]
pub struct Tokens<'a> {
    items: &'a [Item],
}

impl<'a> Model for Tokens<'a> {
    ghost use Rattle.std.specs.Prelude.{List};
    ghost use Rattle.text_grammar.specs.declared.item.Item.{Item};

    ghost Value = { List Item };

    ghost view = { λ t. t.items.now };
}

/// Whether two symbols are the same.
pub fn same(a: Symbol, b: Symbol) -> bool
    ensures { result ≡ (t.code a == t.code b) }
{
    a as u8 == b as u8
}

impl<'a> Tokens<'a> {
    /// A cursor at the first of the items.
    pub fn new(items: &'a [Item]) -> Tokens<'a>
        ensures { result ≡ items.now }
    {
        Tokens { items }
    }

    /// How many items are left.
    pub fn left(&self) -> usize
        ensures { result ≡ length self.now }
    {
        self.items.len()
    }

    /// The next item, or `None` at the end.
    pub fn peek(&self) -> Option<&'a Item>
        ensures { option_map item_now result ≡ slice_get self.now 0 }
    {
        match self.items {
            [first, ..] => Some(first),
            [] => None,
        }
    }

    /// The line of the next item, or 0 at the end.
    pub fn line(&self) -> u32
        ensures { result ≡ t.line_of self.now }
    {
        match self.items {
            [first, ..] => first.place.line,
            [] => 0,
        }
    }

    /// The fault of the next item, where it is refused; at the end it is one of syntax.
    pub fn refuse(&self) -> ReadError
        ensures { result ≡ refusal self.now }
    {
        let kind = match self.items {
            [first, ..] => first.refused(),
            [] => Kind::Syntax,
        };
        ReadError::At(kind, self.items.len())
    }

    /// Whether the next item is this word.
    pub fn sees_word(&self, text: &[u8]) -> bool
        ensures { result ≡ starts (t.is_word text.now) self.now }
    {
        match self.items {
            [first, ..] => first.is_word(text),
            [] => false,
        }
    }

    /// Whether the next item is this symbol.
    pub fn sees(&self, symbol: Symbol) -> bool
        ensures { result ≡ starts (t.is_symbol symbol) self.now }
    {
        match self.items {
            [first, ..] => first.is_symbol(symbol),
            [] => false,
        }
    }

    /// Leaves the next item behind, if there is one.
    pub fn skip(&mut self)
        ensures { self.new ≡ drop 1 self.old }
    {
        if let [_, rest @ ..] = self.items {
            self.items = rest;
        }
    }

    /// Takes this word.
    #[tactic(auto, using(crate::proofs::Reading::flag_taken, crate::proofs::Reading::flag_refused))]
    pub fn keyword(&mut self, text: &[u8]) -> Result<(), ReadError>
        ensures { Reads ((t.keyword text.now).reads self.old) result self.new }
    {
        if self.sees_word(text) {
            self.skip();
            Ok(())
        } else {
            Err(self.refuse())
        }
    }

    /// Takes the word that leads a row, and gives its line.
    #[tactic(auto, unfolding(crate::specs::Terminals::leading, crate::specs::Part::one_by))]
    pub fn leading(&mut self, text: &[u8]) -> Result<u32, ReadError>
        ensures { Reads ((t.leading text.now).reads self.old) result self.new }
    {
        match self.items {
            [first, rest @ ..] if first.is_word(text) => {
                let line = first.place.line;
                self.items = rest;
                Ok(line)
            }
            _ => Err(self.refuse()),
        }
    }

    /// Takes this symbol.
    #[tactic(auto, using(crate::proofs::Reading::flag_taken, crate::proofs::Reading::flag_refused))]
    pub fn mark(&mut self, symbol: Symbol) -> Result<(), ReadError>
        ensures { Reads ((t.mark symbol).reads self.old) result self.new }
    {
        if self.sees(symbol) {
            self.skip();
            Ok(())
        } else {
            Err(self.refuse())
        }
    }

    /// Takes a word, and gives a copy of it.
    #[tactic(auto, unfolding(crate::specs::Terminals::name, crate::specs::Part::one_by))]
    pub fn name(&mut self, alloc: Global) -> Result<Name, ReadError>
        ensures { Reads (t.name.reads self.old) result self.new }
    {
        match self.items {
            [
                Item {
                    token: Token::Word(word),
                    ..
                },
                rest @ ..,
            ] => {
                let name = word.copy(alloc)?;
                self.items = rest;
                Ok(name)
            }
            _ => Err(self.refuse()),
        }
    }

    /// Takes this number, however it is written.
    #[tactic(auto, using(crate::proofs::Reading::flag_taken, crate::proofs::Reading::flag_refused))]
    pub fn the_number(&mut self, number: u128) -> Result<(), ReadError>
        ensures { Reads ((t.the_number number).reads self.old) result self.new }
    {
        if self.sees_the_number(number) {
            self.skip();
            Ok(())
        } else {
            Err(self.refuse())
        }
    }

    /// Whether the next item is this number.
    pub fn sees_the_number(&self, number: u128) -> bool
        ensures { result ≡ starts (t.is_the_number number) self.now }
    {
        match self.items {
            [first, ..] => first.is_the_number(number),
            [] => false,
        }
    }

    /// The column of the next item, or 0 at the end.
    pub fn column(&self) -> u32
        ensures { result ≡ t.column_of self.now }
    {
        match self.items {
            [first, ..] => first.place.column,
            [] => 0,
        }
    }

    /// Whether the next item is a word.
    pub fn sees_name(&self) -> bool
        ensures { result ≡ starts t.is_name self.now }
    {
        match self.items {
            [first, ..] => first.is_name(),
            [] => false,
        }
    }

    /// Whether the next item is a number below 2^128.
    pub fn sees_number(&self) -> bool
        ensures { result ≡ starts t.is_number self.now }
    {
        match self.items {
            [first, ..] => first.is_number(),
            [] => false,
        }
    }

    /// Whether the next item stands at a greater column than this.
    pub fn is_deeper(&self, column: u32) -> bool
        ensures { result ≡ starts (t.deeper column) self.now }
    {
        match self.items {
            [first, ..] => first.place.column > column,
            [] => false,
        }
    }

    /// Takes a number, and gives its value.
    #[tactic(auto, unfolding(crate::specs::Terminals::number, crate::specs::Part::one_by))]
    pub fn number(&mut self) -> Result<u128, ReadError>
        ensures { Reads (t.number.reads self.old) result self.new }
    {
        match self.items {
            [
                Item {
                    token: Token::Number(number),
                    ..
                },
                rest @ ..,
            ] => {
                let number = *number;
                self.items = rest;
                Ok(number)
            }
            _ => Err(self.refuse()),
        }
    }
}
