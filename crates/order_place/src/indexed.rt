// A list of definitions with its indexes: what stays the same while its statements are placed.

ghost use Rattle.names_width.specs.Inner.Widths.{row_words};
ghost use Rattle.order_rows.specs.Inner.Masks.{Masked};
ghost use Rattle.order_place.specs.Inner.Sound.{SoundRows};

use names::{CAPACITY, Names, Statements};
use order_rows::{Links, Rows};

// `masks` has the statements of each name, and `defined` the names that have one.
#[derive(Clone, Copy)]
pub struct Indexed<'a> {
    pub rows: Rows<'a>,
    pub n: usize,
    pub links: &'a Links,
    pub masks: &'a [Statements; CAPACITY],
    pub defined: Names,
    pub ghost sound: { SoundRows (row_words rows.width) rows.words.now links.now.first links.now.next n },
    pub ghost masked: { Masked (row_words rows.width) rows.words.now masks.now defined.words },
}
