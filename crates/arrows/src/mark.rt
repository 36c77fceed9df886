//! What a picture has beside its arrows.

use crate::svg::{Point, Size};

/// The class of a mark, by which the style sheet says how it looks.
#[derive(Clone, Copy)]
pub struct Class {
    /// Its name, or several with a blank between two.
    pub name: &'static [u8],
    /// Its hue, if it has one of those of events, 0 to 5.
    pub hue: Option<usize>,
}

impl Class {
    /// A class without a hue.
    pub fn plain(name: &'static [u8]) -> Class {
        Class { name, hue: None }
    }
}

/// A mark.
#[derive(Drop)]
pub enum Mark {
    /// Words that begin, or have their middle or their end, at a point, as their class says.
    Words(Class, Point, Vec<u8>),
    /// A box with its upper left corner at a point, and its title.
    Tile(Class, Point, Size, Vec<u8>),
    /// A disc around a point, with a number in it, and its title.
    Disc(Class, Point, usize, Vec<u8>),
}
