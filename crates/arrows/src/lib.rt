//! What pictures are drawn with, and the arrows between the iterations of a loop, as SVG.
#![tactic(auto)]

mod arrows;
mod escaping;
pub mod laws;
mod mark;
mod picture;
mod places;
mod style;
mod svg;
mod vectors;

pub use arrows::{append_point, arrows_of, sinks};
pub use mark::{Class, Mark};
pub use picture::{Advance, Arrow, Counted, Look, LoopPicture, Row, Space, Statement, Vector};
pub use places::{BOX, Place, bottom, corner, entry, exit, place_in, width};
pub use style::{SHEET, hue};
pub use svg::{
    Point, Size, append_class, append_marks, append_number, append_tile, append_words, opening,
};
pub use vectors::{Grid, Spot, append_pair, grid_of, middle, vectors_of};
