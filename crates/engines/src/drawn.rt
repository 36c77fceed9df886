//! What drawing a loop comes to.

use command_output::Page;

/// What drawing a loop comes to.
#[derive(Drop)]
pub enum Drawn {
    /// The text of a picture, an SVG file.
    Picture(Vec<u8>),
    /// What is shown where there is none.
    Shown(Page),
    /// The program has no loop of the number that was asked for, but so many.
    NoLoop(usize),
    /// The picture would have so many arrows, which are too many.
    TooDense(u128),
}
