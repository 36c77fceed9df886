//! Pictures of loops and of runs, as the text of SVG files.
#![tactic(auto)]

mod axis;
mod bars;
mod clocks;
mod drawing;
mod gathering;
mod lanes;
mod layout;
mod legend;
mod loops;
mod marks;
mod nest;
mod offsets;
mod points;
mod sketch;
mod source_text;
mod wakes;

pub use arrows::{Advance, Arrow, Counted, Look, LoopPicture, Row, Space, Statement, Vector, laws};
pub use clocks::{Clocks, Duty};
pub use drawing::draw;
pub use gathering::{Awaited, Came, Cell, Deed, Gathered, Held, Lane, Level, Turn};
pub use lanes::{Ending, timeline};
pub use loops::{Frame, OpenLoop, SerialLoop, open_picture, serial_picture};
pub use nest::space_of;
pub use source_text::lines_of;
pub use wakes::{Moment, Wake, Wakes};
