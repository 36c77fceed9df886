//! The elements of an SVG file. Lengths are in pixels, from the top and the left.

ghost use Rattle.std.specs.Prelude.{◌≡◌, ◌++◌, IfOk, OnOk};
ghost use Rattle.arrows.specs.Markup as spec;

use crate::escaping::append_escaped;
use crate::mark::{Class, Mark};
use itoa::{Buffer, Integer};
use std::alloc::{AllocError, Global};

/// A point of a picture, in pixels from its left edge and from its top.
#[derive(Clone, Copy)]
pub struct Point {
    pub x: u128,
    pub y: u128,
}

/// How wide and how high something is, in pixels.
#[derive(Clone, Copy)]
pub struct Size {
    pub width: u128,
    pub height: u128,
}

/// Appends a number in shortest decimal.
///
/// # Errors
///
/// `AllocError` where memory is refused; a part may have been appended then.
pub fn append_number<I: Integer>(out: &mut Vec<u8>, number: I) -> Result<(), AllocError>
    ensures { OnOk result (out.new.items ≡ out.old.items ++ I.text number) }
{
    let mut buffer = Buffer::new();
    out.extend_from_slice(buffer.format(number).as_bytes())
}

/// Appends an attribute that is a number, by what stands before it.
fn append_attribute(out: &mut Vec<u8>, front: &[u8], value: u128) -> Result<(), AllocError>
    ensures { OnOk result (out.new.items ≡ out.old.items ++ spec.attribute front.now value) }
{
    out.extend_from_slice(front)?;
    append_number(out, value)?;
    out.extend_from_slice(b"\"")
}

fn append_at(out: &mut Vec<u8>, at: Point) -> Result<(), AllocError>
    ensures { OnOk result (out.new.items ≡ out.old.items ++ spec.at_point at) }
{
    append_attribute(out, b" x=\"", at.x)?;
    append_attribute(out, b" y=\"", at.y)
}

/// Appends how wide and how high an element is.
pub fn append_size(out: &mut Vec<u8>, size: Size) -> Result<(), AllocError>
    ensures { OnOk result (out.new.items ≡ out.old.items ++ spec.sized size) }
{
    append_attribute(out, b" width=\"", size.width)?;
    append_attribute(out, b" height=\"", size.height)
}

fn append_hue(out: &mut Vec<u8>, hue: Option<usize>) -> Result<(), AllocError>
    ensures { OnOk result (out.new.items ≡ out.old.items ++ spec.hue_text hue) }
{
    match hue {
        Some(hue) => {
            out.extend_from_slice(b" hue")?;
            append_number(out, hue)
        }
        None => Ok(()),
    }
}

/// Appends a class that is being opened, and its name.
fn append_name(out: &mut Vec<u8>, front: &[u8], class: Class) -> Result<(), AllocError>
    ensures { OnOk result (out.new.items ≡ out.old.items ++ (front.now ++ spec.name_text class)) }
{
    out.extend_from_slice(front)?;
    append_escaped(out, class.name)
}

/// Appends the beginning of an element up to its class, by what stands before that.
///
/// # Errors
///
/// `AllocError` where memory is refused; a part may have been appended then.
pub fn append_class(out: &mut Vec<u8>, front: &[u8], class: Class) -> Result<(), AllocError>
    ensures { OnOk result (out.new.items ≡ out.old.items ++ spec.classed front.now class) }
{
    append_name(out, front, class)?;
    append_hue(out, class.hue)?;
    out.extend_from_slice(b"\"")
}

/// Appends a title, which is shown where the pointer is on the element around it.
fn append_title(out: &mut Vec<u8>, title: &[u8]) -> Result<(), AllocError>
    ensures { OnOk result (out.new.items ≡ out.old.items ++ spec.title title.now) }
{
    out.extend_from_slice(b"<title>")?;
    append_escaped(out, title)?;
    out.extend_from_slice(b"</title>")
}

fn append_said(out: &mut Vec<u8>, words: &[u8]) -> Result<(), AllocError>
    ensures { OnOk result (out.new.items ≡ out.old.items ++ spec.said words.now) }
{
    out.extend_from_slice(b">")?;
    append_escaped(out, words)?;
    out.extend_from_slice(b"</text>\n")
}

/// Appends words that begin, or have their middle or their end, at a point, as their class says.
///
/// # Errors
///
/// `AllocError` where memory is refused; a part may have been appended then.
pub fn append_words(
    out: &mut Vec<u8>,
    class: Class,
    at: Point,
    words: &[u8],
) -> Result<(), AllocError>
    ensures { OnOk result (out.new.items ≡ out.old.items ++ spec.words class at words.now) }
{
    append_class(out, b"<text class=\"", class)?;
    append_at(out, at)?;
    append_said(out, words)
}

fn append_corner(out: &mut Vec<u8>, class: Class, at: Point) -> Result<(), AllocError>
    ensures { OnOk result (out.new.items ≡ out.old.items ++ spec.cornered class at) }
{
    append_class(out, b"<rect class=\"", class)?;
    append_at(out, at)
}

fn append_tile_title(out: &mut Vec<u8>, title: &[u8]) -> Result<(), AllocError>
    ensures { OnOk result (out.new.items ≡ out.old.items ++ spec.tile_title title.now) }
{
    out.extend_from_slice(b" rx=\"3\">")?;
    append_title(out, title)?;
    out.extend_from_slice(b"</rect>\n")
}

/// Appends a box with its upper left corner at a point.
///
/// # Errors
///
/// `AllocError` where memory is refused; a part may have been appended then.
pub fn append_tile(
    out: &mut Vec<u8>,
    class: Class,
    at: Point,
    size: Size,
    title: &[u8],
) -> Result<(), AllocError>
    ensures { OnOk result (out.new.items ≡ out.old.items ++ spec.tile class at size title.now) }
{
    append_corner(out, class, at)?;
    append_size(out, size)?;
    append_tile_title(out, title)
}

fn append_ring(out: &mut Vec<u8>, class: Class, title: &[u8]) -> Result<(), AllocError>
    ensures { OnOk result (out.new.items ≡ out.old.items ++ spec.ring class title.now) }
{
    append_class(out, b"<g class=\"", class)?;
    out.extend_from_slice(b">")?;
    append_title(out, title)
}

fn append_center(out: &mut Vec<u8>, at: Point) -> Result<(), AllocError>
    ensures { OnOk result (out.new.items ≡ out.old.items ++ spec.center at) }
{
    append_attribute(out, b" cx=\"", at.x)?;
    append_attribute(out, b" cy=\"", at.y)
}

fn append_circle(out: &mut Vec<u8>, at: Point) -> Result<(), AllocError>
    ensures { OnOk result (out.new.items ≡ out.old.items ++ spec.circle at) }
{
    out.extend_from_slice(b"<circle r=\"9\"")?;
    append_center(out, at)?;
    out.extend_from_slice(b"/>")
}

fn append_inner(out: &mut Vec<u8>, number: usize) -> Result<(), AllocError>
    ensures { OnOk result (out.new.items ≡ out.old.items ++ spec.inner number) }
{
    out.extend_from_slice(b">")?;
    append_number(out, number)?;
    out.extend_from_slice(b"</text></g>\n")
}

fn append_number_in(out: &mut Vec<u8>, at: Point, number: usize) -> Result<(), AllocError>
    ensures { OnOk result (out.new.items ≡ out.old.items ++ spec.number_in at number) }
{
    out.extend_from_slice(b"<text class=\"number\" dy=\"4\"")?;
    append_at(out, at)?;
    append_inner(out, number)
}

/// Appends a disc around a point, with a number in it.
fn append_disc(
    out: &mut Vec<u8>,
    class: Class,
    at: Point,
    number: usize,
    title: &[u8],
) -> Result<(), AllocError>
    ensures { OnOk result (out.new.items ≡ out.old.items ++ spec.disc class at number title.now) }
{
    append_ring(out, class, title)?;
    append_circle(out, at)?;
    append_number_in(out, at, number)
}

fn append_mark(out: &mut Vec<u8>, mark: &Mark) -> Result<(), AllocError>
    ensures { OnOk result (out.new.items ≡ out.old.items ++ spec.mark mark.now) }
{
    match mark {
        Mark::Words(class, at, words) => append_words(out, *class, *at, words),
        Mark::Tile(class, at, size, title) => append_tile(out, *class, *at, *size, title),
        Mark::Disc(class, at, number, title) => append_disc(out, *class, *at, *number, title),
    }
}

/// Appends marks, one after another.
///
/// # Errors
///
/// `AllocError` where memory is refused; a part may have been appended then.
pub fn append_marks(out: &mut Vec<u8>, marks: &[Mark]) -> Result<(), AllocError>
    ensures { OnOk result (out.new.items ≡ out.old.items ++ spec.marks marks.now) }
{
    for mark in marks {
        append_mark(out, mark)?;
    }
    Ok(())
}

/// What a file begins with: its size, a style sheet, and the ground.
///
/// # Errors
///
/// `AllocError` where memory is refused.
pub fn opening(alloc: Global, size: Size, sheet: &[u8]) -> Result<Vec<u8>, AllocError>
    ensures { IfOk result (λ text. text.items ≡ spec.opening size sheet.now) }
{
    let mut out = Vec::new(alloc);
    append_root(&mut out, size)?;
    out.extend_from_slice(sheet)?;
    out.extend_from_slice(b"<rect class=\"ground\" width=\"100%\" height=\"100%\"/>\n")?;
    Ok(out)
}

fn append_root(out: &mut Vec<u8>, size: Size) -> Result<(), AllocError>
    ensures { OnOk result (out.new.items ≡ out.old.items ++ spec.root size) }
{
    out.extend_from_slice(b"<svg xmlns=\"http://www.w3.org/2000/svg\" role=\"img\"")?;
    append_size(out, size)?;
    out.extend_from_slice(b">\n")
}
