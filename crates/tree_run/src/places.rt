//! Places of elements.

ghost use Rattle.std.specs.Prelude.{◌≡◌, ◌<◌, ◌≤◌, ◌*◌, ◌∷◌, ◌-ℤ◌, IfSome, false, int_lt, map, not};
ghost use Rattle.std.specs.Prelude.{true, unsigned_abs};
ghost use Rattle.std.specs.List.{list_all};
ghost use Rattle.std.proofs.Props.{props};
ghost use Rattle.ast.specs.Symbols.{elements, is_within, most_elements, width};
ghost use Rattle.ast.specs.View.{extent};
ghost use Rattle.tree_run.specs.Steps.{further_from as further};

use ast::{Dimension, Fault};

/// How far the subscripts of an element, from the first on, have led.
#[derive(Drop)]
pub struct Walk<'d> {
    /// The dimensions that have no subscript yet.
    rest: &'d [Dimension],
    /// How many elements lie between two neighbours by the next subscript.
    stride: usize,
    /// The place so far, unless a subscript left its bounds.
    place: Option<usize>,
    ghost open: { list_all (λ d. not (int_lt d.upper d.lower)) (map extent rest.now) ≡ true } by { Prim.hlevel props },
    ghost positive: { 1 ≤ stride } by { Prim.hlevel props },
    ghost few: { stride * elements (map extent rest.now) ≤ most_elements } by { Prim.hlevel props },
    ghost within: { IfSome place (λ p. p < stride) } by { Prim.hlevel props },
}

/// How far a subscript is from its lower bound.
#[tactic(auto, using(ast::proofs::Places::below))]
fn offset(dimension: &Dimension, subscript: i64) -> usize
    requires open { int_lt dimension.now.upper dimension.now.lower ≡ false }
    requires few { width (extent dimension.now) ≤ most_elements }
    requires held { is_within (extent dimension.now) subscript ≡ true }
    ensures value { result ≡ unsigned_abs (subscript -ℤ dimension.now.lower) }
    ensures below { result < width (extent dimension.now) }
{
    (subscript - dimension.lower) as usize
}

/// The place one subscript further.
#[tactic(auto, using(ast::proofs::Places::narrow))]
fn further(
    place: Option<usize>,
    stride: usize,
    dimension: &Dimension,
    subscript: i64,
) -> Option<usize>
    requires open { int_lt dimension.now.upper dimension.now.lower ≡ false }
    requires positive { 1 ≤ stride }
    requires few { stride * width (extent dimension.now) ≤ most_elements }
    requires within { IfSome place (λ p. p < stride) }
    ensures at { result ≡ further stride (extent dimension.now) subscript place }
    ensures within { IfSome result (λ p. p < stride * width (extent dimension.now)) }
{
    match place {
        None => None,
        Some(place) => {
            if dimension.holds(subscript) {
                Some(place + stride * offset(dimension, subscript))
            } else {
                None
            }
        }
    }
}

/// The stride of the next subscript.
#[tactic(auto, using(ast::proofs::Places::narrow))]
fn longer(stride: usize, dimension: &Dimension) -> usize
    requires open { int_lt dimension.now.upper dimension.now.lower ≡ false }
    requires positive { 1 ≤ stride }
    requires few { stride * width (extent dimension.now) ≤ most_elements }
    ensures { result ≡ stride * width (extent dimension.now) }
{
    stride * dimension.width()
}

impl<'d> Walk<'d> {
    ghost use Rattle.std.specs.Prelude.{◌≡◌, ◌<◌, ◌≤◌, ◌*◌, ◌∷◌, IfOk, IfSome, int_lt, map, not};
    ghost use Rattle.std.specs.Prelude.{true};
    ghost use Rattle.std.specs.List.{list_all};
    ghost use Rattle.ast.specs.Symbols.{elements, most_elements};
    ghost use Rattle.ast.specs.View.{extent};
    ghost use Rattle.tree_run.specs.Steps.{arrived, opening, room, step_on, stepped};
    ghost use Rattle.tree_run.specs.View.{way};

    /// Before the first subscript.
    pub fn new(dimensions: &'d [Dimension]) -> Walk<'d>
        requires open { list_all (λ d. not (int_lt d.upper d.lower)) (map extent dimensions.now)
            ≡ true }
        requires few { elements (map extent dimensions.now) ≤ most_elements }
        ensures { way result ≡ opening (map extent dimensions.now) }
    {
        Walk {
            rest: dimensions,
            stride: 1,
            place: Some(0),
        }
    }

    /// A subscript of the first of the dimensions that are left.
    fn onward(
        place: Option<usize>,
        stride: usize,
        dimension: &Dimension,
        rest: &'d [Dimension],
        subscript: i64,
    ) -> Walk<'d>
        requires open { list_all (λ d. not (int_lt d.upper d.lower)) (extent dimension.now
            ∷ map extent rest.now) ≡ true }
        requires positive { 1 ≤ stride }
        requires few { stride * elements (extent dimension.now ∷ map extent rest.now)
            ≤ most_elements }
        requires within { IfSome place (λ p. p < stride) }
        ensures { way result ≡ step_on (extent dimension.now
            ∷ map extent rest.now) stride place subscript }
    {
        Walk {
            rest,
            stride: longer(stride, dimension),
            place: further(place, stride, dimension, subscript),
        }
    }

    /// One subscript further.
    pub fn step(self, subscript: i64) -> Walk<'d>
        ensures { way result ≡ stepped (way self.entry) subscript }
    {
        match self.rest {
            [] => self,
            [dimension, rest @ ..] => Walk::onward(
                self.place,
                self.stride,
                dimension,
                rest,
                subscript,
            ),
        }
    }

    /// The place of the element.
    pub fn place(self) -> Result<usize, Fault>
        ensures at { result ≡ arrived (way self.entry) }
        ensures within { IfOk result (λ p. p < room (way self.entry)) }
    {
        if self.rest.is_empty() {
            self.place.ok_or(Fault::Index)
        } else {
            Err(Fault::Index)
        }
    }
}
