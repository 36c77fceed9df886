//! Writers that show nothing.

use either::Either;
use std::io;
use std::io::Sink;

/// A type of writers of which one shows nothing: it takes another one's place while that is lent.
pub trait Nowhere {
    /// The one that shows nothing.
    fn nowhere() -> Self;
}

impl<A> Nowhere for Either<A, Sink> {
    fn nowhere() -> Either<A, Sink> {
        Either::Right(io::sink())
    }
}
