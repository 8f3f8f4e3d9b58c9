//! Where a value is not of its shape.

use crate::shape::Shape;

/// A step into a value.
#[derive(Clone, Copy, Debug)]
pub enum Inward {
    /// To what stands at a key of an object.
    Key(&'static str),
    /// To an element of a list, counted from 0.
    Place(u64),
}

/// What is wrong with a value.
#[derive(Clone, Copy, Debug)]
pub enum Cause {
    /// It has not this key, or `null` stands there.
    Absent(&'static str),
    /// It is none of this shape.
    OtherThan(Shape),
}

/// A value in a message that is not of its shape.
#[derive(Debug, Drop)]
pub struct ShapeFault {
    /// The way to it, from the message inwards; so the first step is to `arguments` or `body`.
    pub path: Vec<Inward>,
    pub cause: Cause,
}
