//! Shapes of a picture, and the SVG document that they make.
#![tactic(auto)]

mod pages;
mod shapes;
mod symbols;
mod texts;

pub use pages::page;
pub use shapes::{ArrowKind, BlockKind, Point, Shape, TextKind};
pub use symbols::Symbol;
pub use texts::cut;
