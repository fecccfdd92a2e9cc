//! A picture of a report: lanes for threads and virtual processors, bars for events, and what each
//! call did, as an SVG.
#![tactic(auto)]

mod calls;
mod drawing;
mod elements;
mod events;
mod mark;
mod places;
mod replay;
mod rest;
mod say;
mod scene;
mod style;
mod svg;

pub use drawing::{Drawing, Pending, Shown, Wall};
pub use events::{Bar, BarEnd, EventKey, Moved, Row};
pub use mark::{Mark, mark_of};
pub use places::{Frame, Point};
pub use say::say_draw;
pub use svg::svg_text;
