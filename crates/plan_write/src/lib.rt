//! The texts that say what a station is and how it is drawn, written: graph, sheet and picture.
//!
//! `write_graph` appends the text of a track graph and of the order of its edges. `write_sheet` appends that of a
//! `Sheet`: the grid, the order of criteria, the drawing, and how the search ended. `write_grid` and `write_drawing`
//! append these parts alone, `write_drawn` a drawing without its values. A sheet has two editions of text;
//! `write_sheet` writes the second. `write_svg` appends the picture: an SVG text with each edge's line and each
//! node's name.
//!
//! `specs/GraphText`, `specs/SheetText` and `specs/SvgText` have the texts, `specs/SheetLine` the forms of a sheet's
//! lines. `plan_text` reads a sheet again and hands these calls on.
#![tactic(auto)]

mod edition;
mod ending;
mod graph_text;
mod line_parts;
mod sheet;
mod sheet_text;
mod svg;

pub use edition::Edition;
pub use ending::Ending;
pub use graph_text::write_graph;
pub use sheet::{MAX_METRES, Sheet};
pub use sheet_text::{write_drawing, write_drawn, write_grid, write_sheet};
pub use svg::write_svg;
