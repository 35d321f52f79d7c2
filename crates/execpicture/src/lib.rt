//! Pictures of a run: an SVG document for a page or a slide, and a document in the Trace Event Format, which Perfetto
//! and the tracing pages of browsers open.
//!
//! `film` runs a machine one step and one tick at a time and shows it to a watcher. `scene` keeps what a picture shows,
//! by the numbers of the points, `svg` draws it, and `chrome` writes it as the run goes on. What a machine shows comes
//! from its readers; only who did what comes from the lines of the trace.
#![tactic(auto)]

mod chrome;
mod deeds;
mod fault;
mod film;
mod forms;
mod lines;
mod objects;
mod page;
mod scene;
mod seen;
mod stretch;
mod svg;
mod track;
mod words;

pub use chrome::write_chrome;
pub use fault::PictureFault;
pub use stretch::Stretch;
pub use svg::{LIMIT, write_svg};
