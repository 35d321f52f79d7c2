//! Pictures of a part of a run, drawn by `execpicture`.

ghost use Rattle.std.specs.Prelude.{IfErr, OnOk};
ghost use Rattle.logger.specs.{Choosing.IsWithin, Failing.IsAbsent, Failing.IsOfPicture};

use crate::choice::number_or;
use crate::command_line::Paths;
use crate::failure::Failure;
use crate::options::{Options, View};
use escape::shown_text;
use execpicture::{PictureFault, Stretch, write_chrome, write_svg};
use exectrace::WriteSink;
use logforms::Run;
use std::alloc::Global;
use std::io::Write;

/// The last part of a path: the name of the file.
fn file_name(path: &str) -> &str {
    match path.rsplit_once('/') {
        None => path,
        Some((_, name)) => name,
    }
}

/// The part of a run that the options choose: a picture begins with what the machine shows after the first number.
///
/// # Errors
///
/// `Absent` if the run has no step of a number.
fn stretch_of<'a>(alloc: Global, end: u64, options: &Options<'a>) -> Result<Stretch, Failure<'a>>
    ensures from { OnOk result (IsWithin options.now.from end) }
    ensures to { OnOk result (IsWithin options.now.to end) }
    ensures failure { IfErr result IsAbsent }
{
    let from = number_or(alloc, "--from", options.from, end, 0)?;
    let to = number_or(alloc, "--to", options.to, end, end)?;
    Ok(Stretch { from, to })
}

/// Draws a part of a run as an SVG document, or in the Trace Event Format.
fn draw<W: Write>(
    alloc: Global,
    run: &Run,
    title: &str,
    is_svg: bool,
    part: Stretch,
    out: &mut W,
) -> Result<bool, PictureFault> {
    let mut sink = WriteSink::new(&mut *out);
    if is_svg {
        write_svg(alloc, &run.listed, &run.events, title, part, &mut sink)
    } else {
        write_chrome(alloc, &run.listed, &run.events, title, part, &mut sink)
    }
}

/// Writes a picture of the part of a run that the options choose, with the name of the machine file as its title: an
/// SVG document for the view `Svg`, and one in the Trace Event Format for any other. `end` is the number of the last
/// step of the run. Answers whether an alert has stopped the machine by the end of the part.
///
/// # Errors
///
/// `NoMemory` if memory is refused, `Absent` if the run has no step of a number, `Picture` if the part cannot be drawn,
/// and `WriteFailed` if the writer does not take all.
///
/// Source: project rule.
#[tactic(auto, using(crate::proofs::FailLemmas::picture_by_part, crate::proofs::FailLemmas::picture_by_fault, crate::proofs::FailLemmas::picture_by_memory))]
pub fn write_picture<'a, W: Write>(
    alloc: Global,
    run: &Run,
    end: u64,
    paths: Paths<'a>,
    options: &Options<'a>,
    out: &mut W,
) -> Result<bool, Failure<'a>>
    ensures from { OnOk result (IsWithin options.now.from end) }
    ensures to { OnOk result (IsWithin options.now.to end) }
    ensures failure { IfErr result IsOfPicture }
{
    let part = stretch_of(alloc, end, options)?;
    let title = shown_text(alloc, file_name(paths.machine))?;
    match draw(
        alloc,
        run,
        title.as_str(),
        options.view == View::Svg,
        part,
        out,
    ) {
        Ok(is_stopped) => Ok(is_stopped),
        Err(fault) => Err(Failure::of_picture(fault)),
    }
}
