//! The code of one body: its lines are read one after another, and then its jumps and variables get
//! their numbers.
ghost use Rattle.std.specs.List.{cons_option};
ghost use Rattle.std.specs.Prelude.{◌≡◌, ◌<◌, ◌≤◌, ◌^◌, ◌+◌, ◌++◌, ◌∷◌, [], map, length, IfOk, OnOk, Some};
ghost use Rattle.toml.specs.View.{view, items_view};
ghost use Rattle.script.specs.{Commands.command_view, Names.texts};
ghost use Rattle.taskscript.specs.{Bodies.nothing_read, Bodies.reading_view, Bodies.reading_after, Bodies.faults_after, Bodies.ReadsOn, Meaning.line_meaning, Code.line_in, Code.lines_in, Code.body_faults, Code.code_of, Code.shared_after, Faults.Judges, Listings.body_listing, Listings.command_lines, Listings.number_said, Lines.label_line, Lines.command_line, Lines.named_command_view, Records.setting_view};

use crate::body::Body;
use crate::fault::FileFault;
use crate::interrupting::{Setting, judge_command};
use crate::label::LabelName;
use crate::line::read_line;
use crate::listing::BodyListing;
use crate::named::{Line, NamedCommand};
use crate::numbering::see_command;
use crate::place::Owner;
use crate::refused::{Refused, at_line};
use crate::resolving::commands_in;
use crate::variable::VariableName;
use indexmap::{IndexMap, IndexSet};
use script::Command;
use std::alloc::Global;
use toml::Value;

/// The greatest number of lines of a body.
pub const LINE_LIMIT: usize = 1024;

/// The text of an item of a `code`; one that is not a string is read as the empty text, which says nothing.
///
/// Source: project rule.
pub fn line_in(item: &Value) -> &str
    ensures { result.now ≡ line_in (view item.now) }
{
    match item.as_str() {
        None => "",
        Some(text) => text,
    }
}

// A label is read; NotInInterrupt in the body of an interrupt, and BadLabel where it was before.
fn add_label(
    setting: Setting<'_>,
    body: &mut Body,
    name: LabelName,
    shared: &IndexSet<VariableName>,
) -> Result<(), FileFault>
    requires { length body.old.commands.items < 2 ^ 32 }
    ensures judged { ReadsOn (setting_view setting.entry) result
        (reading_view body.old shared.now.keys)
        (reading_view body.new shared.now.keys)
        (Some (label_line name.bytes)) }
    ensures commands { OnOk result (body.new.commands.items ≡ body.old.commands.items) }
    ensures lines { OnOk result (body.new.lines.items ≡ body.old.lines.items) }
{
    if setting.of_interrupt {
        return Err(FileFault::NotInInterrupt);
    }
    let place = body.commands.len() as u32;
    match body.labels.insert(name, place)? {
        None => Ok(()),
        Some(_) => Err(FileFault::BadLabel),
    }
}

// A command is read, which is in the line of that number; TooMany if it has a variable past its limit, after the faults
// that it has by its body.
fn add_command(
    setting: Setting<'_>,
    body: &mut Body,
    number: u16,
    command: NamedCommand,
    shared: &mut IndexSet<VariableName>,
) -> Result<(), FileFault>
    ensures judged { ReadsOn (setting_view setting.entry) result
        (reading_view body.old shared.old.keys)
        (reading_view body.new shared.new.keys)
        (Some (command_line (named_command_view command))) }
    ensures commands { OnOk result (length body.new.commands.items ≡ length body.old.commands.items + 1) }
    ensures lines { OnOk result (body.new.lines.items ≡ body.old.lines.items ++ number ∷ []) }
{
    judge_command(setting, &command)?;
    see_command(&command, &mut body.private, shared)?;
    body.commands.push(command)?;
    body.lines.push(number)?;
    Ok(())
}

// One more line of the body is read, which has that number.
fn add_line(
    alloc: Global,
    setting: Setting<'_>,
    body: &mut Body,
    number: u16,
    line: &str,
    shared: &mut IndexSet<VariableName>,
) -> Result<(), FileFault>
    requires { length body.old.commands.items < 2 ^ 32 }
    ensures judged { ReadsOn (setting_view setting.entry) result
        (reading_view body.old shared.old.keys)
        (reading_view body.new shared.new.keys)
        (line_meaning line.now) }
    ensures commands { OnOk result (length body.new.commands.items ≤ length body.old.commands.items + 1) }
    ensures lines { OnOk result (body.new.lines.items ≡ body.old.lines.items ++ cons_option (number_said number (line_meaning line.now)) []) }
{
    match read_line(alloc, line)? {
        Line::Label(name) => add_label(setting, body, name, shared),
        Line::Command(command) => add_command(setting, body, number, command, shared),
    }
}

// The lines of the body of the item of that number.
fn body_of(
    alloc: Global,
    owner: Owner,
    number: usize,
    setting: Setting<'_>,
    lines: &[Value],
    shared: &mut IndexSet<VariableName>,
) -> Result<Body, Refused>
    requires { length lines.now ≤ 1024 }
    ensures judged { let start = nothing_read (texts shared.old.keys) in
        let all = lines_in (items_view lines.now) in
        Judges result (faults_after owner number 0 (setting_view setting.entry) start all) (λ body. reading_view body shared.new.keys ≡ reading_after start all) }
    ensures lines { IfOk result (λ body. body.lines.items ≡ command_lines (lines_in (items_view lines.now))) }
{
    let mut body = Body {
        commands: Vec::new(alloc),
        lines: Vec::new(alloc),
        private: IndexSet::new(alloc),
        labels: IndexMap::new(alloc),
    };
    for (i, item) in lines.iter().enumerate() {
        match add_line(alloc, setting, &mut body, i as u16, line_in(item), shared) {
            Err(fault) => return Err(at_line(owner, number, i, fault)),
            Ok(()) => {}
        }
    }
    Ok(body)
}

/// The commands of a body with its listing.
#[derive(Drop)]
pub struct Code {
    pub commands: Vec<Command>,
    pub listing: BodyListing,
}

/// The commands of the body of the item of that number, whose lines are these items, and its listing.
///
/// `setting` says whether it is the body of an interrupt, and has the names of the software interrupts of
/// the file. `shared` has the names of shared variables that the bodies before it named, in the order of
/// first sight, and gets those of this one. A body of more than 1,024 lines is TooMany. Then the first
/// faulty line decides: BadCommand if it says nothing, or names a software interrupt that the file
/// lacks; NotInInterrupt where it may not be in the body of an interrupt; BadLabel if it is a label
/// that was before; TooMany if it has the 33rd private variable of the body or the 65th shared one of
/// the file. If no line is faulty, a jump to a label that is not in the body is BadLabel. After an `Err`
/// nothing is said of `shared`. The lines are our own.
pub fn read_code(
    alloc: Global,
    owner: Owner,
    number: usize,
    setting: Setting<'_>,
    lines: &[Value],
    shared: &mut IndexSet<VariableName>,
) -> Result<Code, Refused>
    ensures judged { let before = texts shared.old.keys in
        let all = lines_in (items_view lines.now) in
        Judges result (body_faults owner number (setting_view setting.entry) before all) (λ code. map command_view code.commands.items ≡ code_of before all) }
    ensures listing { IfOk result (λ code. code.listing ≡ body_listing (texts shared.old.keys) (lines_in (items_view lines.now))) }
    ensures shared { OnOk result (texts shared.new.keys ≡ shared_after (texts shared.old.keys) (lines_in (items_view lines.now))) }
{
    if lines.len() > LINE_LIMIT {
        return Err(at_line(owner, number, LINE_LIMIT, FileFault::TooMany));
    }
    let body = body_of(alloc, owner, number, setting, lines, shared)?;
    let commands = commands_in(
        alloc,
        owner,
        number,
        &body.lines,
        &body.commands,
        &body.private,
        shared,
        &body.labels,
    )?;
    Ok(Code {
        commands,
        listing: BodyListing {
            lines: body.lines,
            private: body.private,
        },
    })
}
