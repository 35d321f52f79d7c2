//! What is shown of the part of a line of code at a place.

use crate::code::CodeLine;
use crate::made::Made;
use crate::query::Query;
use crate::spot::Spot;
use crate::subject::{Subject, help_of, subject_at};
use crate::word_help::Names;
use execadvice::FilePlace;
use serde_json::{Value, json};
use taskscript::{Array, LinePlace};

/// The most lines that are shown that set a variable.
const MOST_LINES: usize = 12;

/// What has names of a kind, in words.
fn named_things(names: Names) -> &'static str {
    match names {
        Names::Task => "task",
        Names::Port => "public port",
        Names::Library => "library",
        Names::Softint => "software interrupt",
        Names::Device => "device",
        Names::Other => "name",
    }
}

impl Query<'_> {
    /// The line of the text in which a line of code is, from 1.
    fn line_number(&self, place: LinePlace) -> usize {
        match self.written.place_of_code(place, 0) {
            None => 0,
            Some(found) => found.line,
        }
    }

    /// The lines that give a variable a value: of this body, or of all if the variable is shared.
    pub(crate) fn setters(&self, spot: &Spot, variable: &str) -> Made<Vec<CodeLine>> {
        let lines = if variable.starts_with("@") {
            self.all_code()?
        } else {
            self.body(spot.place.owner, spot.place.item)?
        };
        let mut setters = Vec::new(self.alloc);
        for line in lines {
            if line.sets(variable) {
                setters.push(line)?;
            }
        }
        Ok(setters)
    }

    /// The lines of this body that are a label.
    pub(crate) fn label_lines(&self, spot: &Spot, label: &str) -> Made<Vec<CodeLine>> {
        let mut found = Vec::new(self.alloc);
        for line in self.body(spot.place.owner, spot.place.item)? {
            if line.label() == Some(label) {
                found.push(line)?;
            }
        }
        Ok(found)
    }

    /// Some lines as a list, each with its number.
    fn listed(&self, lines: &[CodeLine]) -> Made<String> {
        let mut text = String::new(self.alloc);
        for line in lines.iter().take(MOST_LINES) {
            let (number, code) = (self.line_number(line.place), line.code.as_str());
            let item = format!(in self.alloc; "\n- line {number}: `{code}`")?;
            text.push_str(item.as_str())?;
        }
        if lines.len() > MOST_LINES {
            text.push_str("\n- ..")?;
        }
        Ok(text)
    }

    /// What is shown of a variable.
    fn variable_text(&self, spot: &Spot, variable: &str) -> Made<String> {
        let setters = self.setters(spot, variable)?;
        let list = self.listed(&setters)?;
        let whose = if variable.starts_with("@") {
            "shared by all bodies"
        } else {
            "of this body"
        };
        if setters.is_empty() {
            return format!(in self.alloc;
                "`{variable}`, a variable {whose}. It is never set, so it is 0."
            );
        }
        format!(in self.alloc; "`{variable}`, a variable {whose}. It is set in:\n{list}")
    }

    /// What is shown of a label.
    fn label_text(&self, spot: &Spot, label: &str) -> Made<String> {
        let lines = self.label_lines(spot, label)?;
        match lines.first() {
            None => format!(in self.alloc; "`{label}`: the body has no such label."),
            Some(line) => {
                let number = self.line_number(line.place);
                format!(in self.alloc; "`{label}:`, a label, in line {number}.")
            }
        }
    }

    /// What is shown of a task's number.
    fn task_text(&self, number: usize) -> Made<String> {
        let count = self.count(Array::Task);
        if number == 0 || number > count {
            return format!(in self.alloc; "The file has no task {number}: it has {count}.");
        }
        let name = self.item_name(Array::Task, number.saturating_sub(1))?;
        format!(in self.alloc; "Task {number} is \"{name}\".")
    }

    /// What is shown of a name.
    fn name_text(&self, names: Names, name: &str) -> Made<String> {
        let known = self.names(names)?;
        let thing = named_things(names);
        let has = known.iter().any(|one| one.as_str() == name);
        let lacks = if has || names == Names::Other {
            ""
        } else {
            " The text has none of that name."
        };
        format!(in self.alloc; "\"{name}\", the name of a {thing}.{lacks}")
    }

    /// What is shown of a part of a line of code, in Markdown.
    fn subject_text(&self, spot: &Spot, subject: Subject<'_>) -> Made<String> {
        match subject {
            Subject::Word(word) => match help_of(word) {
                None => Ok(String::new(self.alloc)),
                Some(help) => String::from_str(self.alloc, help.text),
            },
            Subject::Variable(name) => self.variable_text(spot, name),
            Subject::Label(name) => self.label_text(spot, name),
            Subject::Task(number) => self.task_text(number),
            Subject::Name(names, name) => self.name_text(names, name),
        }
    }

    /// What is shown of the part of a line of code at a place; null if there is none.
    pub(crate) fn hover(&self, at: FilePlace) -> Made<Value> {
        let Some(spot) = self.spot(at)? else {
            return Ok(Value::Null);
        };
        let Some(found) = subject_at(self.alloc, spot.code.as_str(), spot.before)? else {
            return Ok(Value::Null);
        };
        let text = self.subject_text(&spot, found.subject)?;
        let range = self.spot_range(&spot, found.span)?;
        let contents = json!(in self.alloc; {"kind": "markdown", "value": text})?;
        json!(in self.alloc; {"contents": contents, "range": range})
    }
}
