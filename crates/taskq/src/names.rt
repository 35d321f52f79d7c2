//! The names of the tasks, and where the search for one begins, so that it does not look at every task.
ghost use Rattle.std.specs.Prelude.{◌≡◌, ℕ, ◌<◌, ◌-◌, ◌==◌, false, length, map, IfOk, slice_index_or};
ghost use Rattle.std.specs.Cmp.Lexicographic.{pointwise};
ghost use Rattle.taskq.specs.{Marks.mark, Marks.AreFirsts, Tasks.name_at};

use crate::{TaskId, TaskInit};
use execlist::key::Name;
use std::alloc::{AllocError, Global};
use std::marker::Model;

/// How many marks of names there are.
const MARKS: usize = 1024;

/// The names of the tasks, in their order, and for each mark a number below which no task has a name of that mark.
#[derive(Drop)]
pub(crate) struct Names {
    names: Vec<Name>,
    firsts: Vec<usize>,
}

impl Model for Names {
    ghost use Rattle.std.specs.Prelude.{ℕ, List, map};
    ghost use Rattle.taskq.specs.Marks.{AreFirsts};

    ghost Value = { List (List ℕ) };

    ghost view = { λ q. map (λ n. n.bytes) q.names.items };

    ghost invariant = { λ q. AreFirsts q.firsts.items (map (λ n. n.bytes) q.names.items) };
}

/// The byte at that distance from the end, or the first one; 0 if there is none.
fn byte_before(bytes: &[u8], back: usize) -> usize
    ensures value { result ≡ slice_index_or bytes.now (length bytes.now - back) 0 }
    ensures small { result < 256 }
{
    let place = bytes.len().saturating_sub(back);
    usize::from(bytes.get(place).copied().unwrap_or(0))
}

/// The mark of a name, by its length and its last three bytes.
fn mark_of(name: &str) -> usize
    ensures value { result ≡ mark name.now }
    ensures small { result < 1024 }
{
    let bytes = name.as_bytes();
    let [last, second, third] = [
        byte_before(bytes, 1),
        byte_before(bytes, 2),
        byte_before(bytes, 3),
    ];
    (last + second * 10 + third * 100 + bytes.len() % MARKS) % MARKS
}

/// The names of the tasks, in their order.
fn names_of(alloc: Global, tasks: &[TaskInit]) -> Result<Vec<Name>, AllocError>
    ensures { IfOk result (λ v. v.items ≡ map (λ t. t.name) tasks.now) }
{
    let mut names = Vec::with_capacity(alloc, tasks.len())?;
    for task in tasks {
        names.push(task.name)?;
    }
    Ok(names)
}

/// Gives the tasks other names.
fn set_names(names: &mut Vec<Name>, tasks: &[TaskInit])
    requires { length tasks.now ≡ length names.old.items }
    ensures { names.new.items ≡ map (λ t. t.name) tasks.now }
{
    for t in 0..tasks.len() {
        names[t] = tasks[t].name;
    }
}

/// Notes for each mark the first task whose name has it.
fn set_firsts(firsts: &mut Vec<usize>, names: &[Name])
    requires { length firsts.old.items ≡ 1024 }
    ensures { AreFirsts firsts.new.items (map (λ n. n.bytes) names.now) }
{
    firsts.fill(names.len());
    for k in 0..names.len() {
        let t = names.len() - 1 - k;
        firsts[mark_of(names[t].as_str())] = t;
    }
}

impl Names {
    /// The names of these tasks.
    pub(crate) fn new(alloc: Global, tasks: &[TaskInit]) -> Result<Self, AllocError>
        ensures { IfOk result (λ q. q ≡ map (λ t. t.name.bytes) tasks.now) }
    {
        let names = names_of(alloc, tasks)?;
        let mut firsts = Vec::from_elem(alloc, 0, MARKS)?;
        set_firsts(&mut firsts, &names);
        Ok(Names { names, firsts })
    }

    /// Puts the names of as many tasks in the place of these.
    pub(crate) fn set(&mut self, tasks: &[TaskInit])
        requires { length tasks.now ≡ length self.old }
        ensures { self.new ≡ map (λ t. t.name.bytes) tasks.now }
    {
        set_names(&mut self.names, tasks);
        set_firsts(&mut self.firsts, &self.names);
    }

    /// The name of a task.
    pub(crate) fn get(&self, t: TaskId) -> &Name
        requires { t < length self.now }
        ensures { result.now.bytes ≡ name_at self.now t }
    {
        &self.names[t]
    }

    /// Where the search for a name begins: no task before that one has it.
    pub(crate) fn start(&self, name: &str) -> usize
        ensures { (t : ℕ) → t < length self.now → t < result → pointwise ◌==◌ (name_at self.now t) name.now ≡ false }
    {
        self.firsts[mark_of(name)]
    }
}
