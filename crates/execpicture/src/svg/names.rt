//! How tasks, bodies and objects are named in a picture.
use crate::deeds::{Aim, Doer, Means};
use crate::scene::Scene;
use taskq::TaskId;

/// The classes of a colour: of a shape, of a line, and of a shape that is pale.
#[derive(Clone, Copy)]
pub(super) struct Colour {
    pub fill: &'static str,
    pub stroke: &'static str,
    pub pale: &'static str,
}

/// The colour of a task: there are eight.
pub(super) fn colour_of(t: TaskId) -> Colour {
    let (fill, stroke, pale) = match t % 8 {
        0 => ("t0", "k0", "t0 k0 pale thin"),
        1 => ("t1", "k1", "t1 k1 pale thin"),
        2 => ("t2", "k2", "t2 k2 pale thin"),
        3 => ("t3", "k3", "t3 k3 pale thin"),
        4 => ("t4", "k4", "t4 k4 pale thin"),
        5 => ("t5", "k5", "t5 k5 pale thin"),
        6 => ("t6", "k6", "t6 k6 pale thin"),
        _ => ("t7", "k7", "t7 k7 pale thin"),
    };
    Colour { fill, stroke, pale }
}

/// The name of a software interrupt; nothing past the last.
pub(super) fn softint_name<'a>(scene: &'a Scene<'_>, i: usize) -> &'a str {
    match scene.file.machine.softints().get(i) {
        Some(softint) => softint.name.as_str(),
        None => "",
    }
}

/// Who does something, in words.
pub(super) fn doer_text<'a>(scene: &'a Scene<'_>, doer: Doer) -> &'a str {
    match doer {
        Doer::Task(t) => scene.objects.task_name(t),
        Doer::Server(source) => source.text(),
        Doer::Softint(i) => softint_name(scene, i),
        Doer::Timer => "timer",
    }
}

/// To whom something is done, in words.
pub(super) fn aim_text<'a>(scene: &'a Scene<'_>, aim: Aim) -> &'a str {
    match aim {
        Aim::Task(t) => scene.objects.task_name(t),
        Aim::Softint(i) => softint_name(scene, i),
    }
}

/// What is done, in words, before the name of whom it is done to.
pub(super) fn means_text(means: Means) -> &'static str {
    match means {
        Means::Signal => "signals",
        Means::Message => "puts a message at a port of",
        Means::Reply => "replies a message to",
        Means::Semaphore => "hands a semaphore to",
        Means::Request => "finishes a request of",
        Means::Cause => "causes",
    }
}
