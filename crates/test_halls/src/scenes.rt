//! Scenes of halls: sessions that build while workers are held, turned away, or stopped.
ghost use Rattle.std.specs.Prelude.{◌≡◌, ◌<◌};

use crate::doors::Doors;
use crate::histories::add_history;
use go_path_core::Module;
use go_path_core::text_core::{Rule, add};
use govisd_service::hall::{Built, Hall, OpenGate, Session, WorkEnd, work};
use govisd_service::hall_core::{Named, Stamps, Submits};
use std::alloc::{AllocError, Global};
use std::marker::Brand;
use std::sync::Wait;
use std::sync::ledger::Blank;
use std::thread;
use std::thread::{JoinHandle, Scope, Threads};
use std::time::Clock;
use test_probe::show::Lines;

/// The parts of a hall's ledger of submits: more than sessions can be opened.
const PARTS: u64 = 1_048_577;

/// The text of each file.
const TEXT: &str = "package x\n";

/// What is shown.
#[derive(Clone, Copy)]
enum Scene {
    /// Two actions are held at once while others ask.
    Held,
    /// The gate is closed behind one action.
    Closed,
    /// The hall is stopped.
    Stopped,
}

/// What a scene shows, and what its sessions submitted.
#[derive(Drop)]
struct Played<L: Named> {
    lines: Lines,
    submits: Vec<Submits<L>>,
}

/// A session of a module whose draft has the packages of these paths.
fn opened<'a, L: Named, H: Wait>(
    rt: &H,
    alloc: Global,
    hall: &'a Hall<L>,
    module: &str,
    paths: &[&str],
) -> Result<Session<'a, L>, Rule> {
    let own = Module::read(alloc, module)?;
    let mut session = hall.open(rt, own)?;
    for path in paths {
        edit(alloc, &mut session, path, TEXT)?;
    }
    Ok(session)
}

/// Sets the file of a package.
fn edit<L: Named>(
    alloc: Global,
    session: &mut Session<'_, L>,
    path: &str,
    text: &str,
) -> Result<(), Rule> {
    match String::from_str(alloc, text) {
        Ok(text) => session.edit(path, "x.go", Some(text)),
        Err(AllocError) => Err(Rule::M0),
    }
}

/// Starts a worker behind an open gate.
fn start<'s, E, L: Named + Send + Sync, H: Threads + Wait + Clock + Sync>(
    scope: &Scope<'s, E>,
    rt: &'s H,
    hall: &'s Hall<L>,
) -> Result<JoinHandle<WorkEnd>, Rule> {
    match scope.spawn(move || work(rt, hall, &OpenGate)) {
        Ok(handle) => Ok(handle),
        Err(_) => Err(Rule::M0),
    }
}

/// Starts a worker behind doors.
fn start_behind<'s, E, L: Named + Send + Sync, H: Threads + Wait + Clock + Sync>(
    scope: &Scope<'s, E>,
    rt: &'s H,
    hall: &'s Hall<L>,
    doors: &'s Doors,
) -> Result<JoinHandle<WorkEnd>, Rule> {
    match scope.spawn(move || work(rt, hall, doors)) {
        Ok(handle) => Ok(handle),
        Err(_) => Err(Rule::M0),
    }
}

/// Builds a module of two packages that do not import each other: the number of its batch, and 0 where the build is refused.
fn build_two<L: Named, H: Wait>(rt: &H, alloc: Global, hall: &Hall<L>) -> u64 {
    match opened(rt, alloc, hall, "ex.com/c", &["ex.com/c/x", "ex.com/c/y"]) {
        Ok(mut session) => {
            let number = match session.build(rt) {
                Ok(built) => built.batch,
                Err(_) => 0,
            };
            let _submits = session.close(rt);
            number
        }
        Err(_) => 0,
    }
}

/// Starts a thread that builds such a module.
fn start_building<'s, E, L: Named + Send + Sync, H: Threads + Wait + Clock + Sync>(
    scope: &Scope<'s, E>,
    rt: &'s H,
    alloc: Global,
    hall: &'s Hall<L>,
) -> Result<JoinHandle<u64>, Rule> {
    match scope.spawn(move || build_two(rt, alloc, hall)) {
        Ok(handle) => Ok(handle),
        Err(_) => Err(Rule::M0),
    }
}

/// Adds what a build answers.
fn add_build(lines: &mut Lines, who: &str, answer: Result<Built, Rule>) {
    lines.add(who);
    match answer {
        Ok(built) => lines.count(" builds: batch ", built.batch as usize, "\n"),
        Err(rule) => lines.pieces(&[" builds: ", rule.number(), "\n"]),
    }
}

/// Adds by how many batches a session is answered.
fn add_asked<L: Named>(lines: &mut Lines, who: &str, session: &mut Session<'_, L>, path: &str) {
    lines.add(who);
    match session.part(path) {
        Ok((batch, _)) => lines.count(" asks: batch ", batch as usize, "\n"),
        Err(rule) => lines.pieces(&[" asks: ", rule.number(), "\n"]),
    }
}

/// Adds how a worker ends.
fn add_end<H: Threads>(rt: &H, lines: &mut Lines, worker: JoinHandle<WorkEnd>) {
    match worker.join(rt) {
        WorkEnd::Stopped => lines.line("worker: stopped"),
        WorkEnd::GateClosed => lines.line("worker: gate closed"),
    }
}

/// Closes a session, and keeps what it submitted.
fn leave<L: Named, H: Wait>(
    rt: &H,
    played: &mut Played<L>,
    session: Session<'_, L>,
) -> Result<(), Rule> {
    let submits = session.close(rt);
    played
        .lines
        .count("submits: ", submits.count as usize, "\n");
    match add(&mut played.submits, submits) {
        Ok(()) => Ok(()),
        Err(AllocError) => Err(Rule::M0),
    }
}

/// Two workers are held inside at the same time, each with an action of one batch, while two sessions ask: they are answered from the batches before.
fn play_held<'s, E, L: Named + Send + Sync, H: Threads + Wait + Clock + Sync>(
    scope: &Scope<'s, E>,
    rt: &'s H,
    alloc: Global,
    hall: &'s Hall<L>,
    doors: &'s Doors,
    played: &mut Played<L>,
) -> Result<(), Rule> {
    let one = start_behind(scope, rt, hall, doors)?;
    let two = start_behind(scope, rt, hall, doors)?;
    let mut first = opened(rt, alloc, hall, "ex.com/a", &["ex.com/a"])?;
    let mut second = opened(rt, alloc, hall, "ex.com/b", &["ex.com/b"])?;
    add_build(&mut played.lines, "first", first.build(rt));
    add_build(&mut played.lines, "second", second.build(rt));
    doors.close();
    let builder = start_building(scope, rt, alloc, hall)?;
    let is_met = doors.await_inside(rt, 2);
    played.lines.line(if is_met {
        "two inside"
    } else {
        "no two inside"
    });
    add_asked(&mut played.lines, "first", &mut first, "ex.com/a");
    add_asked(&mut played.lines, "second", &mut second, "ex.com/b");
    doors.open();
    let number = builder.join(rt);
    played
        .lines
        .count("third builds: batch ", number as usize, "\n");
    add_asked(&mut played.lines, "first", &mut first, "ex.com/a");
    add_asked(&mut played.lines, "second", &mut second, "ex.com/b");
    hall.stop(rt);
    add_end(rt, &mut played.lines, one);
    add_end(rt, &mut played.lines, two);
    leave(rt, played, first)?;
    leave(rt, played, second)
}

/// A gate is closed behind the first action: the build is refused whose action comes next, nothing is published, and a fresh worker builds it again.
fn play_closed<'s, E, L: Named + Send + Sync, H: Threads + Wait + Clock + Sync>(
    scope: &Scope<'s, E>,
    rt: &'s H,
    alloc: Global,
    hall: &'s Hall<L>,
    doors: &'s Doors,
    played: &mut Played<L>,
) -> Result<(), Rule> {
    let worker = start_behind(scope, rt, hall, doors)?;
    let mut first = opened(rt, alloc, hall, "ex.com/a", &["ex.com/a"])?;
    add_build(&mut played.lines, "first", first.build(rt));
    edit(alloc, &mut first, "ex.com/a", "package x\n\nconst V = 1\n")?;
    add_build(&mut played.lines, "first", first.build(rt));
    add_end(rt, &mut played.lines, worker);
    add_asked(&mut played.lines, "first", &mut first, "ex.com/a");
    let fresh = start(scope, rt, hall)?;
    add_build(&mut played.lines, "first", first.build(rt));
    add_asked(&mut played.lines, "first", &mut first, "ex.com/a");
    hall.stop(rt);
    add_end(rt, &mut played.lines, fresh);
    leave(rt, played, first)
}

/// A hall is stopped: its worker ends, and nothing is opened or built any more.
fn play_stopped<'s, E, L: Named + Send + Sync, H: Threads + Wait + Clock + Sync>(
    scope: &Scope<'s, E>,
    rt: &'s H,
    alloc: Global,
    hall: &'s Hall<L>,
    played: &mut Played<L>,
) -> Result<(), Rule> {
    let worker = start(scope, rt, hall)?;
    let mut first = opened(rt, alloc, hall, "ex.com/a", &["ex.com/a"])?;
    let mut second = opened(rt, alloc, hall, "ex.com/b", &["ex.com/b"])?;
    add_build(&mut played.lines, "first", first.build(rt));
    add_build(&mut played.lines, "second", second.build(rt));
    hall.stop(rt);
    add_end(rt, &mut played.lines, worker);
    match opened(rt, alloc, hall, "ex.com/c", &[]) {
        Ok(_) => played.lines.line("third opens"),
        Err(rule) => played.lines.pieces(&["third opens: ", rule.number(), "\n"]),
    }
    add_build(&mut played.lines, "first", first.build(rt));
    add_asked(&mut played.lines, "first", &mut first, "ex.com/a");
    leave(rt, played, first)?;
    leave(rt, played, second)
}

/// Plays a scene in a hall, and stops the hall.
fn play_in<'s, E, L: Named + Send + Sync, H: Threads + Wait + Clock + Sync>(
    scope: &Scope<'s, E>,
    rt: &'s H,
    alloc: Global,
    hall: &'s Hall<L>,
    doors: &'s Doors,
    scene: Scene,
) -> Played<L> {
    let mut played = Played {
        lines: Lines::new(alloc),
        submits: Vec::new(alloc),
    };
    let end = match scene {
        Scene::Held => play_held(scope, rt, alloc, hall, doors, &mut played),
        Scene::Closed => play_closed(scope, rt, alloc, hall, doors, &mut played),
        Scene::Stopped => play_stopped(scope, rt, alloc, hall, &mut played),
    };
    if end.is_err() {
        played.lines.cut();
    }
    hall.stop(rt);
    played
}

/// Plays a scene in a hall, with threads beside it.
fn play<L: Named + Send + Sync, H: Threads + Wait + Clock + Sync>(
    rt: &H,
    alloc: Global,
    hall: &Hall<L>,
    doors: &Doors,
    scene: Scene,
) -> Played<L> {
    thread::scope(thread::scope_env(), rt, move |scope| {
        play_in(scope, rt, alloc, hall, doors, scene)
    })
}

/// Adds what a scene shows in a hall of its own, under the name of a ledger, and what its history has.
fn add_named<L: Named + Send + Sync, H: Threads + Wait + Clock + Sync>(
    rt: &H,
    alloc: Global,
    blank: Blank,
    stamps: Stamps,
    scene: Scene,
    out: &mut Lines,
)
    requires ledger { (blank.name ≡ L.name) × (blank.parts ≡ L.parts) × (L.all ≡ L.parts) × (1048576 < L.all) }
    requires stamps { stamps.seen.book ≡ L.book }
{
    let Ok(hall) = Hall::<L>::new(alloc, blank, stamps) else {
        return out.cut();
    };
    let doors = Doors::new(match scene {
        Scene::Closed => 1,
        _ => u64::MAX,
    });
    let Played { lines, submits } = play(rt, alloc, &hall, &doors, scene);
    match lines.finish() {
        Ok(lines) => out.add(lines.as_str()),
        Err(AllocError) => out.cut(),
    }
    add_history(out, &hall.end(submits));
}

/// Adds what a scene shows, behind its title.
fn add_scene<H: Threads + Wait + Clock + Sync>(
    rt: &H,
    alloc: Global,
    title: &str,
    scene: Scene,
    out: &mut Lines,
) {
    out.line(title);
    add_named::<Brand, H>(rt, alloc, Blank::new(PARTS), Stamps::new(), scene, out);
}

/// Adds what the scene of this name shows, and tells whether there is one: `held`, `closed` or `stopped`. It is played in a hall of its own, by sessions and
/// workers. What the sessions are told stands in lines, and how often each kind of event stands in the hall's history.
pub fn show_scene<H: Threads + Wait + Clock + Sync>(
    rt: &H,
    alloc: Global,
    name: &str,
    out: &mut Lines,
) -> bool {
    let (title, scene) = match name {
        "held" => ("== two at once", Scene::Held),
        "closed" => ("== a gate that is closed", Scene::Closed),
        "stopped" => ("== a hall that is stopped", Scene::Stopped),
        _ => return false,
    };
    add_scene(rt, alloc, title, scene, out);
    true
}
