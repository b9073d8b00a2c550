//! Lists of events.
use crate::trees::{add_made, tree_of};
use crate::words::{add_board, add_generations, add_reply, add_ticket};
use go_batch_core::{ReadPart, rebuild};
use go_path_core::Module;
use go_path_core::text_core::{Rule, add};
use go_sched_core::{
    Action, Committed, Core, Event, MAX_EVENTS, Ran, Reply, SessionId, run_events,
};
use go_submit_core::Ticket;
use std::alloc::{AllocError, Global};
use test_probe::show::Lines;

/// A line of a list: its words, and the archive behind it.
#[derive(Clone, Copy)]
struct Command<'a> {
    verb: &'a str,
    first: &'a str,
    rest: &'a str,
    archive: &'a str,
}

/// A core, the actions that it handed out, the events that it was asked, and its replies to them in lines.
#[derive(Drop)]
struct Bench {
    alloc: Global,
    core: Core,
    actions: Vec<Action>,
    events: Vec<Event>,
    replies: Lines,
}

/// An event once more.
fn again(event: &Event) -> Result<Event, AllocError> {
    match event {
        Event::Open(own) => Ok(Event::Open(own.share()?)),
        Event::Close(id) => Ok(Event::Close(*id)),
        Event::Submit(id, tree) => Ok(Event::Submit(*id, tree.share()?)),
        Event::Take => Ok(Event::Take),
        Event::Finish(number, part) => Ok(Event::Finish(*number, part.share()?)),
        Event::GiveBack(generation) => Ok(Event::GiveBack(*generation)),
    }
}

/// The action of a number.
fn action_of<'a>(actions: &'a [Action], number: &str) -> Option<&'a Action> {
    let number: usize = number.parse().unwrap_or(0);
    actions.get(number.wrapping_sub(1))
}

/// A part of the input of an action.
fn part_of(alloc: Global, actions: &[Action], number: &str) -> Option<ReadPart> {
    let action = action_of(actions, number)?;
    let earlier = action.earlier.as_ref();
    rebuild(alloc, &action.input, earlier, action.generation).ok()
}

/// Ends an action by the part that the core has itself, where it has one.
fn finish_kept(core: &mut Core, place: usize, number: u64) -> Option<Committed> {
    let Ok(ready) = core.prepare_kept(place, number)? else {
        return None;
    };
    Some(core.commit_with_event(ready))
}

/// The replies of a new core to these events, each of which is prepared and then committed, and its batches.
fn prepared(alloc: Global, events: &[Event]) -> Result<Lines, Rule> {
    let mut core = Core::new(alloc)?;
    let mut out = Lines::new(alloc);
    for event in events {
        let Ok(event) = again(event) else {
            return Err(Rule::M0);
        };
        match core.prepare(event) {
            Ok(ready) => add_reply(&mut out, &core.commit(ready)),
            Err(reply) => add_reply(&mut out, &reply),
        }
    }
    add_board(&mut out, &core);
    Ok(out)
}

/// The replies of a new core that is run over these events, and its batches.
fn ran(alloc: Global, events: Vec<Event>) -> Result<Lines, Rule> {
    let Ran { core, replies } = run_events(alloc, events)?;
    let mut out = Lines::new(alloc);
    for reply in &replies {
        add_reply(&mut out, reply);
    }
    add_board(&mut out, &core);
    Ok(out)
}

/// Adds how often a new core opens a module and closes it again, and what it replies to the next open.
fn add_filled(out: &mut Lines, alloc: Global, module: &str) {
    let (Ok(own), Ok(mut core)) = (Module::read(alloc, module), Core::new(alloc)) else {
        return out.cut();
    };
    for pairs in 0..MAX_EVENTS {
        let Ok(own) = own.share() else {
            return out.cut();
        };
        match core.step(Event::Open(own)) {
            Reply::Opened(id) => drop(core.step(Event::Close(id))),
            reply => {
                out.count("", pairs as usize, " pairs, ");
                return add_reply(out, &reply);
            }
        }
    }
}

/// Adds whether lines are these, behind a word.
fn add_same(out: &mut Lines, word: &str, told: &str, lines: Lines) {
    match lines.finish() {
        Ok(lines) => {
            let is_same = lines.as_str() == told;
            out.pieces(&[word, if is_same { ": same\n" } else { ": another\n" }]);
        }
        Err(AllocError) => out.cut(),
    }
}

impl Bench {
    /// Adds the reply to an event.
    fn tell(&mut self, out: &mut Lines, event: Event, reply: Reply) {
        add_reply(out, &reply);
        add_reply(&mut self.replies, &reply);
        if add(&mut self.events, event).is_err() {
            out.cut();
        }
        if let Reply::Act(action) = reply {
            if add(&mut self.actions, action).is_err() {
                out.cut();
            }
        }
    }

    /// Asks the core an event.
    fn ask(&mut self, out: &mut Lines, event: Event) {
        match again(&event) {
            Ok(noted) => {
                let reply = self.core.step(event);
                self.tell(out, noted, reply);
            }
            Err(AllocError) => out.cut(),
        }
    }

    /// Ends an action by the part that the core has itself.
    fn keep(&mut self, out: &mut Lines, number: &str) {
        let Some(action) = action_of(&self.actions, number) else {
            return out.line("no action");
        };
        let (Some(place), number) = (action.kept, action.number) else {
            return out.line("not known");
        };
        match finish_kept(&mut self.core, place, number) {
            Some(Committed { event, reply }) => self.tell(out, event, reply),
            None => out.line("nothing"),
        }
    }

    /// The event that a command asks for.
    fn event_of(&self, command: Command<'_>) -> Result<Event, Rule> {
        let number: u64 = command.first.parse().unwrap_or(0);
        match command.verb {
            "open" => Ok(Event::Open(Module::read(self.alloc, command.first)?)),
            "close" => Ok(Event::Close(SessionId(number))),
            "submit" => {
                let tree = tree_of(self.alloc, command.rest, command.archive)?;
                Ok(Event::Submit(SessionId(number), tree))
            }
            "take" => Ok(Event::Take),
            "finish" => {
                let made_of = command.rest.strip_prefix("by ").unwrap_or(command.first);
                match part_of(self.alloc, &self.actions, made_of) {
                    Some(part) => Ok(Event::Finish(number, part)),
                    None => Err(Rule::M0),
                }
            }
            "back" => Ok(Event::GiveBack(number)),
            _ => Err(Rule::V3),
        }
    }

    /// Adds the answer to a command.
    fn obey(&mut self, out: &mut Lines, command: Command<'_>) {
        match command.verb {
            "keep" => self.keep(out, command.first),
            "ticket" => {
                let ticket = Ticket(command.first.parse().unwrap_or(0));
                add_ticket(out, self.core.ticket(ticket));
            }
            "board" => add_board(out, &self.core),
            "generations" => add_generations(out, &self.core),
            "fill" => add_filled(out, self.alloc, command.first),
            "make" => add_made(
                out,
                self.alloc,
                command.first,
                command.rest,
                command.archive,
            ),
            _ => match self.event_of(command) {
                Ok(event) => self.ask(out, event),
                Err(rule) => out.refuse(rule),
            },
        }
    }

    /// Adds whether a new core has the same replies and batches where each step is made in two, and where all events are run at once.
    fn add_again(self, out: &mut Lines) -> Result<(), Rule> {
        let Bench {
            alloc,
            core,
            actions: _,
            events,
            mut replies,
        } = self;
        add_board(&mut replies, &core);
        let Ok(told) = replies.finish() else {
            return Err(Rule::M0);
        };
        let in_two = prepared(alloc, events.as_slice())?;
        add_same(out, "prepared and committed", told.as_str(), in_two);
        let at_once = ran(alloc, events)?;
        add_same(out, "run at once", told.as_str(), at_once);
        Ok(())
    }
}

/// Adds the answers to the commands of a list, which has its title in front.
fn add_list(out: &mut Lines, alloc: Global, list: &str) -> Result<(), Rule> {
    let (title, commands) = list.split_once('\n').unwrap_or((list, ""));
    out.pieces(&["==", title, "\n"]);
    let mut bench = Bench {
        alloc,
        core: Core::new(alloc)?,
        actions: Vec::new(alloc),
        events: Vec::new(alloc),
        replies: Lines::new(alloc),
    };
    for piece in commands.split('>') {
        let (line, archive) = piece.split_once('\n').unwrap_or((piece, ""));
        let line = line.trim();
        if !line.is_empty() {
            let (verb, words) = line.split_once(' ').unwrap_or((line, ""));
            let (first, rest) = words.split_once(' ').unwrap_or((words, ""));
            out.pieces(&[line, ": "]);
            bench.obey(
                out,
                Command {
                    verb,
                    first,
                    rest,
                    archive,
                },
            );
        }
    }
    bench.add_again(out)
}

/// Shows what a new core replies to each list of events in a text: the steps of a list, and whether the same events have the same replies and batches in
/// other calls.
pub fn show_events(alloc: Global, out: &mut Lines, text: &str) {
    for list in text.split('#') {
        if !list.trim().is_empty() && add_list(out, alloc, list).is_err() {
            out.cut();
        }
    }
}
