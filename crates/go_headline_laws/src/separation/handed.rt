//! What every caller hands in.
ghost use Rattle.go_headline_laws.specs.separation.Laws.{AreHandedIn, IsHandedIn};

use go_sched_core::Event;

// The packages of a tree that is submitted are a workspace: its type keeps that.
fn is_handed_in(event: &Event)
    ensures { IsHandedIn event.now }
{
    match event {
        Event::Open(_) => {}
        Event::Close(_) => {}
        Event::Submit(_, tree) => {
            let _packages = tree.packages().packages();
        }
        Event::Take => {}
        Event::Finish(_, _) => {}
        Event::GiveBack(_) => {}
    }
}

/// The trees of events are workspaces, whatever events a caller has: each file of them is read from its text. So what the laws of runs ask of events holds
/// of all. Nothing is done.
pub fn are_handed_in(events: &[Event])
    ensures { AreHandedIn events.now }
{
    for event in events {
        is_handed_in(event);
    }
}
