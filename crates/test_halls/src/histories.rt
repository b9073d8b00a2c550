//! Histories in words.
use govisd_service::sched_core::Event;
use test_probe::show::Lines;

/// The kind of an event, as it is counted.
fn kind_of(event: &Event) -> &'static str {
    match event {
        Event::Open(_) => " opens ",
        Event::Close(_) => " closes ",
        Event::Submit(_, _) => " submits ",
        Event::Take => " takes ",
        Event::Finish(_, _) => " finishes ",
        Event::GiveBack(_) => " given back ",
    }
}

/// Adds how often each kind of event stands in a history, in a line.
pub(crate) fn add_history(out: &mut Lines, history: &[Event]) {
    let kinds: &[&str] = &[
        " opens ",
        " submits ",
        " takes ",
        " finishes ",
        " given back ",
        " closes ",
    ];
    out.add("history:");
    for kind in kinds {
        let mut count = 0usize;
        for event in history {
            if kind_of(event) == *kind {
                count = count.saturating_add(1);
            }
        }
        out.count(kind, count, "");
    }
    out.add("\n");
}
