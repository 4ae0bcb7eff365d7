//! What the events of a turn say of the machine.
ghost use Rattle.std.specs.Prelude.{◌≡◌, ◌&&◌};
ghost use Rattle.std.specs.List.{list_any};
ghost use Rattle.turn_records.specs.Turn as turn;

use kernel_core::{Delivery, Event};

/// Whether a handler was entered: one began, and the process is alive.
pub(crate) fn is_entered(events: &[Event], alive: bool) -> bool
    ensures { result ≡ (list_any turn.begins_handler events.now && alive) }
{
    handler_began(events) && alive
}

/// Whether a handler began.
fn handler_began(events: &[Event]) -> bool
    ensures { result ≡ list_any turn.begins_handler events.now }
{
    events.iter().any(|event| begins_handler(event))
}

/// Whether registers or memory were changed, at most.
pub(crate) fn is_touched(events: &[Event]) -> bool
    ensures { result ≡ list_any turn.touches events.now }
{
    events.iter().any(|event| touches(event))
}

fn begins_handler(event: &Event) -> bool
    ensures { result ≡ turn.begins_handler event.now }
{
    match event {
        Event::Signal { delivery, .. } => is_handler(*delivery),
        _ => false,
    }
}

fn touches(event: &Event) -> bool
    ensures { result ≡ turn.touches event.now }
{
    match event {
        Event::Done { .. } | Event::Restart { .. } => true,
        Event::Signal { delivery, .. } => is_handler(*delivery),
        _ => false,
    }
}

fn is_handler(delivery: Delivery) -> bool
    ensures { result ≡ turn.is_handler delivery }
{
    matches!(delivery, Delivery::Handler)
}
